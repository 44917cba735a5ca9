// A symbol of a bracket atom, by the table of names.
ghost use Rattle.std.specs.Prelude.{◌≡◌};
ghost use Rattle.read_token.specs.Scan.{symbol_at};

use feature::element::{F, Named, look_up};
use read_token::scanner::{Step, peek};

// A name of two letters, else of one. What is missing is missing after the first byte where some name begins with it.
#[tactic(auto, using(crate::proofs::Symbols::symbol_by_names, crate::proofs::Symbols::no_symbol, crate::proofs::Symbols::slipped), unfolding(read_token::specs::Scan::symbol_at))]
pub fn read_symbol(s: &[u8], at: usize) -> Step
    ensures { result ≡ symbol_at s.now at }
{
    let Some(b) = peek(s, at) else {
        return Err(at);
    };
    match look_up(u32::from(b), peek(s, at + 1)) {
        Named::Two(symbol) => Ok((symbol, at + 2)),
        Named::One(symbol) => Ok((symbol, at + 1)),
        // A slip of the Rust: "[G]" reads as fluorine.
        Named::Begins if b == b'G' => Ok((F, at + 1)),
        Named::Begins => Err(at + 1),
        Named::Nothing => Err(at),
    }
}
