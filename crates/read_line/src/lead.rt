// What leads an atom in, a dot or a bond, and what a byte begins.
ghost use Rattle.std.specs.Prelude.{◌≡◌};
ghost use Rattle.read_line.specs.Parse.{led_at, body_of, body_at};

use feature::bond_kind::BondKind;
use read_token::read_bond::read_bond;
use read_token::scanner::{Part, peek};

// A dot is said by its name, as the grammar does: an Option would call it none, and an elided bond is none to a reader.
#[derive(Clone, Copy, Debug, PartialEq, Eq)]
pub enum Lead {
    // No bond: the atom is a root.
    Dot,
    Bond(BondKind),
}

#[tactic(auto, unfolding(crate::specs::Parse::led_at))]
pub fn read_lead(s: &[u8], at: usize) -> Part<Lead>
    ensures { result ≡ led_at s.now at }
{
    if peek(s, at) == Some(b'.') {
        return Part {
            value: Lead::Dot,
            next: at + 1,
        };
    }
    let b = read_bond(s, at);
    Part {
        value: Lead::Bond(b.value),
        next: b.next,
    }
}

// What a byte begins.
#[derive(Clone, Copy, Debug, PartialEq, Eq)]
pub enum Body {
    // Nothing: the line ends before it.
    Ends,
    Branch,
    // A split or a union.
    Unit,
}

// The arms become a table that is not laid anew for each call, as an array's words would be. Arms that share a line,
// `b'0'..=b'9'` and the like, were tried: they become comparisons, and reading takes 2 in a hundred instructions more.
#[tactic(auto, unfolding(crate::specs::Parse::body_of))]
fn begun(b: u8) -> Body
    ensures { result ≡ body_of b }
{
    match b {
        b'(' => Body::Branch,
        b'.' => Body::Unit,
        b'-' => Body::Unit,
        b'=' => Body::Unit,
        b'#' => Body::Unit,
        b'$' => Body::Unit,
        b':' => Body::Unit,
        b'/' => Body::Unit,
        b'\\' => Body::Unit,
        b'A' => Body::Unit,
        b'B' => Body::Unit,
        b'C' => Body::Unit,
        b'F' => Body::Unit,
        b'I' => Body::Unit,
        b'N' => Body::Unit,
        b'O' => Body::Unit,
        b'P' => Body::Unit,
        b'S' => Body::Unit,
        b'T' => Body::Unit,
        b'b' => Body::Unit,
        b'c' => Body::Unit,
        b'n' => Body::Unit,
        b'o' => Body::Unit,
        b'p' => Body::Unit,
        b's' => Body::Unit,
        b'[' => Body::Unit,
        b'*' => Body::Unit,
        b'0' => Body::Unit,
        b'1' => Body::Unit,
        b'2' => Body::Unit,
        b'3' => Body::Unit,
        b'4' => Body::Unit,
        b'5' => Body::Unit,
        b'6' => Body::Unit,
        b'7' => Body::Unit,
        b'8' => Body::Unit,
        b'9' => Body::Unit,
        b'%' => Body::Unit,
        _ => Body::Ends,
    }
}

// The same at a place; the end begins nothing, and neither does a byte that is not ASCII.
#[tactic(auto, unfolding(crate::specs::Parse::body_at))]
pub fn body_at(s: &[u8], at: usize) -> Body
    ensures { result ≡ body_at s.now at }
{
    match peek(s, at) {
        Some(b) if b < 128 => begun(b),
        _ => Body::Ends,
    }
}
