// An atom: organic, bracket or star.
ghost use Rattle.std.specs.Prelude.{◌≡◌};
ghost use Rattle.read_token.specs.Scan.{star_at, other_at, atom_at};

use crate::read_organic::read_organic;
use feature::atom_kind::AtomKind;
use read_bracket::read_bracket::read_bracket;
use read_token::scanner::{Found, peek};

#[tactic(auto, unfolding(read_token::specs::Scan::star_at))]
fn star(s: &[u8], at: usize) -> Found
    ensures { result ≡ star_at s.now at }
{
    if peek(s, at) == Some(b'*') {
        return Ok(Some((AtomKind::Star, at + 1)));
    }
    Ok(None)
}

// A bracket atom or a star.
#[tactic(auto, unfolding(read_token::specs::Scan::other_at, read_token::specs::Scan::or_else))]
fn other(s: &[u8], at: usize) -> Found
    ensures { result ≡ other_at s.now at }
{
    match read_bracket(s, at)? {
        Some(found) => Ok(Some(found)),
        None => star(s, at),
    }
}

// The atom at a place, or nothing where no atom begins there.
#[tactic(auto, unfolding(read_token::specs::Scan::atom_at, read_token::specs::Scan::or_else))]
pub fn read_atom(s: &[u8], at: usize) -> Found
    ensures { result ≡ atom_at s.now at }
{
    match read_organic(s, at)? {
        Some(found) => Ok(Some(found)),
        None => other(s, at),
    }
}
