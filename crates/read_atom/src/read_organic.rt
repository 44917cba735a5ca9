// An atom without brackets: B C N O S P F Cl Br I At Ts, or aromatic b c n o p s.
ghost use Rattle.std.specs.Prelude.{◌≡◌};
ghost use Rattle.read_token.specs.Scan.{wanted_at, optional_at, organic_at};

use feature::atom_kind::AtomKind;
use read_token::scanner::{Found, missing_character, peek};

// A symbol's second letter, which has to be there.
#[tactic(auto, unfolding(read_token::specs::Scan::wanted_at))]
fn wanted(s: &[u8], at: usize, letter: u8, two: u32) -> Found
    ensures { result ≡ wanted_at s.now at letter two }
{
    if peek(s, at) == Some(letter) {
        return Ok(Some((AtomKind::Aliphatic(two), at + 1)));
    }
    Err(missing_character(s, at))
}

// A symbol of two letters, or of the first alone.
#[tactic(auto, unfolding(read_token::specs::Scan::optional_at))]
fn optional(s: &[u8], at: usize, letter: u8, two: u32, one: u32) -> Found
    ensures { result ≡ optional_at s.now at letter two one }
{
    if peek(s, at) == Some(letter) {
        return Ok(Some((AtomKind::Aliphatic(two), at + 1)));
    }
    Ok(Some((AtomKind::Aliphatic(one), at)))
}

#[tactic(auto, unfolding(read_token::specs::Scan::organic_at, read_token::specs::Scan::aromatic_of, read_token::specs::Scan::aliphatic_of))]
pub fn read_organic(s: &[u8], at: usize) -> Found
    ensures { result ≡ organic_at s.now at }
{
    let kind = match peek(s, at) {
        Some(b'C') => return optional(s, at + 1, b'l', 7, 1),
        Some(b'B') => return optional(s, at + 1, b'r', 8, 0),
        Some(b'A') => return wanted(s, at + 1, b't', 10),
        Some(b'T') => return wanted(s, at + 1, b's', 11),
        Some(b'N') => AtomKind::Aliphatic(2),
        Some(b'O') => AtomKind::Aliphatic(3),
        Some(b'S') => AtomKind::Aliphatic(4),
        Some(b'P') => AtomKind::Aliphatic(5),
        Some(b'F') => AtomKind::Aliphatic(6),
        Some(b'I') => AtomKind::Aliphatic(9),
        Some(b'b') => AtomKind::Aromatic(0),
        Some(b'c') => AtomKind::Aromatic(1),
        Some(b'n') => AtomKind::Aromatic(2),
        Some(b'o') => AtomKind::Aromatic(3),
        Some(b'p') => AtomKind::Aromatic(4),
        Some(b's') => AtomKind::Aromatic(5),
        _ => return Ok(None),
    };
    Ok(Some((kind, at + 1)))
}
