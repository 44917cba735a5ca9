// A ring number: a digit, or "%" and two digits.
ghost use Rattle.std.specs.Prelude.{◌≡◌};
ghost use Rattle.read_token.specs.Scan.{percent_at, rnum_at};

use crate::scanner::{Missing, digit, missing_character, peek};

// A ring number and the place after it, no ring number, or what is missing of one.
pub type Ring = Result<Option<(u32, usize)>, Missing>;

// What follows "%".
#[tactic(auto, unfolding(crate::specs::Scan::percent_at))]
fn percent(s: &[u8], at: usize) -> Ring
    ensures { result ≡ percent_at s.now at }
{
    let Some(d) = digit(s, at) else {
        return Err(missing_character(s, at));
    };
    let Some(e) = digit(s, at + 1) else {
        return Err(missing_character(s, at + 1));
    };
    Ok(Some((d * 10 + e, at + 2)))
}

#[tactic(auto, unfolding(crate::specs::Scan::rnum_at))]
pub fn read_rnum(s: &[u8], at: usize) -> Ring
    ensures { result ≡ rnum_at s.now at }
{
    if let Some(d) = digit(s, at) {
        return Ok(Some((d, at + 1)));
    }
    if peek(s, at) == Some(b'%') {
        return percent(s, at + 1);
    }
    Ok(None)
}
