// A bracket atom: "[", isotope, symbol, configuration, hydrogens, charge, map, "]".
ghost use Rattle.std.specs.Prelude.{◌≡◌};
ghost use Rattle.read_token.specs.Scan.{isotope_at, hydrogens_at, map_at, close_at, after_configuration, inside_at, bracket_at};

use crate::read_charge::read_charge;
use crate::read_configuration::read_configuration;
use crate::read_symbol::read_symbol;
use feature::atom_kind::{AtomKind, BracketAtom, NO_HYDROGENS, NO_NUMBER};
use read_token::scanner::{Found, Part, Step, digit, missing_character, number, peek};

// At most three digits.
#[tactic(auto, unfolding(read_token::specs::Scan::isotope_at))]
fn isotope(s: &[u8], at: usize) -> Part<u32>
    ensures { result ≡ isotope_at s.now at }
{
    let n = number(s, at);
    if n.next == at {
        return Part {
            value: NO_NUMBER,
            next: at,
        };
    }
    n
}

// "H" with at most one digit; alone it is one hydrogen.
#[tactic(auto, unfolding(read_token::specs::Scan::hydrogens_at))]
fn hydrogens(s: &[u8], at: usize) -> Part<u32>
    ensures { result ≡ hydrogens_at s.now at }
{
    if peek(s, at) != Some(b'H') {
        return Part {
            value: NO_HYDROGENS,
            next: at,
        };
    }
    match digit(s, at + 1) {
        Some(value) => Part {
            value,
            next: at + 2,
        },
        None => Part {
            value: 1,
            next: at + 1,
        },
    }
}

// ":" and one to three digits.
#[tactic(auto, unfolding(read_token::specs::Scan::map_at))]
fn map(s: &[u8], at: usize) -> Step
    ensures { result ≡ map_at s.now at }
{
    if peek(s, at) != Some(b':') {
        return Ok((NO_NUMBER, at));
    }
    let n = number(s, at + 1);
    if n.next == at + 1 {
        return Err(at + 1);
    }
    Ok((n.value, n.next))
}

#[tactic(auto, unfolding(read_token::specs::Scan::close_at))]
fn close(s: &[u8], b: BracketAtom, at: usize) -> Found
    ensures { result ≡ close_at s.now b at }
{
    if peek(s, at) == Some(b']') {
        return Ok(Some((AtomKind::Bracket(b), at + 1)));
    }
    Err(missing_character(s, at))
}

// From the place after the configuration on.
#[tactic(auto, unfolding(read_token::specs::Scan::after_configuration, read_token::specs::Scan::after_hydrogens, read_token::specs::Scan::after_charge, read_token::specs::Scan::after_map))]
fn ending(s: &[u8], isotope: u32, symbol: u32, configuration: u32, at: usize) -> Found
    ensures { result ≡ after_configuration s.now isotope symbol configuration at }
{
    let h = hydrogens(s, at);
    let q = read_charge(s, h.next);
    let (map, end) = map(s, q.next).map_err(|p| missing_character(s, p))?;
    let b = BracketAtom {
        isotope,
        symbol,
        configuration,
        hydrogens: h.value,
        charge: q.value,
        map,
    };
    close(s, b, end)
}

// From the place after "[" on.
#[tactic(auto, unfolding(read_token::specs::Scan::inside_at, read_token::specs::Scan::after_isotope, read_token::specs::Scan::after_symbol, read_token::specs::Scan::configured))]
fn inside(s: &[u8], at: usize) -> Found
    ensures { result ≡ inside_at s.now at }
{
    let i = isotope(s, at);
    let (symbol, n) = read_symbol(s, i.next).map_err(|p| missing_character(s, p))?;
    let (configuration, e) = read_configuration(s, n).map_err(|p| missing_character(s, p))?;
    ending(s, i.value, symbol, configuration, e)
}

#[tactic(auto, unfolding(read_token::specs::Scan::bracket_at))]
pub fn read_bracket(s: &[u8], at: usize) -> Found
    ensures { result ≡ bracket_at s.now at }
{
    if peek(s, at) == Some(b'[') {
        return inside(s, at + 1);
    }
    Ok(None)
}
