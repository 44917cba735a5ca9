// A configuration: "@" and "@@", or "@" with a template's two letters and a number.
ghost use Rattle.std.specs.Prelude.{◌≡◌, ◌<◌, ◌≤◌};
ghost use Rattle.read_token.specs.Scan.{short_at, late_at, long_at, allene_at, octahedral_at, square_at, trigonal_at, configuration_at};

use feature::atom_kind::{AL, NO_CONFIGURATION, OH, SP, TB, TH1, TH2};
use read_token::scanner::{Step, digit, peek};

// One digit from 1 to top.
#[tactic(auto, unfolding(read_token::specs::Scan::short_at))]
fn short(s: &[u8], at: usize, base: u32, top: u32) -> Step
    requires { (base ≤ 100) × (top < 10) }
    ensures { result ≡ short_at s.now at base top }
{
    match digit(s, at) {
        Some(d) if 0 < d && d <= top => Ok((base + d, at + 1)),
        _ => Err(at),
    }
}

// After "@TB" and "@OH" the Rust takes a byte before it judges it, so its place is one late. A byte that is not ASCII is
// refused at its own place.
#[tactic(auto, unfolding(read_token::specs::Scan::late_at))]
fn late(s: &[u8], at: usize) -> usize
    ensures { result ≡ late_at s.now at }
{
    match peek(s, at) {
        Some(0..=127) => at + 1,
        _ => at,
    }
}

// One digit or two, from 1 to top.
#[tactic(auto, unfolding(read_token::specs::Scan::long_at))]
fn long(s: &[u8], at: usize, base: u32, top: u32) -> Step
    requires { (base ≤ 100) × (top < 100) }
    ensures { result ≡ long_at s.now at base top }
{
    let d = match digit(s, at) {
        None | Some(0) => return Err(late(s, at)),
        Some(d) => d,
    };
    match digit(s, at + 1) {
        Some(e) if d * 10 + e <= top => Ok((base + (d * 10 + e), at + 2)),
        _ => Ok((base + d, at + 1)),
    }
}

// The templates after "@" and a letter are a function each, as purr's are: each has its letter, its base and how far it counts.
//
// After "@A".
#[tactic(auto, unfolding(read_token::specs::Scan::allene_at))]
fn allene(s: &[u8], at: usize) -> Step
    ensures { result ≡ allene_at s.now at }
{
    match peek(s, at) {
        Some(b'L') => short(s, at + 1, AL, 2),
        _ => Err(at),
    }
}

// After "@O".
#[tactic(auto, unfolding(read_token::specs::Scan::octahedral_at))]
fn octahedral(s: &[u8], at: usize) -> Step
    ensures { result ≡ octahedral_at s.now at }
{
    match peek(s, at) {
        Some(b'H') => long(s, at + 1, OH, 30),
        _ => Err(at),
    }
}

// After "@S".
#[tactic(auto, unfolding(read_token::specs::Scan::square_at))]
fn square_planar(s: &[u8], at: usize) -> Step
    ensures { result ≡ square_at s.now at }
{
    match peek(s, at) {
        Some(b'P') => short(s, at + 1, SP, 3),
        _ => Err(at),
    }
}

// After "@T": trigonal bipyramidal or tetrahedral.
#[tactic(auto, unfolding(read_token::specs::Scan::trigonal_at))]
fn trigonal(s: &[u8], at: usize) -> Step
    ensures { result ≡ trigonal_at s.now at }
{
    match peek(s, at) {
        Some(b'B') => long(s, at + 1, TB, 20),
        Some(b'H') => short(s, at + 1, NO_CONFIGURATION, 2),
        _ => Err(at),
    }
}

#[tactic(auto, unfolding(read_token::specs::Scan::configuration_at))]
pub fn read_configuration(s: &[u8], at: usize) -> Step
    ensures { result ≡ configuration_at s.now at }
{
    if peek(s, at) != Some(b'@') {
        return Ok((NO_CONFIGURATION, at));
    }
    match peek(s, at + 1) {
        Some(b'@') => Ok((TH2, at + 2)),
        Some(b'A') => allene(s, at + 2),
        Some(b'O') => octahedral(s, at + 2),
        Some(b'S') => square_planar(s, at + 2),
        Some(b'T') => trigonal(s, at + 2),
        _ => Ok((TH1, at + 1)),
    }
}
