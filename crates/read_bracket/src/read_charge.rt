// A charge: a sign alone, doubled, or with 1 to 9 or 11 to 15.
ghost use Rattle.std.specs.Prelude.{◌≡◌, ◌+◌};
ghost use Rattle.read_token.specs.Scan.{Sized, fifteen_at, signed_at, charge_at};

use feature::atom_kind::{NEUTRAL, NO_CHARGE};
use read_token::scanner::{Part, digit, peek};

// 11 to 15, or 1 to 9; 0 where neither is there, which is no number that may follow a sign: a part that did not move.
#[tactic(auto, unfolding(read_token::specs::Scan::fifteen_at))]
fn fifteen(s: &[u8], at: usize) -> Part<u32>
    ensures { Sized result (fifteen_at s.now at) 15 }
{
    match digit(s, at) {
        None | Some(0) => Part { value: 0, next: at },
        Some(1) => match digit(s, at + 1) {
            Some(e @ 1..=5) => Part {
                value: 10 + e,
                next: at + 2,
            },
            _ => Part {
                value: 1,
                next: at + 1,
            },
        },
        Some(d) => Part {
            value: d,
            next: at + 1,
        },
    }
}

// What follows a sign: a number, the sign again, or nothing.
#[tactic(auto, unfolding(read_token::specs::Scan::signed_at))]
fn signed(s: &[u8], sign: u8, at: usize) -> Part<u32>
    ensures { Sized result (signed_at s.now sign at) 15 }
{
    let f = fifteen(s, at);
    if 0 < f.value {
        return f;
    }
    if peek(s, at) == Some(sign) {
        return Part {
            value: 2,
            next: at + 1,
        };
    }
    Part { value: 1, next: at }
}

#[tactic(auto, unfolding(read_token::specs::Scan::charge_at))]
pub fn read_charge(s: &[u8], at: usize) -> Part<u32>
    ensures { result ≡ charge_at s.now at }
{
    match peek(s, at) {
        Some(b'+') => {
            let p = signed(s, b'+', at + 1);
            Part {
                value: NEUTRAL + p.value,
                next: p.next,
            }
        }
        Some(b'-') => {
            let p = signed(s, b'-', at + 1);
            Part {
                value: NEUTRAL - p.value,
                next: p.next,
            }
        }
        _ => Part {
            value: NO_CHARGE,
            next: at,
        },
    }
}
