// Which atoms survive being written and read again: the test itself, for programs that say which do not. The crate's proofs
// hold the readers of `read_token` against the texts of `spell`, and show that the test names exactly those that do.
#![tactic(auto)]

ghost use Rattle.std.specs.Prelude.{◌≡◌};
ghost use Rattle.survive.specs.Survive.{configuration_survives, charge_survives, fields_survive};
ghost use Rattle.survive.specs.Survive.{survives as kindSurvives};

use feature::atom_kind::{AL, AtomKind, BracketAtom, NEUTRAL, OH, TB, in_range};
use feature::element::CS;

// The configurations that are written as others.
pub const AL1: u32 = AL + 1;

pub const AL2: u32 = AL + 2;

pub const TB20: u32 = TB + 20;

pub const OH3: u32 = OH + 3;

pub const OH14: u32 = OH + 14;

// The charges that are not read again: the first has a blank in its text, of the others one digit is read. A charge of 0, which
// is not written, is NEUTRAL.
pub const FIVE: u32 = NEUTRAL + 5;

pub const TEN: u32 = NEUTRAL + 10;

pub const MINUS_TEN: u32 = NEUTRAL - 10;

#[tactic(auto, unfolding(crate::specs::Survive::configuration_survives))]
fn configuration_survives(c: u32) -> bool
    ensures { result ≡ configuration_survives c }
{
    !matches!(c, AL1 | AL2 | TB20 | OH3 | OH14)
}

#[tactic(auto, unfolding(crate::specs::Survive::charge_survives))]
fn charge_survives(q: u32) -> bool
    ensures { result ≡ charge_survives q }
{
    !matches!(q, NEUTRAL | FIVE | TEN | MINUS_TEN)
}

// Caesium is written as actinium, and H0 is not.
#[tactic(auto, unfolding(crate::specs::Survive::fields_survive, crate::specs::Survive::symbol_survives, crate::specs::Survive::hydrogens_survive))]
fn fields_survive(b: BracketAtom) -> bool
    ensures { result ≡ fields_survive b }
{
    b.symbol != CS
        && configuration_survives(b.configuration)
        && b.hydrogens != 0
        && charge_survives(b.charge)
}

// Whether a kind stands for an atom whose text is read as the same kind again.
#[tactic(auto, unfolding(crate::specs::Survive::survives, feature::specs::Kinds::in_range))]
pub fn survives(k: AtomKind) -> bool
    ensures { result ≡ kindSurvives k }
{
    match k {
        AtomKind::Star => true,
        AtomKind::Bracket(b) => in_range(k) && fields_survive(b),
        _ => in_range(k),
    }
}
