// An atom's kind, as a line gives it: an organic symbol, a star, or a bracket atom with its fields.
ghost use Rattle.std.specs.Prelude.{◌≡◌};
ghost use Rattle.feature.specs.Kinds.{in_range, bracket_in_range, invert_of, invert_bracket};

use crate::element::SYMBOLS;

// Organic symbols by number: B C N O S P F Cl Br I At Ts, and aromatic b c n o p s.
pub const ALIPHATICS: u32 = 12;

pub const AROMATICS: u32 = 6;

// The fields of a bracket atom are numbers, one of them for none, and no Options or enums: they are the digits of the two words that C
// sees (docs/PACKING.md), `bracket_pair` and `bracket_of` put them together and take them apart as they are, and a table would stand
// both ways between a configuration of 58 and its number. An organic symbol is its number for the same reason.
//
// Isotope and map are 0 to 999; NO_NUMBER where none is written.
pub const NO_NUMBER: u32 = 1000;
// Hydrogens are 0 to 9; NO_HYDROGENS where none are written, which is not H0.
pub const NO_HYDROGENS: u32 = 10;
// A charge is -15 to 15, held as its sum with NEUTRAL; NO_CHARGE where none is written, which is not a charge of 0.
pub const NEUTRAL: u32 = 15;

pub const NO_CHARGE: u32 = 31;
// Configurations: TH1 and TH2, and each other template as its base and its number from 1: AL1 is AL + 1, OH30 is OH + 30.
pub const NO_CONFIGURATION: u32 = 0;

pub const TH1: u32 = 1;

pub const TH2: u32 = 2;

pub const AL: u32 = 2;

pub const SP: u32 = 4;

pub const TB: u32 = 7;

pub const OH: u32 = 27;

pub const CONFIGURATIONS: u32 = 58;

#[derive(Clone, Copy, Debug, PartialEq, Eq)]
pub struct BracketAtom {
    pub isotope: u32,
    pub symbol: u32,
    pub configuration: u32,
    pub hydrogens: u32,
    pub charge: u32,
    pub map: u32,
}

#[derive(Clone, Copy, Debug, PartialEq, Eq)]
pub enum AtomKind {
    Star,
    Aliphatic(u32),
    Aromatic(u32),
    Bracket(BracketAtom),
}

#[tactic(auto, unfolding(crate::specs::Kinds::bracket_in_range))]
fn bracket_in_range(b: BracketAtom) -> bool
    ensures { result ≡ bracket_in_range b }
{
    b.isotope <= NO_NUMBER
        && b.symbol < SYMBOLS
        && b.configuration < CONFIGURATIONS
        && b.hydrogens <= NO_HYDROGENS
        && b.charge <= NO_CHARGE
        && b.map <= NO_NUMBER
}

// Whether each number of a kind is within its range. Every other value of the type stands for no atom.
#[tactic(auto, unfolding(crate::specs::Kinds::in_range))]
pub fn in_range(k: AtomKind) -> bool
    ensures { result ≡ in_range k }
{
    match k {
        AtomKind::Star => true,
        AtomKind::Aliphatic(n) => n < ALIPHATICS,
        AtomKind::Aromatic(n) => n < AROMATICS,
        AtomKind::Bracket(b) => bracket_in_range(b),
    }
}

// A mark that is none stays as it is, and so does any on an atom without hydrogen.
#[tactic(auto, unfolding(crate::specs::Kinds::invert_bracket))]
fn invert_bracket(b: BracketAtom) -> Option<AtomKind>
    ensures { result ≡ invert_bracket b }
{
    if b.configuration == NO_CONFIGURATION || b.hydrogens == NO_HYDROGENS || b.hydrogens == 0 {
        return Some(AtomKind::Bracket(b));
    }
    let configuration = match b.configuration {
        TH1 => TH2,
        TH2 => TH1,
        _ => return None,
    };
    Some(AtomKind::Bracket(BracketAtom { configuration, ..b }))
}

// Turns the mark of an atom that bears hydrogen, or answers none where it has no mirror image: 10 of the desk's numbers.
// Without hydrogen nothing changes.
#[tactic(auto, unfolding(crate::specs::Kinds::invert_of))]
pub fn invert(k: AtomKind) -> Option<AtomKind>
    ensures { result ≡ invert_of k }
{
    match k {
        AtomKind::Bracket(b) => invert_bracket(b),
        _ => Some(k),
    }
}
