// Valence targets: how many bonds, with its hydrogens, an atom of a kind can have. Two choices are in ascending order.
#![tactic(auto)]

ghost use Rattle.std.specs.Prelude.{◌≡◌, ◌<◌, get_or};
ghost use Rattle.feature.specs.Names.{aromatic_elements};
ghost use Rattle.targets.specs.Targets.{boron, carbon, nitrogen, oxygen, phosphorus, sulfur, element_of, element_targets, aliphatic_targets, aromatic_targets, targets_of};

use feature::atom_kind::{ALIPHATICS, AtomKind, NEUTRAL, NO_CHARGE};
use feature::element;

#[derive(Clone, Copy, Debug, PartialEq, Eq)]
pub enum Valences {
    None,
    One(u32),
    Two(u32, u32),
    Three(u32, u32, u32),
}

// The elements that the aromatic symbols stand for, in the table's order: as b c n o p s se.
const ELEMENTS: [u32; 8] = [
    element::AS,
    element::B,
    element::C,
    element::N,
    element::O,
    element::P,
    element::S,
    element::SE,
];

#[tactic(auto, unfolding(feature::specs::Names::aromatic_elements))]
fn aromatic_element(i: usize) -> u32
    requires { i < 8 }
    ensures { result ≡ get_or aromatic_elements i 0 }
{
    ELEMENTS[i]
}

// A symbol's element: the same but for the aromatic ones. A number that is no symbol is taken for the star, which has no targets.
#[tactic(auto, unfolding(crate::specs::Targets::element_of))]
fn element_of(symbol: u32) -> u32
    ensures { result ≡ element_of symbol }
{
    if symbol < element::AROMATIC {
        return symbol;
    }
    if symbol < element::SYMBOLS {
        return aromatic_element((symbol - element::AROMATIC) as usize);
    }
    0
}

#[tactic(auto, unfolding(crate::specs::Targets::boron))]
fn boron_targets(charge: u32) -> Valences
    ensures { result ≡ boron charge }
{
    if charge == NEUTRAL - 3 {
        return Valences::One(2);
    }
    if charge == NEUTRAL - 2 {
        return Valences::Two(3, 5);
    }
    if charge == NEUTRAL - 1 {
        return Valences::One(4);
    }
    if charge == NEUTRAL || charge == NO_CHARGE {
        return Valences::One(3);
    }
    Valences::None
}

// A charge that is written as 0 makes it bond like a charge of 1: so the Rust has it.
#[tactic(auto, unfolding(crate::specs::Targets::carbon))]
fn carbon_targets(charge: u32) -> Valences
    ensures { result ≡ carbon charge }
{
    if charge == NEUTRAL - 2 {
        return Valences::One(2);
    }
    if charge == NEUTRAL - 1 {
        return Valences::Two(3, 5);
    }
    if charge == NEUTRAL || charge == NEUTRAL + 1 {
        return Valences::One(3);
    }
    if charge == NO_CHARGE {
        return Valences::One(4);
    }
    Valences::None
}

#[tactic(auto, unfolding(crate::specs::Targets::nitrogen))]
fn nitrogen_targets(charge: u32) -> Valences
    ensures { result ≡ nitrogen charge }
{
    if charge == NEUTRAL || charge == NO_CHARGE {
        return Valences::Two(3, 5);
    }
    if charge == NEUTRAL + 1 {
        return Valences::One(4);
    }
    Valences::None
}

#[tactic(auto, unfolding(crate::specs::Targets::oxygen))]
fn oxygen_targets(charge: u32) -> Valences
    ensures { result ≡ oxygen charge }
{
    if charge == NEUTRAL || charge == NO_CHARGE {
        return Valences::One(2);
    }
    if charge == NEUTRAL + 1 {
        return Valences::Two(3, 5);
    }
    Valences::None
}

#[tactic(auto, unfolding(crate::specs::Targets::phosphorus))]
fn phosphorus_targets(charge: u32) -> Valences
    ensures { result ≡ phosphorus charge }
{
    if charge == NEUTRAL - 1 {
        return Valences::Three(2, 4, 6);
    }
    if charge == NEUTRAL || charge == NO_CHARGE {
        return Valences::Two(3, 5);
    }
    Valences::None
}

#[tactic(auto, unfolding(crate::specs::Targets::sulfur))]
fn sulfur_targets(charge: u32) -> Valences
    ensures { result ≡ sulfur charge }
{
    if charge == NEUTRAL || charge == NO_CHARGE {
        return Valences::Three(2, 4, 6);
    }
    if charge == NEUTRAL + 1 {
        return Valences::Two(3, 5);
    }
    Valences::None
}

#[tactic(auto, unfolding(crate::specs::Targets::element_targets))]
fn element_targets(symbol: u32, charge: u32) -> Valences
    ensures { result ≡ element_targets symbol charge }
{
    match symbol {
        element::B => boron_targets(charge),
        element::C => carbon_targets(charge),
        element::N => nitrogen_targets(charge),
        element::O => oxygen_targets(charge),
        element::P | element::AS => phosphorus_targets(charge),
        element::S | element::SE => sulfur_targets(charge),
        _ => Valences::None,
    }
}

// B C N O S P, then the halogens F Cl Br I At Ts.
#[tactic(auto, unfolding(crate::specs::Targets::aliphatic_targets))]
fn aliphatic_targets(n: u32) -> Valences
    ensures { result ≡ aliphatic_targets n }
{
    match n {
        0 => Valences::One(3),
        1 => Valences::One(4),
        2 | 5 => Valences::Two(3, 5),
        3 => Valences::One(2),
        4 => Valences::Three(2, 4, 6),
        6..ALIPHATICS => Valences::One(1),
        _ => Valences::None,
    }
}

// b c n o p s.
#[tactic(auto, unfolding(crate::specs::Targets::aromatic_targets))]
fn aromatic_targets(n: u32) -> Valences
    ensures { result ≡ aromatic_targets n }
{
    match n {
        0 => Valences::One(3),
        1 => Valences::One(4),
        2 | 4 => Valences::Two(3, 5),
        3 => Valences::One(2),
        5 => Valences::Three(2, 4, 6),
        _ => Valences::None,
    }
}

#[tactic(auto, unfolding(crate::specs::Targets::targets_of))]
pub fn targets(k: AtomKind) -> Valences
    ensures { result ≡ targets_of k }
{
    match k {
        AtomKind::Star => Valences::None,
        AtomKind::Aliphatic(n) => aliphatic_targets(n),
        AtomKind::Aromatic(n) => aromatic_targets(n),
        AtomKind::Bracket(b) => element_targets(element_of(b.symbol), b.charge),
    }
}
