// How atoms and bonds are packed in lent numbers: docs/PACKING.md has the table.
//
// A record is a fixed number of words. Reading past a table finds zeros, and a zero stands for no atom and no bond; a
// store past a table changes nothing. So no call here asks what a table holds.
#![tactic(auto)]

ghost use Rattle.std.specs.Prelude.{◌≡◌, ◌^◌, ◌<◌};
ghost use Rattle.std.proofs.lemmas.List.Edits.{sets};
ghost use Rattle.feature.specs.Steps.{GoodKind, Within};
ghost use Rattle.packing.specs.Words.{is_atom, bracket_pair, pair_of, words_of, list_of, plain_of, bracket_of, load_of, load_at, bond_list, entry_stored, entry_of_words};

use feature::atom_kind::{AtomKind, BracketAtom, CONFIGURATIONS, in_range};
use feature::bond_kind::{BondKind, code, decode};
use table::{ATOM_WORDS, look, poke};

// The first number of each sort of kind.
const STAR: u32 = 1;

const ALIPHATIC: u32 = 2;

const AROMATIC: u32 = 14;

const BRACKET: u32 = 20;
// How many values each number of a bracket atom is given room for, but for the last of a word.
const KINDS: u32 = 256;

const NUMBERS: u32 = 1001;

const CHARGES: u32 = 32;

// The two words of a kind.
#[derive(Clone, Copy, Debug, PartialEq, Eq)]
pub struct Pair {
    pub first: u32,
    pub second: u32,
}

// A bracket atom's words by mixed radix: each number counts in units of the room of those before it.
#[tactic(auto, unfolding(crate::specs::Words::bracket_pair))]
fn pack_bracket(b: BracketAtom) -> Pair
    requires { Within b }
    ensures { result ≡ bracket_pair b }
{
    Pair {
        first: BRACKET
            + b.symbol
            + KINDS * (b.isotope + NUMBERS * (b.configuration + CONFIGURATIONS * b.hydrogens)),
        second: b.charge + CHARGES * b.map,
    }
}

// The words of a kind in range.
#[tactic(auto, unfolding(crate::specs::Words::pair_of))]
fn packed(k: AtomKind) -> Pair
    requires { GoodKind k }
    ensures { result ≡ pair_of k }
{
    match k {
        AtomKind::Star => Pair {
            first: STAR,
            second: 0,
        },
        AtomKind::Aliphatic(n) => Pair {
            first: ALIPHATIC + n,
            second: 0,
        },
        AtomKind::Aromatic(n) => Pair {
            first: AROMATIC + n,
            second: 0,
        },
        AtomKind::Bracket(b) => pack_bracket(b),
    }
}

// A kind's words, zeros where its numbers are out of range.
#[tactic(auto, using(feature::proofs::Ranges::good), unfolding(crate::specs::Words::words_of))]
pub fn words(k: AtomKind) -> Pair
    ensures { result ≡ words_of k }
{
    if in_range(k) {
        return packed(k);
    }
    Pair {
        first: 0,
        second: 0,
    }
}

// A kind put at the place of its record's first word.
#[tactic(auto, unfolding(crate::specs::Words::list_of))]
pub fn store(t: &mut [u32], at: usize, k: AtomKind)
    ensures { t.new ≡ sets t.old at (list_of k) }
{
    let w = words(k);
    if at < t.len() {
        poke(t, at, w.first);
        poke(t, at + 1, w.second);
    }
}

// The kind that a first word below BRACKET stands for.
#[tactic(auto, unfolding(crate::specs::Words::plain_of))]
fn plain(n: u32) -> Option<AtomKind>
    ensures { result ≡ plain_of n }
{
    if n < STAR {
        return None;
    }
    if n < ALIPHATIC {
        return Some(AtomKind::Star);
    }
    if n < AROMATIC {
        return Some(AtomKind::Aliphatic(n - ALIPHATIC));
    }
    if n < BRACKET {
        return Some(AtomKind::Aromatic(n - AROMATIC));
    }
    None
}

// The bracket atom that two words stand for: its numbers are taken apart, and have to be in range.
#[tactic(auto, unfolding(crate::specs::Words::bracket_of))]
fn bracketed(first: u32, second: u32) -> Option<AtomKind>
    ensures { result ≡ bracket_of first second }
{
    let kind = first % KINDS;
    let rest = first / KINDS;
    if kind < BRACKET {
        return None;
    }
    let k = AtomKind::Bracket(BracketAtom {
        isotope: rest % NUMBERS,
        symbol: kind - BRACKET,
        configuration: rest / NUMBERS % CONFIGURATIONS,
        hydrogens: rest / NUMBERS / CONFIGURATIONS,
        charge: second % CHARGES,
        map: second / CHARGES,
    });
    if in_range(k) { Some(k) } else { None }
}

// The kind that two words stand for, if they stand for one.
#[tactic(auto, unfolding(crate::specs::Words::load_of))]
pub fn kind(first: u32, second: u32) -> Option<AtomKind>
    ensures { result ≡ load_of first second }
{
    if BRACKET <= first {
        return bracketed(first, second);
    }
    if 0 < second {
        return None;
    }
    plain(first)
}

// The kind at a place, if one is there.
#[tactic(auto, using(crate::proofs::Laws::load_past), unfolding(crate::specs::Words::load_at))]
pub fn load(t: &[u32], at: usize) -> Option<AtomKind>
    ensures { result ≡ load_at t.now at }
{
    if at < t.len() {
        return kind(look(t, at), look(t, at + 1));
    }
    None
}

// Whether the record a of a table of atoms stands for one.
#[tactic(auto, unfolding(crate::specs::Words::is_atom, crate::specs::Words::is_held))]
pub fn is_atom(t: &[u32], a: usize) -> bool
    requires { a < 2 ^ 32 }
    ensures { result ≡ is_atom t.now a }
{
    load(t, a * ATOM_WORDS).is_some()
}

// A bond entry put at the place of its first word.
#[tactic(auto, unfolding(crate::specs::Words::bond_list))]
pub fn store_bond(t: &mut [u32], at: usize, k: BondKind, target: u32)
    ensures { t.new ≡ sets t.old at (bond_list k target) }
{
    if at < t.len() {
        poke(t, at, code(k));
        poke(t, at + 1, target);
    }
}

// The bond entry at a place, if one is there: its kind and its target.
#[tactic(auto, using(crate::proofs::Laws::bond_past), unfolding(crate::specs::Words::entry_stored, crate::specs::Words::entry_of_words, crate::specs::Words::entry_coded))]
pub fn load_bond(t: &[u32], at: usize) -> Option<(BondKind, u32)>
    ensures { result ≡ entry_stored t.now at }
{
    if at < t.len() {
        let k = decode(t[at])?;
        return Some((k, look(t, at + 1)));
    }
    None
}
