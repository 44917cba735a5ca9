// Atoms that are not written as they were read. purr's texts have slips, and these are kept: what is written of such an atom
// is read again as another, or not at all. So it is said which atom, and what is written for it. `survive` tells which.
use feature::atom_kind::{AtomKind, BracketAtom};
use feature::element::CS;
use packing::load;
use std::fmt;
use std::fmt::Write;
use survive::{AL1, AL2, FIVE, OH3, OH14, TB20, survives};
use table::ATOM_WORDS;

// The first atom of a graph that is not kept, why, and how many more there are.
#[derive(Clone, Copy)]
pub struct Lost {
    pub first: usize,
    pub reason: &'static str,
    pub more: usize,
}

impl fmt::Display for Lost {
    fn fmt<W: fmt::Write>(&self, f: &mut fmt::Formatter<W>) -> fmt::Result {
        let Lost {
            first,
            reason,
            more,
        } = *self;
        write!(f, "atom {first}: {reason}")?;
        if more > 0 {
            write!(f, "; more such atoms: {more}")?;
        }
        Ok(())
    }
}

// No text has an atom with another reason: charges of 0 and of ten cannot be read.
const OTHER: &str = "its charge is not read again";

// Why a bracket atom does not survive.
fn bracket_reason(b: BracketAtom) -> &'static str {
    if b.symbol == CS {
        return "Cs is written as Ac";
    }
    if b.hydrogens == 0 {
        return "H0 is not written";
    }
    if b.charge == FIVE {
        return "+5 is written behind a blank, and not read again";
    }
    match b.configuration {
        AL1 => "AL1 is written as TH1",
        AL2 => "AL2 is written as TH2",
        TB20 => "TB20 is written as TH1",
        OH3 => "OH3 is written as TH1",
        OH14 => "OH14 is written as OH6",
        _ => OTHER,
    }
}

// Why an atom is not kept, by its record, if it is not.
fn reason(record: &[u32]) -> Option<&'static str> {
    match load(record, 0) {
        Some(k) => reason_of(k),
        None => None,
    }
}

fn reason_of(k: AtomKind) -> Option<&'static str> {
    if survives(k) {
        return None;
    }
    match k {
        AtomKind::Bracket(b) => Some(bracket_reason(b)),
        _ => Some(OTHER),
    }
}

// The atoms that are not kept, of a table's first n.
pub fn find_lost(atoms: &[u32], n: usize) -> Option<Lost> {
    let mut lost = atoms
        .chunks_exact(ATOM_WORDS)
        .take(n)
        .map(reason)
        .enumerate()
        .filter_map(|(atom, reason)| reason.map(|reason| (atom, reason)));
    let (first, reason) = lost.next()?;
    Some(Lost {
        first,
        reason,
        more: lost.count(),
    })
}
