// A graph parsed into tables: atoms separated by `;`, each its kind and then its bonds, each after a blank, a bond being
// its kind and the number of its target. The empty text is the empty graph. A `?` is a record of zeros, which stands for
// no atom and no bond.
ghost use Rattle.std.specs.Prelude.{◌<◌, ◌≤◌, length, OnSome, IfSome};

use oracle_form::reader::Reader;
use oracle_form::{bond, kind, number};
use packing::{store, store_bond};
use table::limits::{ATOMS, BONDS};
use table::{ATOM_WORDS, BOND_WORDS, DEGREE, poke};

const UNKNOWN: u8 = b'?';

// How many atoms and bond entries a graph has.
#[derive(Clone, Copy)]
pub struct Counts {
    pub atoms: usize,
    pub entries: usize,
}

// An atom's kind, at a word of the table.
fn parse_kind(r: &mut Reader<'_>, atoms: &mut [u32], word: usize) -> Option<()>
    ensures { OnSome result (length r.new.rest.now < length r.old.rest.now) }
{
    if r.pass(UNKNOWN).is_none() {
        let k = kind::parse(r)?;
        store(atoms, word, k);
    }
    Some(())
}

// A bond entry, at a word of the table.
fn parse_bond(r: &mut Reader<'_>, bonds: &mut [u32], word: usize) -> Option<()>
    ensures { OnSome result (length r.new.rest.now < length r.old.rest.now) }
{
    if r.pass(UNKNOWN).is_none() {
        let k = bond::parse(r)?;
        let target = number::parse_word(r)?;
        store_bond(bonds, word, k, target);
    }
    Some(())
}

// The bond entries of an atom, each after a blank, put after those that the table holds, and how many there are then.
fn parse_bonds(r: &mut Reader<'_>, bonds: &mut [u32], held: usize) -> Option<usize>
    ensures shorter { OnSome result (length r.new.rest.now ≤ length r.old.rest.now) }
    ensures more { IfSome result (λ entries. held ≤ entries) }
{
    let mut entries = held;
    // Until the reader has no more: there is no index.
    while r.pass(b' ').is_some() {
        if BONDS < entries {
            return None;
        }
        parse_bond(r, bonds, entries * BOND_WORDS)?;
        entries += 1;
    }
    Some(entries)
}

// An atom with its bonds, put after those that the tables hold, and how many there are then.
fn parse_atom(
    r: &mut Reader<'_>,
    atoms: &mut [u32],
    bonds: &mut [u32],
    held: Counts,
) -> Option<Counts>
    ensures { OnSome result (length r.new.rest.now < length r.old.rest.now) }
{
    if ATOMS < held.atoms {
        return None;
    }
    let word = held.atoms * ATOM_WORDS;
    parse_kind(r, atoms, word)?;
    let entries = parse_bonds(r, bonds, held.entries)?;
    let degree = u32::try_from(entries - held.entries).ok()?;
    poke(atoms, word + DEGREE, degree);
    Some(Counts {
        atoms: held.atoms + 1,
        entries,
    })
}

// The graph that is all that is left, in tables of zeros.
pub fn parse(r: &mut Reader<'_>, atoms: &mut [u32], bonds: &mut [u32]) -> Option<Counts> {
    let mut counts = Counts {
        atoms: 0,
        entries: 0,
    };
    if r.is_at_end() {
        return Some(counts);
    }
    // The same: a record more as long as a mark follows.
    loop {
        counts = parse_atom(r, atoms, bonds, counts)?;
        if r.is_at_end() {
            return Some(counts);
        }
        r.pass(b';')?;
    }
}
