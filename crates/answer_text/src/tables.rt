// A graph on one line, from its tables: atoms separated by `;`, each its kind and then its bonds, separated by blanks, a
// bond being its kind and the number of its target: `C e1;C e0 =2 e3;O =1;N e1`. The empty graph is the empty text.
//
// Numbers that stand for no atom or no bond are shown as `?`. No graph that was read has any.
ghost use Rattle.std.specs.Prelude.{◌≡◌};

use oracle_form::output::Output;
use oracle_form::{bond, kind};
use packing::{load, load_bond};
use table::{ATOM_WORDS, BOND_WORDS, DEGREE, look};

const UNKNOWN: u8 = b'?';

// A graph in lent tables: so many of their first atoms, with so many bond entries.
#[derive(Clone, Copy)]
pub struct Graph<'a> {
    pub atoms: &'a [u32],
    pub atom_count: usize,
    pub bonds: &'a [u32],
    pub bond_count: usize,
}

// The kind in an atom's record.
fn put_kind(out: &mut Output, record: &[u32])
    ensures same_room { out.new.room.ghost_name ≡ out.old.room.ghost_name }
{
    match load(record, 0) {
        Some(k) => kind::put(out, k),
        None => out.put(UNKNOWN),
    }
}

// The bond in an entry's record, after a blank.
fn put_bond(out: &mut Output, record: &[u32])
    ensures same_room { out.new.room.ghost_name ≡ out.old.room.ghost_name }
{
    out.put(b' ');
    match load_bond(record, 0) {
        Some((k, target)) => {
            bond::put(out, k);
            out.number(target as usize);
        }
        None => out.put(UNKNOWN),
    }
}

// The table's first atoms, as many as are counted or as it has, each with its bonds: an atom's entries come after those of the
// atoms before it.
pub fn put_graph(out: &mut Output, graph: Graph)
    ensures same_room { out.new.room.ghost_name ≡ out.old.room.ghost_name }
{
    let mut entries = graph.bonds;
    let atoms = graph.atoms.chunks_exact(ATOM_WORDS);
    for (atom, record) in atoms.take(graph.atom_count).enumerate() {
        let words = look(record, DEGREE) as usize * BOND_WORDS;
        let (own, rest) = entries.split_at(words.min(entries.len()));
        if atom > 0 {
            out.put(b';');
        }
        put_kind(out, record);
        put_bonds(out, own);
        entries = rest;
    }
}

fn put_bonds(out: &mut Output, entries: &[u32])
    ensures same_room { out.new.room.ghost_name ≡ out.old.room.ghost_name }
{
    for record in entries.chunks_exact(BOND_WORDS) {
        put_bond(out, record);
    }
}
