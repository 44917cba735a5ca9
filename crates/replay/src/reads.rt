// Requests about a line: `read` and `readbytes`, its graph, and `readin A B`, the same into tables of A and B words.
use crate::blank::is_blank_from;
use crate::refusals::put_said;
use crate::sizes::{ATOM_TABLE, BOND_TABLE, OTHER};
use answer_text::tables::{Graph, put_graph};
use desk_answer::of_read;
use desk_numbers::DONE;
use oracle_form::output::Output;
use oracle_form::reader::Reader;
use oracle_form::{number, text};
use read::{GraphSize, ReadError, read};
use table::limits::{ATOMS, BONDS};
use table::{ATOM_WORDS, BOND_WORDS};

// An answer by its number and what it carries; a graph follows the counts of 0.
pub fn put_answer(
    out: &mut Output<'_>,
    a: Result<GraphSize, ReadError>,
    atoms: &[u32],
    bonds: &[u32],
) {
    let said = of_read(a);
    put_said(out, said);
    if said.no == DONE {
        out.put(b' ');
        let graph = Graph {
            atoms,
            atom_count: said.first,
            bonds,
            bond_count: said.second,
        };
        put_graph(out, graph);
    }
}

// What a reading leaves in the tables, of words: those of a graph, or none.
fn left_by(a: Result<GraphSize, ReadError>) -> (usize, usize) {
    match a {
        Ok(size) => (
            size.atoms.saturating_mul(ATOM_WORDS),
            size.entries.saturating_mul(BOND_WORDS),
        ),
        Err(_) => (0, 0),
    }
}

// Reads a text into the lent tables and lays the answer, or that what follows the records is not blank.
fn answer_in(line: &[u8], atoms: &mut [u32], bonds: &mut [u32], out: &mut Output<'_>) {
    let a = read(line, atoms, bonds);
    let (atom_words, bond_words) = left_by(a);
    if !is_blank_from(atoms, atom_words) {
        out.put_all(b"atoms not blank");
    } else if !is_blank_from(bonds, bond_words) {
        out.put_all(b"bonds not blank");
    } else {
        put_answer(out, a, atoms, bonds);
    }
}

// A text read into tables of so many words that held something else before.
fn answer_from(
    form: &[u8],
    atom_words: usize,
    bond_words: usize,
    out: &mut Output<'_>,
    room: &mut [u8],
) -> Option<()> {
    let n = text::parse(form, room)?;
    let mut atoms = [OTHER; ATOM_TABLE];
    let mut bonds = [OTHER; BOND_TABLE];
    let atoms = atoms.get_mut(..atom_words)?;
    let bonds = bonds.get_mut(..bond_words)?;
    answer_in(&room[..n], atoms, bonds, out);
    Some(())
}

pub fn answer_within(arguments: &[u8], out: &mut Output<'_>, room: &mut [u8]) -> Option<()> {
    let mut r = Reader::new(arguments);
    let atom_words = number::parse(&mut r)?;
    r.pass(b' ')?;
    let bond_words = number::parse(&mut r)?;
    r.pass(b' ')?;
    answer_from(r.rest, atom_words, bond_words, out, room)
}

pub fn answer(arguments: &[u8], out: &mut Output<'_>, room: &mut [u8]) -> Option<()> {
    answer_from(arguments, ATOMS * ATOM_WORDS, BONDS * BOND_WORDS, out, room)
}
