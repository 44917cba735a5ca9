// Requests about a written line: `write GRAPH`; `writein ROOM GRAPH`, the same into an output of ROOM bytes;
// `writewords N M ATOMS;BONDS`, the same of any words, with the counts that are handed in; and `rewrite TEXT`, a line read
// and written.
use crate::blank::is_blank_from;
use crate::refusals::put_said;
use crate::sizes::{ATOM_TABLE, BOND_TABLE, LONGEST_LINE};
use crate::{tables, words};
use answer_text::tables::Graph;
use desk_answer::{of_read, of_written};
use desk_numbers::{DONE, Said};
use oracle_form::output::Output;
use oracle_form::reader::Reader;
use oracle_form::{number, text};
use read::read;
use write::write;

// An output with more room than the longest line needs.
const LINE: usize = LONGEST_LINE + 8;
// What an output holds before a writing.
const OTHER: u8 = 7;

// How many bytes a writing leaves in its output.
fn left_by(s: Said) -> usize {
    if s.no == DONE { s.first } else { 0 }
}

// Writes a graph into the lent output and lays the answer, or that what follows the line is not blank.
fn answer_in(graph: Graph<'_>, line: &mut [u8], out: &mut Output<'_>) {
    let Graph {
        atoms,
        atom_count,
        bonds,
        bond_count,
    } = graph;
    let said = of_written(write(atoms, atom_count, bonds, bond_count, line));
    let end = left_by(said);
    let Some(written) = line.get(..end) else {
        out.put_all(b"longer than the output");
        return;
    };
    if !is_blank_from(line, end) {
        out.put_all(b"output not blank");
        return;
    }
    put_said(out, said);
    if said.no == DONE {
        out.put(b' ');
        text::put(out, written);
    }
}

// The same into an output of so many bytes that held something else before.
fn answer_within_room(graph: Graph<'_>, room: usize, out: &mut Output<'_>) -> Option<()> {
    let mut line = [OTHER; LINE];
    answer_in(graph, line.get_mut(..room)?, out);
    Some(())
}

// The graph that is all that is left.
fn answer_rest(r: &mut Reader<'_>, room: usize, out: &mut Output<'_>) -> Option<()> {
    let mut atoms = [0u32; ATOM_TABLE];
    let mut bonds = [0u32; BOND_TABLE];
    let counts = tables::parse(r, &mut atoms, &mut bonds)?;
    let graph = Graph {
        atoms: &atoms,
        atom_count: counts.atoms,
        bonds: &bonds,
        bond_count: counts.entries,
    };
    answer_within_room(graph, room, out)
}

pub fn answer_graph(arguments: &[u8], out: &mut Output<'_>) -> Option<()> {
    answer_rest(&mut Reader::new(arguments), LINE, out)
}

pub fn answer_within(arguments: &[u8], out: &mut Output<'_>) -> Option<()> {
    let mut r = Reader::new(arguments);
    let room = number::parse(&mut r)?;
    r.pass(b' ')?;
    answer_rest(&mut r, room, out)
}

pub fn answer_words(arguments: &[u8], out: &mut Output<'_>) -> Option<()> {
    let mut r = Reader::new(arguments);
    let atom_count = number::parse(&mut r)?;
    r.pass(b' ')?;
    let bond_count = number::parse(&mut r)?;
    r.pass(b' ')?;
    let mut atoms = [0u32; ATOM_TABLE];
    let mut bonds = [0u32; BOND_TABLE];
    let atom_words = words::parse(&mut r, &mut atoms)?;
    r.pass(b';')?;
    let bond_words = words::parse(&mut r, &mut bonds)?;
    if !r.is_at_end() {
        return None;
    }
    let graph = Graph {
        atoms: &atoms[..atom_words],
        atom_count,
        bonds: &bonds[..bond_words],
        bond_count,
    };
    answer_within_room(graph, LINE, out)
}

// A line read and written.
pub fn answer_text(arguments: &[u8], out: &mut Output<'_>, room: &mut [u8]) -> Option<()> {
    let n = text::parse(arguments, room)?;
    let mut atoms = [0u32; ATOM_TABLE];
    let mut bonds = [0u32; BOND_TABLE];
    let said = of_read(read(&room[..n], &mut atoms, &mut bonds));
    if said.no != DONE {
        put_said(out, said);
        return Some(());
    }
    let graph = Graph {
        atoms: &atoms,
        atom_count: said.first,
        bonds: &bonds,
        bond_count: said.second,
    };
    answer_within_room(graph, LINE, out)
}
