// The answer to a text: the desk's number, a tab, and what the command has to say; or what `check` says in words; or a line of
// a tray.
use crate::command::Command;
use answer_text::desk::Refusal;
use answer_text::order::{Order, put_order};
use answer_text::tables::{Graph, put_graph};
use desk_answer::{of_read, of_written, with_one};
use desk_numbers::{DONE, Said, TEXT_TOO_LONG};
use label_text::counted::Counted;
use label_text::looks::{Looks, looks_like};
use label_text::lost::{Lost, find_lost};
use label_text::why::{Places, Why, places_of, put_comment};
use oracle_form::output::Output;
use read::read;
use std::fmt::Write;
use table::limits::{ATOMS, BONDS, TEXT};
use table::{ATOM_WORDS, BOND_WORDS};
use write::order::order;
use write::write;

// No answer has more bytes than that of the largest graph, 60,428: `0`, a tab, the two counts and a blank after each; for
// an atom at most 31 for its kind, and one for the `;`; for a bond entry a blank, its kind and at most ten digits. A walk
// order has at most 32 bytes an atom, and a written line less than either.
const COUNT_BYTES: usize = 12;

const ATOM_BYTES: usize = 32;

const ENTRY_BYTES: usize = 12;

const LONGEST: usize = COUNT_BYTES + ATOMS * ATOM_BYTES + BONDS * ENTRY_BYTES;
// What more there may be: the line's number, words, a `#` and the names.
const WORDS: usize = 512;
// A byte of a text is at most an atom, and at most a bond, which has two ends, each an entry.
const ENDS: usize = 2;

const BYTE_BYTES: usize = ATOM_BYTES + ENDS * ENTRY_BYTES;

// A written line has at most so many bytes an atom, and a bond entry.
const ATOM_LINE: usize = 24;

const ENTRY_LINE: usize = 4;

// What comes before an answer that is no refusal: DONE, and a tab.
const DONE_MARK: &[u8] = b"0\t";

// A text that has ended: how many bytes of it came, and those of them that there was room for.
#[derive(Clone, Copy)]
pub struct Text<'a> {
    pub held: &'a [u8],
    pub size: usize,
}

// Room for the tables of a text.
#[derive(Drop)]
pub struct Tables<'a> {
    pub atoms: &'a mut [u32],
    pub bonds: &'a mut [u32],
}

// What was told of a text.
#[derive(Clone, Copy)]
pub enum Told {
    // What was asked, and which atoms are not kept where it was written.
    Done(Option<Lost>),
    // Why not. What the text looks like if it is none, and the places in it to be marked.
    Refused {
        looks: Option<Looks>,
        places: Option<Places>,
    },
    // The text, as it is.
    Passed,
}

// The most bytes that the answer to a text of so many bytes has.
pub fn room_for(size: usize) -> usize {
    if TEXT < size {
        return WORDS + LONGEST;
    }
    WORDS + LONGEST.min(BYTE_BYTES * size)
}

// What was said, where it is no refusal.
fn done(said: Said) -> Result<Said, Said> {
    if said.no == DONE { Ok(said) } else { Err(said) }
}

// The graph of a text, or why it has none. Of one that was too long for its room, only the size is known. No more of the tables
// is lent than a text of so many bytes can need, an atom and two bond entries for each.
fn read_text<'a>(text: Text, tables: &'a mut Tables) -> Result<Graph<'a>, Said> {
    let size = text.size;
    if text.held.len() < size || TEXT < size {
        return Err(with_one(TEXT_TOO_LONG, size));
    }
    let a = tables.atoms.len().min(size * ATOM_WORDS);
    let b = tables.bonds.len().min(size * ENDS * BOND_WORDS);
    let said = done(of_read(read(
        &text.held[..size],
        &mut tables.atoms[..a],
        &mut tables.bonds[..b],
    )))?;
    Ok(Graph {
        atoms: tables.atoms,
        atom_count: said.first,
        bonds: tables.bonds,
        bond_count: said.second,
    })
}

// The longest line that a graph is written as.
fn line_room(graph: Graph) -> usize {
    ATOM_LINE * graph.atom_count.min(ATOMS) + ENTRY_LINE * graph.bond_count.min(BONDS)
}

// A graph written behind what was laid and so many bytes that are still to come, and the bytes that it took.
fn write_behind(out: &mut Output, bytes: usize, graph: Graph) -> Result<usize, Said> {
    let room = &mut out.room[out.end..];
    let begin = bytes.min(room.len());
    let end = begin + line_room(graph).min(room.len() - begin);
    let written = write(
        graph.atoms,
        graph.atom_count,
        graph.bonds,
        graph.bond_count,
        &mut room[begin..end],
    );
    Ok(done(of_written(written))?.first)
}

// The line that a graph is written as, behind some bytes.
fn put_line(out: &mut Output, begin: &[u8], graph: Graph) -> Result<(), Said> {
    let bytes = write_behind(out, begin.len(), graph)?;
    out.put_all(begin);
    out.end += bytes.min(out.room.len() - out.end);
    Ok(())
}

// The order in which a graph is walked.
fn put_walked(out: &mut Output, graph: Graph) -> Result<(), Said> {
    let mut walked = [0u32; ATOMS];
    let mut number = [0u32; ATOMS];
    let mut back = [0u32; ATOMS];
    let told = order(
        graph.atoms,
        graph.atom_count,
        graph.bonds,
        graph.bond_count,
        &mut walked,
        &mut number,
        &mut back,
    );
    done(of_written(told))?;
    out.put_all(DONE_MARK);
    let order = Order {
        walked: &walked,
        number: &number,
        back: &back,
    };
    put_order(out, graph.atoms, graph.atom_count, order);
    Ok(())
}

// A graph with the counts of its atoms and of its bond entries.
fn put_counted(out: &mut Output, graph: Graph) {
    out.put_all(DONE_MARK);
    let _ = write!(out, "{} {} ", graph.atom_count, graph.bond_count);
    put_graph(out, graph);
}

// Whether a graph can be written, and what it counts. The line itself is written over by the words.
fn put_checked(out: &mut Output, graph: Graph) -> Result<(), Said> {
    let bytes = write_behind(out, 0, graph)?;
    let atoms = Counted(graph.atom_count, "atom");
    let bonds = Counted(graph.bond_count / ENDS, "bond");
    let bytes = Counted(bytes, "byte");
    let _ = write!(out, "done: {atoms}, {bonds}, written in {bytes}");
    Ok(())
}

// What a command has to say of a text that can be read and written, and which atoms are not kept; or why it cannot.
fn try_tell(
    out: &mut Output,
    command: Command,
    text: Text,
    tables: &mut Tables,
) -> Result<Option<Lost>, Said> {
    let graph = read_text(text, tables)?;
    match command {
        Command::Order => put_walked(out, graph)?,
        Command::Graph => {
            put_counted(out, graph);
            return Ok(None);
        }
        Command::Check => put_checked(out, graph)?,
        Command::Rewrite => put_line(out, DONE_MARK, graph)?,
        Command::Smi => put_line(out, b"", graph)?,
    }
    Ok(find_lost(graph.atoms, graph.atom_count))
}

// What a command has to say of a text that is refused. In a tray a blank line or a comment is passed on.
fn tell_refusal(
    out: &mut Output,
    command: Command,
    said: Said,
    text: &[u8],
    has_name: bool,
) -> Told {
    let looks = looks_like(text, said.no, has_name);
    let mut places = None;
    match (command, looks) {
        (Command::Smi, Some(Looks::Blank | Looks::Comment)) => {
            out.put_all(text);
            return Told::Passed;
        }
        (Command::Smi, _) => put_comment(out, said, text),
        (Command::Check, _) => {
            places = places_of(said, text, looks);
            let why = Why {
                said,
                looks,
                places,
            };
            let _ = write!(out, "{why}");
        }
        _ => {
            let _ = write!(out, "{}", Refusal(said));
        }
    }
    Told::Refused { looks, places }
}

// Lays a command's answer to a text, which a name follows or not.
pub fn tell(
    out: &mut Output,
    command: Command,
    text: Text,
    has_name: bool,
    tables: &mut Tables,
) -> Told {
    match try_tell(out, command, text, tables) {
        Ok(lost) => Told::Done(lost),
        Err(said) => tell_refusal(out, command, said, text.held, has_name),
    }
}
