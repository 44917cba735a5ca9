// Requests about why a line is refused: `why TEXT`, answered by the place that the refusal has, or `-`, and its words.
use crate::sizes::{ATOM_TABLE, BOND_TABLE, LONGEST_LINE};
use answer_text::words::{Words, place};
use desk_answer::{of_read, of_written};
use desk_numbers::{DONE, Said};
use oracle_form::output::Output;
use oracle_form::text;
use read::read;
use std::fmt::Write;
use write::write;

// What is said of a text that is read and written.
fn said_of(line: &[u8]) -> Said {
    let mut atoms = [0u32; ATOM_TABLE];
    let mut bonds = [0u32; BOND_TABLE];
    let said = of_read(read(line, &mut atoms, &mut bonds));
    if said.no != DONE {
        return said;
    }
    let mut out = [0u8; LONGEST_LINE];
    of_written(write(&atoms, said.first, &bonds, said.second, &mut out))
}

// A line that is not refused has no answer.
pub fn answer(arguments: &[u8], out: &mut Output<'_>, room: &mut [u8]) -> Option<()> {
    let n = text::parse(arguments, room)?;
    let said = said_of(&room[..n]);
    if said.no == DONE {
        return None;
    }
    match place(said, n) {
        Some(place) => out.number(place),
        None => out.put(b'-'),
    }
    let _ = write!(out, " {}", Words(said));
    Some(())
}
