// Requests about a writer: `writer EVENTS`, what its events make of nothing, one after the other; and
// `writerin ROOM PIECES EVENTS`, the same with room for so many bytes and pieces. The first refused event ends them.
use crate::refusals::{Refused, put_refused, put_said};
use crate::sizes::{HIGHEST_RING, LONGEST_LINE};
use desk_answer::{of_writer, with_one};
use desk_numbers::DONE;
use desk_writer::Refusal;
use oracle_form::event::{Event, Events};
use oracle_form::output::Output;
use oracle_form::reader::Reader;
use oracle_form::{number, text};
use table::limits::ATOMS;
use writer::{Line, Writer};

// One piece more than a writer may hold.
const PIECES: usize = ATOMS + 1;

// What a writer answers to an event, unless its ring number is none.
fn tell(line: &mut Line<'_>, event: Event) -> Option<Result<Writer, Refusal>> {
    match event {
        Event::Root(k) => Some(desk_writer::root(line, k)),
        Event::Extend(bond, k) => Some(desk_writer::extend(line, bond, k)),
        Event::Join(bond, number) => {
            let n = u32::try_from(number).ok()?;
            if HIGHEST_RING < n {
                return None;
            }
            Some(desk_writer::join(line, bond, n))
        }
        Event::Pop(n) => Some(desk_writer::pop(line, n)),
    }
}

// All events said, or the first one that the writer refused.
fn run(line: &mut Line<'_>, s: &[u8]) -> Option<Result<(), Refused>> {
    for (index, event) in Events::new(s).enumerate() {
        let said = tell(line, event?)?;
        if said.is_err() {
            return Some(Err(Refused {
                event: index,
                said: of_writer(said),
            }));
        }
    }
    Some(Ok(()))
}

// The line that a writer holds.
fn put_line(out: &mut Output<'_>, line: &Line<'_>) {
    let len = line.at.len;
    let Some(held) = line.out.get(..len) else {
        out.put_all(b"longer than the output");
        return;
    };
    put_said(out, with_one(DONE, len));
    out.put(b' ');
    text::put(out, held);
}

// The events with room for so many bytes and pieces.
fn answer_in(s: &[u8], bytes: usize, pieces: usize, out: &mut Output<'_>) -> Option<()> {
    let mut laid = [0u8; LONGEST_LINE];
    let mut starts = [0u32; PIECES];
    let mut line = Line {
        at: Writer { pieces: 0, len: 0 },
        out: laid.get_mut(..bytes)?,
        starts: starts.get_mut(..pieces)?,
    };
    match run(&mut line, s)? {
        Ok(()) => put_line(out, &line),
        Err(refused) => put_refused(out, refused),
    }
    Some(())
}

pub fn answer_within(arguments: &[u8], out: &mut Output<'_>) -> Option<()> {
    let mut r = Reader::new(arguments);
    let bytes = number::parse(&mut r)?;
    r.pass(b' ')?;
    let pieces = number::parse(&mut r)?;
    r.pass(b' ')?;
    answer_in(r.rest, bytes, pieces, out)
}

pub fn answer(arguments: &[u8], out: &mut Output<'_>) -> Option<()> {
    answer_in(arguments, LONGEST_LINE, PIECES, out)
}
