// All lines of the inputs, read block by block.
use crate::answer::Tables;
use crate::command::{Asked, Status, print_usage};
use crate::line::{Desk, ORDER_MARK, Room, piece_end};
use crate::output::Gathered;
use program_io::arguments::{WORD, word};
use program_io::failure::{fail, say};
use program_io::{arguments, file};
use std::env::Env;
use std::fs::Files;
use std::io;
use std::io::{Input, Read, Stderr, Stdout};
use table::limits::{ATOMS, BONDS, TEXT};
use table::{ATOM_WORDS, BOND_WORDS};

// Room for the longest text, and for a byte order mark before it.
const TEXT_ROOM: usize = TEXT + ORDER_MARK.len();

// The words of tables for the largest graph.
const ATOM_TABLE: usize = ATOMS * ATOM_WORDS;

const BOND_TABLE: usize = BONDS * BOND_WORDS;

// The bytes that are read at once, and that are gathered before they are written.
const BLOCK: usize = 65536;

// The name for the standard input.
const STANDARD_INPUT: &[u8] = b"-";

// The bytes of a block. What they came to is written at its end, so that no line waits for the next block. Whether more is to be
// read: not where what was answered cannot be written.
fn take_block(desk: &mut Desk, block: &[u8]) -> bool {
    let mut rest = block;
    // Where a piece ends depends on what those before made of the line, so no iterator over the block gives the pieces.
    while !rest.is_empty() {
        let (piece, after) = rest.split_at(piece_end(rest, desk.in_name()));
        desk.take_piece(piece);
        rest = after;
    }
    desk.gathered.flush();
    !desk.gathered.has_failed
}

// Says that an input cannot be read, or not to its end. A line that was cut short is not answered, or ends.
fn give_up(desk: &mut Desk, name: &[u8], error: io::Error) {
    let errors = desk.gathered.errors;
    say(&errors, b"label: ");
    fail(&errors, name, error);
    desk.cut();
    desk.counts.has_unread = true;
}

// One more block of an input, and whether more is to be read: not at its end, and not where it cannot be read.
fn take_next<R: Read>(desk: &mut Desk, input: &mut R, name: &[u8], block: &mut [u8]) -> bool {
    match input.read(block) {
        Ok(0) => {
            desk.finish();
            false
        }
        Ok(n) => take_block(desk, &block[..n]),
        Err(error) => {
            give_up(desk, name, error);
            false
        }
    }
}

// Answers the lines of an input. Nothing says that it ends, so the loop counts its turns, to a number that no run reaches.
fn take_blocks<R: Read>(desk: &mut Desk, input: &mut R, name: &[u8], block: &mut [u8]) {
    for _ in 0..u64::MAX {
        if !take_next(desk, input, name, block) {
            return;
        }
    }
}

// Answers the lines of the standard input.
fn take_standard(desk: &mut Desk, rt: &impl Input, block: &mut [u8]) {
    let mut input = rt.reader();
    take_blocks(desk, &mut input, b"standard input", block);
}

// Answers the lines of a file, or says why it cannot.
fn take_file(desk: &mut Desk, rt: &impl Files, path: &[u8], block: &mut [u8]) {
    match file::open(rt, path) {
        Err(error) => give_up(desk, path, error),
        Ok(mut input) => take_blocks(desk, &mut input, path, block),
    }
}

// Answers the lines of the input that an argument names.
fn take_argument<R: Env + Files + Input>(desk: &mut Desk, rt: &R, i: usize, block: &mut [u8]) {
    let mut room = [0u8; WORD];
    let n = word(rt, i, &mut room);
    let name = &room[..n];
    desk.open(name);
    if name == STANDARD_INPUT {
        take_standard(desk, rt, block);
    } else {
        take_file(desk, rt, name, block);
    }
}

// Answers the lines of all files that the arguments from a first one on name, or of the standard input if there are none, as
// long as what is answered can be written.
fn take_all<R: Env + Files + Input>(desk: &mut Desk, rt: &R, first: usize, block: &mut [u8]) {
    let count = arguments::count(rt);
    if count <= first {
        take_standard(desk, rt, block);
        return;
    }
    for i in first..count {
        if !desk.gathered.has_failed {
            take_argument(desk, rt, i, block);
        }
    }
}

// Whether the first word is a slip: it is no command, nothing tells that it is a file, and it is none.
fn is_slip<R: Env + Files>(rt: &R, asked: Asked) -> bool {
    if !asked.is_guess || arguments::count(rt) <= asked.first {
        return false;
    }
    let mut room = [0u8; WORD];
    let n = word(rt, asked.first, &mut room);
    let name = &room[..n];
    name != STANDARD_INPUT && file::is_missing(rt, name)
}

// Says that it is one.
fn say_slip(rt: &impl Env, errors: Stderr, i: usize) {
    let mut room = [0u8; WORD];
    let n = word(rt, i, &mut room);
    say(&errors, b"label: no command and no file: ");
    say(&errors, &room[..n]);
    say(&errors, b"\n");
    print_usage(errors);
}

// What the lines came to, once all that was answered is written.
fn end(desk: &mut Desk) -> Status {
    desk.gathered.flush();
    if desk.gathered.has_failed {
        return Status::NotDone;
    }
    let counts = desk.counts;
    let _ = eprintln!(desk.gathered.errors; "label: {counts}");
    counts.status()
}

// Answers all lines, with room for the largest job, and with which status the program is to end. The output holds 65,536
// bytes, which is more than any answer has.
pub fn answer_all<R: Env + Files + Input>(
    rt: &R,
    answers: Stdout,
    errors: Stderr,
    asked: Asked,
) -> Status {
    if is_slip(rt, asked) {
        say_slip(rt, errors, asked.first);
        return Status::NotDone;
    }
    let mut block = [0u8; BLOCK];
    let mut out = [0u8; BLOCK];
    let mut text = [0u8; TEXT_ROOM];
    let mut atoms = [0u32; ATOM_TABLE];
    let mut bonds = [0u32; BOND_TABLE];
    let tables = Tables {
        atoms: &mut atoms,
        bonds: &mut bonds,
    };
    let room = Room {
        text: &mut text,
        tables,
    };
    let mut desk = Desk::new(asked, room, Gathered::new(&mut out, answers, errors));
    take_all(&mut desk, rt, asked.first, &mut block);
    end(&mut desk)
}
