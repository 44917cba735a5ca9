// The answers of the calls as the desk's numbers with the values that they carry: once, for the report of the exported calls
// and for what programs print.
#![tactic(auto)]

ghost use Rattle.std.specs.Prelude.{◌≡◌};
ghost use Rattle.read.specs.Numbers.{read_told};
ghost use Rattle.write.specs.Numbers.{walk_told, written_told};
ghost use Rattle.desk_writer.specs.Pieces.{said_told};
ghost use Rattle.desk_numbers.specs.Said.{said, saying};

use desk_numbers::{
    ATOM_ROOM, BAD_TABLE, BOND_ROOM, CHARACTER, DONE, DUPLICATE_BOND, END_OF_LINE, HALF_BOND,
    INCOMPATIBLE_BOND, INVERSION, JOIN, LOOP, NESTING, NO_ATOM, OUT_ROOM, OVERPOP, RING_NUMBERS,
    RNUM, Said, TEXT_TOO_LONG, UNKNOWN_TARGET,
};
use desk_writer::Refusal;
use read::{GraphSize, ReadError};
use walk_entry::WalkError;
use write::answer::WriteError;
use writer::Writer;

pub fn alone(no: u32) -> Said
    ensures { result ≡ said no 0 0 0 }
{
    Said {
        no,
        carries: 0,
        first: 0,
        second: 0,
    }
}

pub fn with_one(no: u32, first: usize) -> Said
    ensures { result ≡ said no 1 first 0 }
{
    Said {
        no,
        carries: 1,
        first,
        second: 0,
    }
}

pub fn with_two(no: u32, first: usize, second: usize) -> Said
    ensures { result ≡ said no 2 first second }
{
    Said {
        no,
        carries: 2,
        first,
        second,
    }
}

// Two atoms.
pub fn with_pair(no: u32, first: u32, second: u32) -> Said
    ensures { result ≡ said no 2 first second }
{
    with_two(no, first as usize, second as usize)
}

// Of the read call. 0 carries the atoms and the bond entries.
#[tactic(auto, unfolding(read::specs::Numbers::read_told))]
pub fn of_read(answer: Result<GraphSize, ReadError>) -> Said
    ensures { result ≡ saying (read_told answer) }
{
    match answer {
        Ok(size) => with_two(DONE, size.atoms, size.entries),
        Err(ReadError::EndOfLine) => alone(END_OF_LINE),
        Err(ReadError::Character(place)) => with_one(CHARACTER, place),
        Err(ReadError::Join(closing, opening)) => with_pair(JOIN, closing, opening),
        Err(ReadError::Rnum(join)) => with_one(RNUM, join as usize),
        Err(ReadError::Inversion(atom)) => with_one(INVERSION, atom),
        Err(ReadError::TextTooLong(size)) => with_one(TEXT_TOO_LONG, size),
        Err(ReadError::AtomRoom(place)) => with_one(ATOM_ROOM, place),
        Err(ReadError::BondRoom(place)) => with_one(BOND_ROOM, place),
        Err(ReadError::Nesting(place)) => with_one(NESTING, place),
        Err(ReadError::NoAtom) => alone(NO_ATOM),
    }
}

// What stops a walk.
#[tactic(auto, unfolding(write::specs::Numbers::walk_told))]
fn of_walk(why: WalkError) -> Said
    ensures { result ≡ saying (walk_told why) }
{
    match why {
        WalkError::UnknownTarget(source, target) => with_pair(UNKNOWN_TARGET, source, target),
        WalkError::Loop(source) => with_one(LOOP, source as usize),
        WalkError::HalfBond(source, target) => with_pair(HALF_BOND, source, target),
        WalkError::DuplicateBond(source, target) => with_pair(DUPLICATE_BOND, source, target),
        WalkError::IncompatibleBond(target, source) => with_pair(INCOMPATIBLE_BOND, target, source),
        WalkError::Inversion(atom) => with_one(INVERSION, atom as usize),
        WalkError::RingNumbers(source, target) => with_pair(RING_NUMBERS, source, target),
    }
}

// Of the write call and the walk order. 0 carries the bytes, or the atoms walked.
#[tactic(auto, unfolding(write::specs::Numbers::written_told))]
pub fn of_written(w: Result<usize, WriteError>) -> Said
    ensures { result ≡ saying (written_told w) }
{
    match w {
        Ok(n) => with_one(DONE, n),
        Err(WriteError::Stopped(why)) => of_walk(why),
        Err(WriteError::AtomRoom(n)) => with_one(ATOM_ROOM, n),
        Err(WriteError::BondRoom(m)) => with_one(BOND_ROOM, m),
        Err(WriteError::OutRoom(bytes)) => with_one(OUT_ROOM, bytes),
        Err(WriteError::BadTable(place)) => with_one(BAD_TABLE, place),
    }
}

// Of a writer's event. 0 carries the length of the line.
#[tactic(auto, unfolding(desk_writer::specs::Pieces::said_told))]
pub fn of_writer(said: Result<Writer, Refusal>) -> Said
    ensures { result ≡ saying (said_told said) }
{
    match said {
        Ok(w) => with_one(DONE, w.len),
        Err(Refusal::AtomRoom(n)) => with_one(ATOM_ROOM, n),
        Err(Refusal::OutRoom(n)) => with_one(OUT_ROOM, n),
        Err(Refusal::NoPiece) => alone(NO_ATOM),
        Err(Refusal::Overpop) => alone(OVERPOP),
        Err(Refusal::BadTable) => with_one(BAD_TABLE, 0),
    }
}
