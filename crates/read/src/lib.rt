// The read call: a line's text into an atom table and a bond table.
#![tactic(auto)]

ghost use Rattle.std.specs.Prelude.{◌≡◌, ◌≤◌, ◌<◌, true, length, replicate, Err};
ghost use Rattle.table.specs.Limits.{text_limit};
ghost use Rattle.read.specs.Read.{said, read_refusal, built_answer};
ghost use Rattle.read.specs.Steps.{ended_st, within, Cleared, Enough, Few};
ghost use Rattle.builder_meaning.specs.Sketch.{sketch_of};
ghost use Rattle.read.specs.Line.{whole_or_refused, read_text};
ghost use Rattle.read.specs.Numbers.{read_in_numbers};

use builder::build::{BuildError, build};
use builder::builder::{Builder, ENTRY_WORDS};
use desk_numbers::{ATOM_ROOM, BOND_ROOM, CHARACTER, END_OF_LINE, INVERSION, NESTING};
use read_atom::scanner::is_done;
use read_line::lead::Lead;
use read_line::line::{Reached, read_line};
use table::limits::{
    ATOMS, BONDS, BRANCHES, FEW_ATOMS, FEW_BONDS, RING_NUMBER_COUNT, TEXT, atom_room, bond_room,
};
use table::{ATOM_WORDS, BOND_WORDS, clear};

// The words of as many entries as a line may have, and as few.
const ENTRIES: usize = BONDS * ENTRY_WORDS;

const FEW_ENTRIES: usize = FEW_BONDS * ENTRY_WORDS;

// What a line's graph has.
#[derive(Clone, Copy, Debug, PartialEq, Eq)]
pub struct GraphSize {
    pub atoms: usize,
    // Bond entries.
    pub entries: usize,
}

// Why the desk reads no graph. Its numbers, in order: 1, 2, 3, 4, 10, 12, 13, 14, 15, 18.
#[derive(Clone, Copy, Debug, PartialEq, Eq)]
pub enum ReadError {
    EndOfLine,
    Character(usize),
    // Closing atom, opening atom.
    Join(u32, u32),
    // The number of the join.
    Rnum(u32),
    // The atom's number.
    Inversion(usize),
    TextTooLong(usize),
    AtomRoom(usize),
    BondRoom(usize),
    Nesting(usize),
    // Never said of a line.
    NoAtom,
}

impl From<BuildError> for ReadError {
    ghost use Rattle.read.specs.Read.{build_refusal};

    ghost from_gives = { λ error e. e ≡ build_refusal error };

    fn from(error: BuildError) -> ReadError {
        match error {
            BuildError::Join(closing, opening) => ReadError::Join(closing, opening),
            BuildError::Rnum(number) => ReadError::Rnum(number),
        }
    }
}

// After a whole line no byte is left.
fn end_line(text: &[u8], reached: Reached) -> Builder
    ensures { result ≡ ended_st text.now reached }
{
    let builder = reached.builder;
    if builder.refusal != 0 {
        return builder;
    }
    let at = reached.at;
    if is_done(text, at) {
        return builder;
    }
    builder.refused(CHARACTER, at)
}

// What a builder's refusal is called.
#[tactic(auto, unfolding(crate::specs::Read::read_refusal))]
fn refusal(builder: Builder) -> ReadError
    ensures { Err result ≡ read_refusal builder.refusal builder.carried }
{
    match builder.refusal {
        END_OF_LINE => ReadError::EndOfLine,
        CHARACTER => ReadError::Character(builder.carried),
        INVERSION => ReadError::Inversion(builder.carried),
        ATOM_ROOM => ReadError::AtomRoom(builder.carried),
        BOND_ROOM => ReadError::BondRoom(builder.carried),
        NESTING => ReadError::Nesting(builder.carried),
        _ => ReadError::NoAtom,
    }
}

// What a build of so many atoms and entries is called.
#[tactic(auto, unfolding(crate::specs::Read::built_answer))]
pub fn built(r: Result<(), BuildError>, builder: Builder) -> Result<GraphSize, ReadError>
    ensures { result ≡ built_answer r builder.atoms builder.entries }
{
    r?;
    Ok(GraphSize {
        atoms: builder.atoms,
        entries: builder.entries,
    })
}

// A line within the limit, into tables of zeros, with work room lent.
fn read_within(
    text: &[u8],
    atoms: &mut [u32],
    bonds: &mut [u32],
    entries: &mut [u32],
    path: &mut [u32],
    rings: &mut [u32],
) -> Result<GraphSize, ReadError>
    requires { (length text.now ≤ text_limit) × (bonds.old ≡ replicate (length bonds.old) 0) }
    ensures { said result atoms.new bonds.new
        ≡ within text.now atoms.old (length bonds.old) entries.old path.old
        rings.old }
{
    let start = Builder::start(atom_room(atoms), bond_room(bonds));
    let reached = read_line(
        text,
        0,
        Lead::Dot,
        BRANCHES,
        atoms,
        entries,
        path,
        rings,
        start,
    );
    let builder = end_line(text, reached);
    if builder.refusal != 0 {
        clear(atoms);
        return Err(refusal(builder));
    }
    let r = build(atoms, bonds, entries, path, builder);
    built(r, builder)
}

// With work room for so many atoms and so many words of entries: a line's graph has no more of them than its tables have room for.
fn read_sized<const PLACES: usize, const WORDS: usize>(
    text: &[u8],
    atoms: &mut [u32],
    bonds: &mut [u32],
) -> Result<GraphSize, ReadError>
    requires { Cleared text.now atoms.old bonds.old × Enough PLACES WORDS (length atoms.old) (length bonds.old) }
    ensures { said result atoms.new bonds.new
        ≡ whole_or_refused (sketch_of text.now (length atoms.old) (length bonds.old))
        (length atoms.old) (length bonds.old) }
{
    let mut entries = [0u32; WORDS];
    let mut path = [0u32; PLACES];
    let mut rings = [0u32; RING_NUMBER_COUNT];
    read_within(text, atoms, bonds, &mut entries, &mut path, &mut rings)
}

// A yes is only said of tables with room for few atoms and entries. A no may be said of any: it only costs time.
fn are_few(atoms: &[u32], bonds: &[u32]) -> bool
    ensures { result ≡ true → Few (length atoms.now) (length bonds.now) }
{
    atoms.len() / ATOM_WORDS <= FEW_ATOMS && bonds.len() / BOND_WORDS <= FEW_BONDS
}

// Reads a line. The tables hold its graph in their final form, zeros after it; after a refusal they hold zeros.
pub fn read(text: &[u8], atoms: &mut [u32], bonds: &mut [u32]) -> Result<GraphSize, ReadError>
    ensures { read_in_numbers (said result atoms.new bonds.new)
        ≡ read_in_numbers (read_text text.now (length atoms.old) (length bonds.old)) }
{
    clear(atoms);
    clear(bonds);
    if TEXT < text.len() {
        return Err(ReadError::TextTooLong(text.len()));
    }
    if are_few(atoms, bonds) {
        read_sized::<FEW_ATOMS, FEW_ENTRIES>(text, atoms, bonds)
    } else {
        read_sized::<ATOMS, ENTRIES>(text, atoms, bonds)
    }
}
