// The write call and the walk order: tables judged, then walked, and what the walk says written into one lent output.
//
// answer: what the calls answer.
// order: the walk order.
#![tactic(auto)]

ghost use Rattle.std.specs.Prelude.{◌≡◌, ◌≤◌, length, IfOk};
ghost use Rattle.table.specs.Limits.{atom_limit, bond_limit};
ghost use Rattle.write.specs.Write.{admitted, write_leaves, output_ended, graph_written};
ghost use Rattle.write.specs.Plain.{write_plain};
ghost use Rattle.write.specs.Numbers.{write_in_numbers};
ghost use Rattle.write.specs.Steps.{Writable, WorkCleared};
ghost use Rattle.writer.specs.Lent.{SameLine};

use answer::WriteError;
use join_pool::PAIRS;
use table::clear_bytes;
use table::limits::{ATOMS, FEW_ATOMS, atom_room, bond_room};
use table::starts::lay_starts;
use table_check::judge;
use walk::lent::walk;
use walk::tables::Tables;
use walk::walker::Walker;
use walk_entry::graph::Graph;
use writer::{Line, Writer};

pub mod answer;
pub mod order;

// The tests before a walk, with room for so many atoms: the counts handed in, then the records.
#[tactic(auto, unfolding(crate::specs::Write::bond_slots))]
pub(crate) fn admit(
    room: usize,
    atoms: &[u32],
    n: usize,
    bonds: &[u32],
    m: usize,
) -> Result<(), WriteError>
    requires { room ≤ atom_limit }
    ensures tests { result ≡ admitted room atoms.now n bonds.now m (λ why. Err why) (Ok tt) }
    ensures within { IfOk result (λ u. (n ≤ room) × (m ≤ bond_limit)) }
{
    if room < n {
        return Err(WriteError::AtomRoom(n));
    }
    if bond_room(bonds) < m {
        return Err(WriteError::BondRoom(m));
    }
    match judge(atoms, n, bonds, m) {
        Some(bad) => Err(WriteError::BadTable(bad)),
        None => Ok(()),
    }
}

// What the end of a walk comes to, with the output that it was told to.
#[tactic(auto, unfolding(crate::specs::Write::output_ended))]
fn conclude(line: &mut Line<'_>, walker: Walker) -> Result<usize, WriteError>
    ensures ended { write_leaves result line.new.out.now ≡ output_ended line.old.out.now walker line.old.at }
    ensures same { SameLine line.old line.new }
{
    let len = line.at.len;
    if let Some(why) = walker.refusal {
        clear_bytes(line.out);
        return Err(WriteError::Stopped(why));
    }
    if line.out.len() < len {
        clear_bytes(line.out);
        return Err(WriteError::OutRoom(len));
    }
    Ok(len)
}

// A graph written into an output of zeros, with work tables of zeros that have room for its atoms.
fn write_in(
    atoms: &[u32],
    n: usize,
    bonds: &[u32],
    m: usize,
    first: &mut [u32],
    tables: &mut Tables<'_>,
    line: &mut Line<'_>,
) -> Result<usize, WriteError>
    requires { Writable n m line.old.out.now × WorkCleared n first.old tables.old.met.now tables.old.walked.now tables.old.back.now tables.old.taken.now tables.old.pairs.now line.old.starts.now }
    ensures written { write_leaves result line.new.out.now ≡ graph_written (length line.old.out.now) atoms.now n bonds.now m }
    ensures same { SameLine line.old line.new }
{
    lay_starts(first, atoms, n);
    let g = Graph {
        size: n,
        atoms,
        bonds,
        first,
    };
    let walker = walk(g, m, tables, line);
    conclude(line, walker)
}

// The same with work tables of so many words.
fn write_sized<const WORDS: usize>(
    atoms: &[u32],
    n: usize,
    bonds: &[u32],
    m: usize,
    out: &mut [u8],
) -> Result<usize, WriteError>
    requires { Writable n m out.old × (n ≤ WORDS) × (WORDS ≤ atom_limit) }
    ensures { write_leaves result out.new ≡ graph_written (length out.old) atoms.now n bonds.now m }
{
    let mut first = [0u32; WORDS];
    let mut met = [0u32; WORDS];
    let mut walked = [0u32; WORDS];
    let mut back = [0u32; WORDS];
    let mut taken = [0u32; WORDS];
    let mut pairs = [0u32; PAIRS];
    let mut starts = [0u32; WORDS];
    let mut tables = Tables {
        met: &mut met,
        walked: &mut walked,
        back: &mut back,
        taken: &mut taken,
        pairs: &mut pairs,
    };
    let mut line = Line {
        at: Writer { pieces: 0, len: 0 },
        out,
        starts: &mut starts,
    };
    write_in(atoms, n, bonds, m, &mut first, &mut tables, &mut line)
}

// Writes the graph of n atoms and m bond entries: the bytes of its line. The bytes after it are zero; after a refusal all are.
pub fn write(
    atoms: &[u32],
    n: usize,
    bonds: &[u32],
    m: usize,
    out: &mut [u8],
) -> Result<usize, WriteError>
    ensures { write_in_numbers (write_leaves result out.new)
        ≡ write_in_numbers (write_plain (length out.old) atoms.now n bonds.now m) }
{
    clear_bytes(out);
    admit(atom_room(atoms), atoms, n, bonds, m)?;
    if n <= FEW_ATOMS {
        write_sized::<FEW_ATOMS>(atoms, n, bonds, m, out)
    } else {
        write_sized::<ATOMS>(atoms, n, bonds, m, out)
    }
}
