// The walk order of a graph: which atom of the line as written is which atom of the line as typed.
ghost use Rattle.std.specs.Prelude.{◌≡◌, ◌-◌, ◌≤◌, length};
ghost use Rattle.table.specs.Limits.{atom_limit, bond_limit};
ghost use Rattle.table.specs.Zeros.{zeros};
ghost use Rattle.write.specs.Order.{lowered, order_concluded, graph_ordered, order_room};
ghost use Rattle.write.specs.Plain.{order_plain};
ghost use Rattle.write.specs.Numbers.{order_in_numbers};
ghost use Rattle.write.specs.Order as made;

use crate::admit;
use crate::answer::WriteError;
use join_pool::PAIRS;
use table::clear;
use table::limits::{ATOMS, atom_room, lesser};
use table::starts::lay_starts;
use walk::lent::walk;
use walk::tables::Tables;
use walk::walker::Walker;
use walk_entry::graph::Graph;
use writer::{Line, Writer};

// Zeros in all three tables.
fn clear_order(walked: &mut [u32], number: &mut [u32], back: &mut [u32])
    ensures { (walked.new ≡ zeros (length walked.old))
        × (number.new ≡ zeros (length number.old))
        × (back.new ≡ zeros (length back.old)) }
{
    clear(walked);
    clear(number);
    clear(back);
}

// Numbers from 0 for marks that are one more.
#[tactic(auto, using(crate::proofs::Tables::lower_turn, crate::proofs::Tables::lower_end))]
fn lower(number: &mut [u32])
    ensures { number.new ≡ lowered number.old }
{
    for mark in number.iter_mut() {
        *mark = mark.saturating_sub(1);
    }
}

// What the end of a walk comes to, with the tables that it filled.
#[tactic(auto, unfolding(crate::specs::Order::order_concluded))]
fn conclude(
    walked: &mut [u32],
    number: &mut [u32],
    back: &mut [u32],
    n: usize,
    walker: Walker,
) -> Result<usize, WriteError>
    ensures { made.order result walked.new number.new back.new
        ≡ order_concluded n walker walked.old number.old back.old }
{
    if let Some(why) = walker.refusal {
        clear_order(walked, number, back);
        return Err(WriteError::Stopped(why));
    }
    lower(number);
    Ok(n)
}

fn order_graph(
    atoms: &[u32],
    n: usize,
    bonds: &[u32],
    m: usize,
    walked: &mut [u32],
    number: &mut [u32],
    back: &mut [u32],
) -> Result<usize, WriteError>
    requires { (n ≤ atom_limit)
        × (m ≤ bond_limit)
        × (walked.old ≡ zeros (length walked.old))
        × (number.old ≡ zeros (length number.old))
        × (back.old ≡ zeros (length back.old)) }
    ensures { made.order result walked.new number.new back.new
        ≡ graph_ordered (length walked.old) (length number.old) (length back.old)
        atoms.now n bonds.now m }
{
    let mut first = [0u32; ATOMS];
    let mut taken = [0u32; ATOMS];
    let mut pairs = [0u32; PAIRS];
    let mut starts = [0u32; ATOMS];
    let mut none = [0u8; 1];
    lay_starts(&mut first, atoms, n);
    let g = Graph {
        size: n,
        atoms,
        bonds,
        first: &first,
    };
    let mut tables = Tables {
        met: number,
        walked,
        back,
        taken: &mut taken,
        pairs: &mut pairs,
    };
    let mut line = Line {
        at: Writer { pieces: 0, len: 0 },
        out: &mut none,
        starts: &mut starts,
    };
    let walker = walk(g, m, &mut tables, &mut line);
    conclude(walked, number, back, n, walker)
}

// How many atoms there is room for.
fn order_room(atoms: &[u32], walked: &[u32], number: &[u32], back: &[u32]) -> usize
    ensures { (result
        ≡ order_room (length walked.now) (length number.now) (length back.now)
        atoms.now)
        × (result ≤ atom_limit) }
{
    let a = lesser(atom_room(atoms), walked.len());
    let b = lesser(a, number.len());
    lesser(b, back.len())
}

// The walk order of the graph of n atoms and m bond entries. walked: for each number in walk order the atom. number: for each
// atom its number in walk order. back: for each atom the place, from 1, of its entry back to the atom that it was reached
// from, 0 for a root. Each has zeros after its n numbers; after a refusal all are zero.
pub fn order(
    atoms: &[u32],
    n: usize,
    bonds: &[u32],
    m: usize,
    walked: &mut [u32],
    number: &mut [u32],
    back: &mut [u32],
) -> Result<usize, WriteError>
    ensures { order_in_numbers (made.order result walked.new number.new back.new)
        ≡ order_in_numbers
        (order_plain (length walked.old) (length number.old) (length back.old)
        atoms.now n bonds.now m) }
{
    let room = order_room(atoms, walked, number, back);
    clear_order(walked, number, back);
    admit(room, atoms, n, bonds, m)?;
    order_graph(atoms, n, bonds, m, walked, number, back)
}
