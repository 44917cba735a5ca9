// One turn of a walk: a root tried, an entry of the current atom taken, or the atom left. What it says goes to the
// writer at once.
ghost use Rattle.std.specs.Prelude.{◌≡◌, ◌<◌};
ghost use Rattle.writer.specs.Tables.{say_all, far};
ghost use Rattle.walk_entry.specs.Graph.{seen, entry_to};
ghost use Rattle.writer.specs.Steps.{LineNear, LineGrows};
ghost use Rattle.writer.specs.Lent.{spoken_in, SameLine};
ghost use Rattle.walk.specs.Walk.{met_at, pops_of, root_turn, left_in, ring_turn, tie_turn, enter_turn, bond_turn, atom_of, turn_of};
ghost use Rattle.walk.specs.Steps.{held_in, SameTables, Did, TurnNear, TurnOnward, TurnGrows};

use crate::tables::Tables;
use crate::walker::Walker;
use feature::bond_kind::{BondKind, sure_kind};
use table::{look, poke};
use walk_entry::WalkError;
use walk_entry::entry::{find_way, said_as};
use walk_entry::graph::Graph;
use walk_entry::tie::find_tie;
use writer::Line;

// The atoms left since the last event, if any, popped.
#[tactic(auto, unfolding(crate::specs::Walk::pops_of, writer::specs::Tables::say_all))]
fn say_pops(line: &mut Line<'_>, pend: usize)
    requires { LineNear line.old.at }
    ensures starts_after { spoken_in line.new ≡ say_all (spoken_in line.old) (pops_of pend) }
    ensures line_grows { LineGrows line.old.at line.new.at }
    ensures same { SameLine line.old line.new }
{
    if pend != 0 {
        line.say_pop(pend);
    }
}

// An atom met: its number in walk order, its place there, and its entry back.
fn mark(tables: &mut Tables<'_>, walker: Walker, a: u32, b: u32) -> Walker
    requires { walker.count < far }
    ensures met { held_in result tables.new ≡ met_at (held_in walker tables.old) walker a b }
    ensures same { SameTables tables.old tables.new }
{
    let count = walker.count;
    poke(tables.met, a as usize, count + 1);
    poke(tables.walked, count as usize, a);
    poke(tables.back, a as usize, b);
    walker.meet(a)
}

// The next root.
fn try_root(g: Graph<'_>, tables: &mut Tables<'_>, line: &mut Line<'_>, walker: Walker) -> Walker
    requires { TurnNear walker line.old.at }
    ensures did { Did
        (root_turn (seen g.entry)
        (held_in walker tables.old))
        (held_in result tables.new)
        (spoken_in line.old) (spoken_in line.new) }
    ensures turn_grows { TurnGrows walker result line.old.at line.new.at }
    ensures same { SameTables tables.old tables.new × SameLine line.old line.new }
{
    let a = walker.next;
    if g.size <= a as usize {
        return walker;
    }
    let passed = walker.pass();
    if tables.mark_of(a) != 0 {
        return passed;
    }
    let kind = said_as(g.kind_at(a), 0);
    line.say_root(kind);
    mark(tables, passed, a, 0)
}

// The current atom has no entry left.
#[tactic(auto, unfolding(crate::specs::Walk::left_in))]
fn leave(g: Graph<'_>, tables: &Tables<'_>, walker: Walker, a: u32) -> Walker
    requires { walker.pend < far }
    ensures value { result ≡ left_in g.entry.bonds.now g.entry.first.now tables.now.back.now walker a }
    ensures turn_onward { TurnOnward walker result }
{
    let b = tables.back_of(a);
    if b == 0 {
        return walker.end();
    }
    walker.leave(g.target_at(a, b - 1))
}

// A ring number for a bond between two atoms that were met.
fn ring(
    tables: &mut Tables<'_>,
    line: &mut Line<'_>,
    mut walker: Walker,
    k: BondKind,
    s: u32,
    t: u32,
) -> Walker
    requires { TurnNear walker line.old.at }
    ensures did { Did (ring_turn (held_in walker tables.old) k s t)
        (held_in result tables.new) (spoken_in line.old)
        (spoken_in line.new) }
    ensures turn_grows { TurnGrows walker result line.old.at line.new.at }
    ensures same { SameTables tables.old tables.new × SameLine line.old line.new }
{
    match walker.pool.hit(tables.pairs, s, t) {
        None => walker.refused(WalkError::RingNumbers(s, t)),
        Some(n) => {
            say_pops(line, walker.pend);
            line.say_join(k, n);
            walker.ring()
        }
    }
}

// A bond to an atom met before: both ends are compared first.
fn tie(
    g: Graph<'_>,
    tables: &mut Tables<'_>,
    line: &mut Line<'_>,
    walker: Walker,
    k: BondKind,
    s: u32,
    t: u32,
) -> Walker
    requires { TurnNear walker line.old.at }
    ensures did { Did
        (tie_turn (seen g.entry)
        (held_in walker tables.old) k s t)
        (held_in result tables.new) (spoken_in line.old)
        (spoken_in line.new) }
    ensures turn_grows { TurnGrows walker result line.old.at line.new.at }
    ensures same { SameTables tables.old tables.new × SameLine line.old line.new }
{
    match find_tie(g, k, s, t) {
        Err(why) => walker.refused(why),
        Ok(_) => ring(tables, line, walker, k, s, t),
    }
}

// A bond to a new atom: it is said and becomes the current one.
fn enter(
    g: Graph<'_>,
    tables: &mut Tables<'_>,
    line: &mut Line<'_>,
    walker: Walker,
    k: BondKind,
    s: u32,
    t: u32,
) -> Walker
    requires { TurnNear walker line.old.at }
    ensures did { Did
        (enter_turn (seen g.entry)
        (held_in walker tables.old) k s t)
        (held_in result tables.new)
        (spoken_in line.old) (spoken_in line.new) }
    ensures turn_grows { TurnGrows walker result line.old.at line.new.at }
    ensures same { SameTables tables.old tables.new × SameLine line.old line.new }
{
    match find_way(g, k, s, t) {
        Err(why) => walker.refused(why),
        Ok(b) => {
            say_pops(line, walker.pend);
            let kind = said_as(g.kind_at(t), b);
            line.say_extend(k, kind);
            mark(tables, walker, t, b)
        }
    }
}

// A bond of the atom s, of kind k to t.
fn take_bond(
    g: Graph<'_>,
    tables: &mut Tables<'_>,
    line: &mut Line<'_>,
    walker: Walker,
    s: u32,
    k: BondKind,
    t: u32,
) -> Walker
    requires { TurnNear walker line.old.at }
    ensures did { Did
        (bond_turn (seen g.entry)
        (held_in walker tables.old) s (entry_to k t))
        (held_in result tables.new)
        (spoken_in line.old) (spoken_in line.new) }
    ensures turn_grows { TurnGrows walker result line.old.at line.new.at }
    ensures same { SameTables tables.old tables.new × SameLine line.old line.new }
{
    if g.size <= t as usize {
        return walker.refused(WalkError::UnknownTarget(s, t));
    }
    if t == s {
        return walker.refused(WalkError::Loop(s));
    }
    if tables.mark_of(t) == 0 {
        return enter(g, tables, line, walker, k, s, t);
    }
    tie(g, tables, line, walker, k, s, t)
}

// The current atom a: its next entry, but for the one by which it was reached, or the way back.
fn take_atom(
    g: Graph<'_>,
    tables: &mut Tables<'_>,
    line: &mut Line<'_>,
    walker: Walker,
    a: u32,
) -> Walker
    requires { TurnNear walker line.old.at }
    ensures did { Did
        (atom_of (seen g.entry)
        (held_in walker tables.old)
        a)
        (held_in result tables.new)
        (spoken_in line.old) (spoken_in line.new) }
    ensures turn_grows { TurnGrows walker result line.old.at line.new.at }
    ensures same { SameTables tables.old tables.new × SameLine line.old line.new }
{
    let i = tables.taken_of(a);
    if g.degree_at(a) <= i {
        return leave(g, tables, walker, a);
    }
    poke(tables.taken, a as usize, i + 1);
    if tables.back_of(a) == i + 1 {
        return walker;
    }
    let e = g.entry_at(a, i);
    let k = sure_kind(look(g.bonds, e));
    let t = look(g.bonds, e + 1);
    take_bond(g, tables, line, walker, a, k, t)
}

pub fn turn(g: Graph<'_>, tables: &mut Tables<'_>, line: &mut Line<'_>, walker: Walker) -> Walker
    requires { TurnNear walker line.old.at }
    ensures did { Did
        (turn_of (seen g.entry)
        (held_in walker tables.old))
        (held_in result tables.new)
        (spoken_in line.old) (spoken_in line.new) }
    ensures turn_grows { TurnGrows walker result line.old.at line.new.at }
    ensures same { SameTables tables.old tables.new × SameLine line.old line.new }
{
    match walker.here {
        Some(a) => take_atom(g, tables, line, walker, a),
        None => try_root(g, tables, line, walker),
    }
}
