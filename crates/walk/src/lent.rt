// The pool lent to a walk and changed in its own place.
//
// The turns carry it in their walker and lend it from there for each ring number; the first function here is built on them: it
// empties the pool that it was lent, whatever that held, its counter and spare and the words of its open pairs, has the turns
// start from it, and writes back what they leave. The second lends it a pool.
ghost use Rattle.std.specs.Prelude.{◌≡◌, ◌<◌, length, replicate};
ghost use Rattle.writer.specs.Tables.{spoken, say_all, writer};
ghost use Rattle.writer.specs.Lent.{spoken_in, SameLine};
ghost use Rattle.walk_entry.specs.Graph.{seen};
ghost use Rattle.walk.specs.Walk.{pooled, start_walker, walk_to, events_of, turns_of};
ghost use Rattle.walk.specs.Steps.{held_in, SameTables};

use crate::tables::Tables;
use crate::turns;
use crate::walker::Walker;
use join_pool::Pool;
use walk_entry::graph::Graph;
use writer::Line;

pub fn walk_in(
    pool: &mut Pool,
    g: Graph<'_>,
    entries: usize,
    tables: &mut Tables<'_>,
    line: &mut Line<'_>,
) -> Walker
    requires { turns_of g.size entries < 1000000 }
    ensures walked { (held_in result tables.new
        ≡ walk_to (seen g.entry) (turns_of g.entry.size entries)
        (pooled (held_in start_walker tables.old) (replicate (length tables.old.pairs.now) 0)))
        × (spoken_in line.new
        ≡ say_all (spoken (writer 0 0) line.old.out.now line.old.starts.now)
        (events_of (seen g.entry) (turns_of g.entry.size entries)
        (pooled (held_in start_walker tables.old) (replicate (length tables.old.pairs.now) 0))))
        × (pool.new ≡ result.pool) }
    ensures same { SameTables tables.old tables.new × SameLine line.old line.new }
{
    let empty = Pool::empty();
    *pool = empty;
    let walker = turns::walk_cleared(*pool, g, entries, tables, line);
    *pool = walker.pool;
    walker
}

pub fn walk(g: Graph<'_>, entries: usize, tables: &mut Tables<'_>, line: &mut Line<'_>) -> Walker
    requires { turns_of g.size entries < 1000000 }
    ensures walked { (held_in result tables.new
        ≡ walk_to (seen g.entry) (turns_of g.entry.size entries)
        (pooled (held_in start_walker tables.old) (replicate (length tables.old.pairs.now) 0)))
        × (spoken_in line.new
        ≡ say_all (spoken (writer 0 0) line.old.out.now line.old.starts.now)
        (events_of (seen g.entry) (turns_of g.entry.size entries)
        (pooled (held_in start_walker tables.old) (replicate (length tables.old.pairs.now) 0)))) }
    ensures same { SameTables tables.old tables.new × SameLine line.old line.new }
{
    let mut pool = Pool::empty();
    walk_in(&mut pool, g, entries, tables, line)
}
