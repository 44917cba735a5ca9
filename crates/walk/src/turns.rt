// All turns of a walk, from a pool by value, with the pool's words as they are or emptied first.
ghost use Rattle.std.specs.Prelude.{◌≡◌, ◌<◌, length, replicate};
ghost use Rattle.writer.specs.Tables.{spoken, say_all, writer};
ghost use Rattle.writer.specs.Lent.{spoken_in, SameLine};
ghost use Rattle.walk_entry.specs.Graph.{seen};
ghost use Rattle.walk.specs.Walk.{pooled, fresh_walker, walk_to, events_of, turns_of};
ghost use Rattle.walk.specs.Steps.{held_in, SameTables};

use crate::tables::Tables;
use crate::turn::turn;
use crate::walker::Walker;
use join_pool::Pool;
use table::clear;
use walk_entry::graph::Graph;
use writer::{Line, Writer};

// Each atom is tried as a root and left once, and each entry is taken once: so many turns are a whole walk.
pub fn walk(
    pool: Pool,
    g: Graph<'_>,
    entries: usize,
    tables: &mut Tables<'_>,
    line: &mut Line<'_>,
) -> Walker
    requires { turns_of g.size entries < 1000000 }
    ensures walked { (held_in result tables.new
        ≡ walk_to (seen g.entry) (turns_of g.entry.size entries)
        (held_in (fresh_walker pool) tables.old))
        × (spoken_in line.new
        ≡ say_all (spoken (writer 0 0) line.old.out.now line.old.starts.now)
        (events_of (seen g.entry) (turns_of g.entry.size entries)
        (held_in (fresh_walker pool) tables.old))) }
    ensures same { SameTables tables.old tables.new × SameLine line.old line.new }
{
    let mut walker = Walker::start(pool);
    line.at = Writer { pieces: 0, len: 0 };
    for _ in 0..2 * g.size + entries {
        walker = turn(g, tables, line, walker);
        if walker.refusal.is_some() {
            return walker;
        }
    }
    walker
}

// The same, but that no number is open at first, whatever the words held.
pub fn walk_cleared(
    pool: Pool,
    g: Graph<'_>,
    entries: usize,
    tables: &mut Tables<'_>,
    line: &mut Line<'_>,
) -> Walker
    requires { turns_of g.size entries < 1000000 }
    ensures walked { (held_in result tables.new
        ≡ walk_to (seen g.entry) (turns_of g.entry.size entries)
        (pooled (held_in (fresh_walker pool) tables.old) (replicate (length tables.old.pairs.now) 0)))
        × (spoken_in line.new
        ≡ say_all (spoken (writer 0 0) line.old.out.now line.old.starts.now)
        (events_of (seen g.entry) (turns_of g.entry.size entries)
        (pooled (held_in (fresh_walker pool) tables.old) (replicate (length tables.old.pairs.now) 0)))) }
    ensures same { SameTables tables.old tables.new × SameLine line.old line.new }
{
    clear(tables.pairs);
    walk(pool, g, entries, tables, line)
}
