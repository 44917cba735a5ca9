// The walk over a graph's tables, depth first, told to a writer: purr's walk.rs.
//
// walker: what a walk knows beside its tables.
// tables: the tables that it fills.
// turn: one turn: a root tried, an entry taken, or an atom left.
// turns: all of them, over a pool by value.
// lent: the pool lent to them.
#![tactic(auto)]

pub mod lent;
pub mod tables;
pub mod turn;
pub mod turns;
pub mod walker;
