// A line read into tables: purr's read/read.rs over a builder.
//
// A line is an atom and then bodies; a body is a branch, a split or a union. A line calls a branch and a branch calls a
// line, with fewer bytes left each time; along a line goes a loop.
//
// lead: what leads an atom in, and what a byte begins.
// event: what the reader says to the builder.
// line: the grammar.
#![tactic(auto)]

pub mod event;
pub mod lead;
pub mod line;
