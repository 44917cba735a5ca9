// What the desk says, as text: a graph on one line, a walk order, and a refusal by its number and its name.
//
// All is laid on an output with the place from which the next byte is laid; what is text shows itself, for `write!`. A
// byte that finds no room is left out. Whatever the tables hold, nothing is asked of a caller.
//
// tables: a graph in lent tables.
// order: the walk order of such a graph.
// desk: what the desk says: a refusal's name, and what is carried.
// words: the same for people, with the place in the line.
#![tactic(auto)]

pub mod desk;
pub mod order;
pub mod tables;
pub mod words;
