// A graph in the making: what each event makes of a builder's state. purr's graph/builder.rs.
//
// opens: the open ring numbers.
// builder: the events.
// build: the end of a build, the entries gathered atom after atom.
#![tactic(auto)]

pub mod build;
pub mod builder;
pub mod opens;
