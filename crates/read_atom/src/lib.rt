// An atom at a place of a line, from purr's read_*.rs, and the scanner, which is purr's scanner.rs.
//
// read_organic: an atom without brackets.
// read_atom: an atom: organic, bracket or star.
// scanner: what holds the line and its place in it, for those who read one from its start.
#![tactic(auto)]

pub mod read_atom;
pub mod read_organic;
pub mod scanner;
