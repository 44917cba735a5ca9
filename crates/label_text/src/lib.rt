// What the label program says, as text, and what it finds out to say it: what is counted, what a line looks like that is no
// text, where ring numbers are, which atoms are not kept, and a refusal for people or behind a `#`.
//
// What is text shows itself, for `write!`; what has bytes as they were typed is laid on an output. A byte that finds no room
// there is left out.
//
// counted: a number and what it counts.
// looks: what a line looks like that is no SMILES text.
// rings: where the ring numbers of a text are.
// lost: the atoms that are not written as they were read.
// why: a refusal in words, and behind a `#`.
#![tactic(auto)]

pub mod counted;
pub mod looks;
pub mod lost;
pub mod rings;
pub mod why;
