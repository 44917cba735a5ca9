// What the programs ask of the system: their arguments, a file to be read, and a line on the standard error that says what
// failed. What cannot be said is not told: there is no other place for it.
//
// arguments: the words that the program was started with.
// failure: what failed, in the system's words.
// file: a file by its name.
#![tactic(auto)]

pub mod arguments;
pub mod failure;
pub mod file;
