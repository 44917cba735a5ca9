// What the calls for programs in other languages write into lent words: an answer as three words, and a state.
//
// answer: an answer as a number and what it carries.
// state: a state as words.
// keep: what a call leaves of both.
#![tactic(auto)]

pub mod answer;
pub mod keep;
pub mod state;
