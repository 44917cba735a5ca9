// Whether numbers stand for a builder's state.
//
// state: the tables and the counts beside them.
// entry: one entry of the table.
// pairs: whether each bond is held at both ends; chains: the entries by atom.
// joins: whether the joins agree with the entries and the ring numbers.
#![tactic(auto)]

mod chains;
mod entry;
mod joins;
mod pairs;
pub mod state;
