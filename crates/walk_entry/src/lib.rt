// What a walk asks of a graph's tables: purr's walk.rs, its questions to a new atom; and whether the two ends of a ring bond
// agree, which purr does not ask.
//
// graph: atoms and bonds.
// entry: a new atom's entries back to the atom that it is reached from, and what they make of its mark.
// tie: the entries for each other of two atoms that were met.
#![tactic(auto)]

pub mod entry;
pub mod graph;
pub mod tie;

// Why a walk stops at a bond, with the atoms that it carries.
#[derive(Clone, Copy, Debug, PartialEq, Eq)]
pub enum WalkError {
    // The source, and a target that is none of the atoms.
    UnknownTarget(u32, u32),
    // A bond of the source to itself.
    Loop(u32),
    HalfBond(u32, u32),
    DuplicateBond(u32, u32),
    // The target, then the source, as in the Rust.
    IncompatibleBond(u32, u32),
    // An atom whose mark can't be turned.
    Inversion(u32),
    // No ring number is left for the source and the target.
    RingNumbers(u32, u32),
}
