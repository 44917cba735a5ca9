// What a line says of an atom and of a bond, as plain values: purr's feature/.
//
// element: the ordered table of the names that a bracket atom can have.
// atom_kind: an atom's kind, and its mark turned.
// bond_kind: a bond's kind, its reverse, and what two ends of a ring bond agree on.
#![tactic(auto)]

pub mod atom_kind;
pub mod bond_kind;
pub mod element;
