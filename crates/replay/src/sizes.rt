// Sizes that requests of several sorts share.
use table::limits::{ATOMS, BONDS};
use table::{ATOM_WORDS, BOND_WORDS};

// Tables of the largest size, and one record more.
pub const ATOM_TABLE: usize = (ATOMS + 1) * ATOM_WORDS;

pub const BOND_TABLE: usize = (BONDS + 1) * BOND_WORDS;
// The longest line of the largest graph: 24 bytes an atom and 4 a bond entry.
pub const LONGEST_LINE: usize = 24 * ATOMS + 4 * BONDS;
// The highest ring number.
pub const HIGHEST_RING: u32 = 99;
// What tables that are lent hold before a call.
pub const OTHER: u32 = 7;
