// How large a label job may be. Room in a table is the lesser of its limit and what the caller lent.
ghost use Rattle.std.specs.Prelude.{◌/◌, length};
ghost use Rattle.table.specs.Records.{atom_words, bond_words};
ghost use Rattle.table.specs.Limits.{RoomOf, atom_limit, bond_limit};

use crate::{ATOM_WORDS, BOND_WORDS};

pub const TEXT: usize = 8192;

pub const ATOMS: usize = 1024;

pub const BONDS: usize = 2304;

pub const BRANCHES: usize = 128;

// How many ring numbers there are: 0 to 99.
pub const RING_NUMBER_COUNT: usize = 100;

// Up to so many atoms the read call and the write call take less work room.
pub const FEW_ATOMS: usize = 128;

// So many bond entries are few: tables with room for no more are read into, and no more are compared, with little work room.
pub const FEW_BONDS: usize = 256;

// std's `min`, with what is promised of a room in one clause.
#[tactic(auto, unfolding(crate::specs::Limits::lesser_of))]
pub fn lesser(limit: usize, lent: usize) -> usize
    ensures { RoomOf limit lent result }
{
    lent.min(limit)
}

// How many atoms a lent table has room for.
pub fn atom_room(atoms: &[u32]) -> usize
    ensures { RoomOf atom_limit (length atoms.now / atom_words) result }
{
    lesser(ATOMS, atoms.len() / ATOM_WORDS)
}

// How many bond entries a lent table has room for.
pub fn bond_room(bonds: &[u32]) -> usize
    ensures { RoomOf bond_limit (length bonds.now / bond_words) result }
{
    lesser(BONDS, bonds.len() / BOND_WORDS)
}
