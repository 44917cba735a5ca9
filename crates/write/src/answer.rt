// Why the write call and the walk order refuse: a variant for each of the desk's numbers that they give.
use walk_entry::WalkError;

#[derive(Clone, Copy, Debug, PartialEq, Eq)]
pub enum WriteError {
    // The walk stopped at a bond.
    Stopped(WalkError),
    AtomRoom(usize),
    BondRoom(usize),
    OutRoom(usize),
    BadTable(usize),
}
