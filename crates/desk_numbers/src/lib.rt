// The desk's numbers and their names, once for all calls, and an answer as code holds it. specs/Numbers.antt has the same
// numbers for the promises. They are numbers and no enum: a builder's refusal is the first word of a state that a caller in C
// keeps, and `builder_in` of desk_report takes any below 2^32 there.
#![tactic(auto)]

pub const DONE: u32 = 0;

pub const END_OF_LINE: u32 = 1;

pub const CHARACTER: u32 = 2;

pub const JOIN: u32 = 3;

pub const RNUM: u32 = 4;

pub const UNKNOWN_TARGET: u32 = 5;

pub const LOOP: u32 = 6;

pub const HALF_BOND: u32 = 7;

pub const DUPLICATE_BOND: u32 = 8;

pub const INCOMPATIBLE_BOND: u32 = 9;

pub const INVERSION: u32 = 10;

pub const RING_NUMBERS: u32 = 11;

pub const TEXT_TOO_LONG: u32 = 12;

pub const ATOM_ROOM: u32 = 13;

pub const BOND_ROOM: u32 = 14;

pub const NESTING: u32 = 15;

pub const OUT_ROOM: u32 = 16;

pub const BAD_TABLE: u32 = 17;

pub const NO_ATOM: u32 = 18;

pub const OVERPOP: u32 = 19;

// A number of the desk's and what it carries. Its readers, as the three words of a report, take both values whatever is carried,
// 0 where fewer are; only what is printed asks how many. So it has no variant for each count.
#[derive(Clone, Copy, Debug, PartialEq, Eq)]
pub struct Said {
    pub no: u32,
    // How many values are carried; those that are not are 0.
    pub carries: u32,
    pub first: usize,
    pub second: usize,
}
