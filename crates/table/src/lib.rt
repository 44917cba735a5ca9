// Tables of words and of bytes that a caller lends: looking, storing and clearing, and how many words a record has.
//
// Reading past a table finds zeros, and a store past it changes nothing. So no call here asks what a table holds.
//
// limits: how large a job may be, and for how much of it a table has room.
// starts: where each atom's bond entries start.
#![tactic(auto)]

ghost use Rattle.std.specs.Prelude.{◌≡◌, length, replicate, slice_index, slice_set};
ghost use Rattle.table.specs.Zeros.{cleared_from};

pub mod limits;
pub mod starts;

// An atom's record: two words for its kind, and the number of its bond entries.
pub const ATOM_WORDS: usize = 3;
// Where in it the number of entries is.
pub const DEGREE: usize = 2;
// A bond entry's record: the number of its kind, and its target.
pub const BOND_WORDS: usize = 2;

// The word at a place, or 0 past the end.
pub fn look(t: &[u32], at: usize) -> u32
    ensures { result ≡ slice_index t.now at }
{
    t.get(at).copied().unwrap_or(0)
}

// A word put at a place; past the end nothing changes.
#[tactic(auto, using(std::proofs::lemmas::List::set_past))]
pub fn poke(t: &mut [u32], at: usize, word: u32)
    ensures { t.new ≡ slice_set t.old at word }
{
    if at < t.len() {
        t[at] = word;
    }
}

// Zeros all through a table.
pub fn clear(t: &mut [u32])
    ensures { t.new ≡ replicate (length t.old) 0 }
{
    t.fill(0);
}

// Zeros from a place on, in a table of bytes.
#[tactic(auto, unfolding(crate::specs::Zeros::cleared_from))]
pub fn clear_from(out: &mut [u8], from: usize)
    ensures { out.new ≡ cleared_from from out.old }
{
    if from < out.len() {
        out[from..].fill(0);
    }
}

// Zeros all through it. As `clear` it is a call of std's `fill`: one function of both types would ask for a bound and say less plainly
// that what it leaves are zeros.
pub fn clear_bytes(out: &mut [u8])
    ensures { out.new ≡ replicate (length out.old) 0 }
{
    out.fill(0);
}
