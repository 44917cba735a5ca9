// Ring numbers for a walk, as purr's join_pool.rs hands them out: an unordered pair of atoms opens a number with its first
// call and closes it with the next.
//
// A number has three words in the lent table: whether it is open, and the pair that it is open for, the lower atom first. So
// a pair is found among the numbers that were handed out, of which there are at most 99, however many rings there were.
#![tactic(auto)]

ghost use Rattle.std.specs.Prelude.{◌≡◌};
ghost use Rattle.join_pool.specs.Pairs.{empty_of, pool, opens, open_number, slot, counter_of, next_of, open_of, hit_pair, hit_of};
ghost use Rattle.join_pool.specs.Apart.{called, call_of};

use table::limits::RING_NUMBER_COUNT;
use table::{look, poke};

// The highest ring number.
pub const HIGHEST: u32 = 99;
// The words of a number.
pub const SLOT_WORDS: usize = 3;
// The words of a pool's table: 0 is no ring number, and has a slot all the same.
pub const PAIRS: usize = RING_NUMBER_COUNT * SLOT_WORDS;

// The mark of a number.
const FREE: u32 = 0;

pub const OPEN: u32 = 1;

#[derive(Clone, Copy, Debug, PartialEq, Eq)]
pub struct Pool {
    // The next number that was never handed out.
    pub counter: u32,
    // The number closed last, if it was not handed out again; else 0, which is no ring number of a pool: C keeps the two as words.
    pub spare: u32,
}

// Whether a number is open for a pair.
#[tactic(auto, unfolding(crate::specs::Pairs::opens))]
fn is_open(pairs: &[u32], number: u32, lower: u32, higher: u32) -> bool
    ensures { result ≡ opens pairs.now number lower higher }
{
    let at = number as usize * SLOT_WORDS;
    look(pairs, at) == OPEN && look(pairs, at + 1) == lower && look(pairs, at + 2) == higher
}

// The number up to n that is open for a pair, if there is one.
#[tactic(auto, using(crate::proofs::Laws::number_some, crate::proofs::Laws::number_less, crate::proofs::Laws::number_none))]
pub fn find(pairs: &[u32], n: u32, lower: u32, higher: u32) -> Option<u32>
    ensures { result ≡ open_number pairs.now lower higher n }
{
    for number in (1..=n).rev() {
        if is_open(pairs, number, lower, higher) {
            return Some(number);
        }
    }
    None
}

// Other words for a number.
#[tactic(auto, unfolding(crate::specs::Pairs::slot))]
fn put_slot(pairs: &mut [u32], number: u32, mark: u32, lower: u32, higher: u32)
    ensures { pairs.new ≡ slot pairs.old number mark lower higher }
{
    let at = number as usize * SLOT_WORDS;
    poke(pairs, at, mark);
    poke(pairs, at + 1, lower);
    poke(pairs, at + 2, higher);
}

impl Pool {
    // A pool that has handed out nothing.
    pub fn empty() -> Pool
        ensures { result ≡ empty_of }
    {
        Pool {
            counter: 1,
            spare: 0,
        }
    }

    // The counter after a call.
    #[tactic(auto, unfolding(crate::specs::Pairs::counter_of, crate::specs::Pairs::counter_next))]
    fn counted(self) -> u32
        ensures { result ≡ counter_of self }
    {
        if self.spare == 0 && self.counter <= HIGHEST {
            self.counter + 1
        } else {
            self.counter
        }
    }

    // The number that an opening takes.
    #[tactic(auto, unfolding(crate::specs::Pairs::next_of))]
    fn next(self) -> u32
        ensures { result ≡ next_of self }
    {
        if self.spare == 0 {
            self.counter
        } else {
            self.spare
        }
    }

    // A number for a pair that has none, if it would not exceed the highest.
    #[tactic(auto, unfolding(crate::specs::Pairs::open_of, crate::specs::Apart::answer_apart))]
    fn open(&mut self, pairs: &mut [u32], lower: u32, higher: u32) -> Option<u32>
        ensures { called self.new result pairs.new ≡ call_of self.old (open_of self.old pairs.old lower higher) }
    {
        let number = self.next();
        if HIGHEST < number {
            return None;
        }
        put_slot(pairs, number, OPEN, lower, higher);
        let counter = self.counted();
        *self = Pool { counter, spare: 0 };
        Some(number)
    }

    // The number of a pair, which is then the spare one.
    fn close(&mut self, pairs: &mut [u32], number: u32)
        ensures pool { self.new ≡ pool (counter_of self.old) number }
        ensures words { pairs.new ≡ slot pairs.old number 0 0 0 }
    {
        put_slot(pairs, number, FREE, 0, 0);
        self.counter = self.counted();
        self.spare = number;
    }

    // A call for a pair, the lower atom first.
    #[tactic(auto, unfolding(crate::specs::Pairs::hit_pair, crate::specs::Pairs::open_or_close, crate::specs::Pairs::close_of, crate::specs::Apart::answer_apart))]
    fn call(&mut self, pairs: &mut [u32], lower: u32, higher: u32) -> Option<u32>
        ensures { called self.new result pairs.new ≡ call_of self.old (hit_pair self.old pairs.old lower higher) }
    {
        let Some(number) = find(pairs, self.counter, lower, higher) else {
            return self.open(pairs, lower, higher);
        };
        self.close(pairs, number);
        Some(number)
    }

    // A call for the pair of two atoms: the number that it opens or closes, or none if all are open. A refused call changes
    // nothing.
    #[tactic(auto, unfolding(crate::specs::Pairs::hit_of))]
    pub fn hit(&mut self, pairs: &mut [u32], a: u32, b: u32) -> Option<u32>
        ensures { called self.new result pairs.new ≡ call_of self.old (hit_of self.old pairs.old a b) }
    {
        if a < b {
            self.call(pairs, a, b)
        } else {
            self.call(pairs, b, a)
        }
    }
}
