// A ring number from the pool as a single call: any table and any numbers may be handed in. Those that stand for no pool are
// answered 17 before the pair is looked for; a refused call changes nothing.
//
// The pool and the words of its pairs stay two parameters: mavisdrok_pool_hit lends the words apart from the state that the pool
// is read from, and Pool::hit takes them apart too, since a walk has the pool in its walker and the words among its tables.
#![tactic(auto)]

ghost use Rattle.std.specs.Prelude.{◌≡◌, ◌+◌};
ghost use Rattle.feature.specs.Every.{every};
ghost use Rattle.desk_pool.specs.Slots.{top, is_free, is_open, kept_free, is_slot, is_found, is_pool, gives, hit_d};

use join_pool::{OPEN, PAIRS, Pool, SLOT_WORDS, find};
use table::look;

// The highest value of the counter. The search for a pair goes down from the counter, so the slot of this one is judged too.
const TOP: u32 = 100;

// Why a call hands out no number.
#[derive(Clone, Copy, Debug, PartialEq, Eq)]
pub enum Refusal {
    // The number would exceed 99: said of the pair that was asked for.
    RingNumbers,
    // A table and numbers that stand for no pool.
    BadTable,
}

// Three zeros.
#[tactic(auto, unfolding(crate::specs::Slots::is_free))]
fn is_free(pairs: &[u32], n: u32) -> bool
    ensures { result ≡ is_free pairs.now n }
{
    let at = n as usize * SLOT_WORDS;
    look(pairs, at) == 0 && look(pairs, at + 1) == 0 && look(pairs, at + 2) == 0
}

// A mark and a pair with the lower atom first.
#[tactic(auto, unfolding(crate::specs::Slots::is_open))]
fn is_open(pairs: &[u32], n: u32) -> bool
    ensures { result ≡ is_open pairs.now n }
{
    let at = n as usize * SLOT_WORDS;
    look(pairs, at) == OPEN && look(pairs, at + 1) <= look(pairs, at + 2)
}

// The numbers that no pair can have: 0, the spare and those that were never handed out.
#[tactic(auto, unfolding(crate::specs::Slots::kept_free))]
fn kept_free(p: Pool, n: u32) -> bool
    ensures { result ≡ kept_free p n }
{
    n == 0 || n == p.spare || p.counter <= n
}

#[tactic(auto, unfolding(crate::specs::Slots::is_slot))]
fn is_slot(pairs: &[u32], p: Pool, n: u32) -> bool
    ensures { result ≡ is_slot p pairs.now n }
{
    is_free(pairs, n) || !kept_free(p, n) && is_open(pairs, n)
}

fn slots_stand(pairs: &[u32], p: Pool) -> bool
    ensures { result ≡ every (is_slot p pairs.now) (top + 1) }
{
    (0..TOP + 1).all(|n| is_slot(pairs, p, n))
}

// The pool's search for the pair of an open number finds that number, so that no other is open for it. Finding none counts as 0,
// which is no pair's.
#[tactic(auto, unfolding(crate::specs::Slots::is_found))]
fn is_found(pairs: &[u32], p: Pool, n: u32) -> bool
    ensures { result ≡ is_found p pairs.now n }
{
    let at = n as usize * SLOT_WORDS;
    is_free(pairs, n)
        || find(pairs, p.counter, look(pairs, at + 1), look(pairs, at + 2)).unwrap_or(0) == n
}

fn pairs_differ(pairs: &[u32], p: Pool) -> bool
    ensures { result ≡ every (is_found p pairs.now) (top + 1) }
{
    (0..TOP + 1).all(|n| is_found(pairs, p, n))
}

#[tactic(auto, unfolding(crate::specs::Slots::is_pool))]
fn is_pool(pairs: &[u32], p: Pool) -> bool
    ensures { result ≡ is_pool p pairs.now }
{
    PAIRS <= pairs.len()
        && p.counter <= TOP
        && p.spare < p.counter
        && slots_stand(pairs, p)
        && pairs_differ(pairs, p)
}

// A call for the pair of two atoms: the first opens a number for it, the next closes it. The pool after it, and the number.
#[tactic(auto, unfolding(crate::specs::Slots::hit_d))]
pub fn hit(pairs: &mut [u32], p: Pool, a: u32, b: u32) -> Result<(Pool, u32), Refusal>
    ensures { gives a b result pairs.new ≡ hit_d p pairs.old a b }
{
    if !is_pool(pairs, p) {
        return Err(Refusal::BadTable);
    }
    let mut pool = p;
    match pool.hit(pairs, a, b) {
        Some(number) => Ok((pool, number)),
        None => Err(Refusal::RingNumbers),
    }
}
