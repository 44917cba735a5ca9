// The closed entries of a state in chains: for each atom those from it, or those to it.
ghost use Rattle.std.specs.Prelude.{◌≡◌, ℕ, ◌≤◌, length, slice_index};

use crate::entry::Entry;
use builder::builder::ENTRY_WORDS;
use table::{look, poke};

#[derive(Clone, Copy)]
pub struct Chains<'a> {
    // For each atom one more than the place of its last entry.
    pub head: &'a [u32],
    // For each entry one more than the place of the one before it. 0 ends a chain.
    pub next: &'a [u32],
    ghost descends: { (i : ℕ) → slice_index next.now i ≤ i },
}

impl<'a> Chains<'a> {
    ghost use Rattle.table.specs.Limits.{bond_limit};
    ghost use Rattle.desk_state.specs.Steps.{head_with, next_with, Loose, Linked};

    // Entry i put into the chain of the atom that a column names.
    #[tactic(auto, unfolding(crate::specs::Steps::head_with, crate::specs::Steps::next_with))]
    fn link_one(entries: &[u32], column: usize, i: usize, head: &mut [u32], next: &mut [u32])
        requires { (i ≤ bond_limit) × (column ≤ 2) }
        ensures head_after { head.new ≡ head_with entries.now column i head.old }
        ensures next_after { next.new ≡ next_with entries.now column i head.old next.old }
    {
        if !Entry::at(entries, i).is_open() {
            let key = look(entries, i * ENTRY_WORDS + column) as usize;
            poke(next, i, look(head, key));
            poke(head, key, (i + 1) as u32);
        }
    }

    // The chains of the first n entries.
    pub fn link(
        entries: &[u32],
        column: usize,
        n: usize,
        head: &'a mut [u32],
        next: &'a mut [u32],
    ) -> Chains<'a>
        requires { (column ≤ 2) × Loose entries.now column n head.old next.old }
        ensures linked { Linked entries.now column n result.head.now result.next.now }
        ensures heads { length result.head.now ≡ length head.old }
    {
        for i in 0..n {
            Self::link_one(entries, column, i, head, next);
        }
        Chains { head, next }
    }

    // The entries of an atom.
    pub fn of(&self, a: usize) -> Chain<'a>
        ensures ahead { result.ahead ≡ slice_index self.now.head.now a }
        ensures next { result.next.now ≡ self.now.next.now }
    {
        Chain {
            next: self.next,
            ahead: look(self.head, a),
        }
    }
}

// The rest of a chain: the places of its entries, the last first.
#[derive(Clone, Copy)]
pub struct Chain<'a> {
    pub next: &'a [u32],
    // One more than the place of the entry that comes next.
    pub ahead: u32,
    ghost descends: { (i : ℕ) → slice_index next.now i ≤ i },
}

impl<'a> Iterator for Chain<'a> {
    ghost use Rattle.std.specs.Iterator.{at_most};
    ghost use Rattle.desk_state.specs.Steps.{goes_along};

    type Item = u32;

    ghost next_gives = { goes_along };

    ghost remaining = { λ s. at_most s.ahead };

    fn next(&mut self) -> Option<u32> {
        let i = self.ahead.checked_sub(1)?;
        self.ahead = look(self.next, i as usize);
        Some(i)
    }
}
