// Whether each bond among the entries of a state is held at both ends as reverses. An entry whose join is open is no bond.
//
// Bonds of one kind between the same two atoms may be many, so they are counted: for each atom the entries from it are put into
// the counts and those to it are taken off, and nothing may be left. Where a bond is its own reverse, from an atom to itself,
// their number is even. Each entry is linked, put, taken off and looked at again once, so that the time grows with the entries
// and the atoms.
ghost use Rattle.std.specs.Prelude.{◌≡◌, ◌*◌, ◌^◌, ◌<◌, ◌≤◌, length, get_or};
ghost use Rattle.feature.specs.Every.{every};
ghost use Rattle.table.specs.Limits.{bond_limit};
ghost use Rattle.desk_state.specs.Standing.{is_paired};
ghost use Rattle.desk_state.specs.Steps.{cell_of, out_cell, more_of, put_of, can_take, take_of, bond_kind_count, Linked, CountedAfter, Taken, NoneCounted, BondsMatch, Judged, Between, Blank};

use crate::chains::Chains;
use crate::entry::{Entry, SOURCE, TARGET};
use table::limits::{ATOMS, BONDS, FEW_ATOMS, FEW_BONDS};
use table::{look, poke};

// The numbers of the kinds are 1 to 8.
const KINDS: usize = 8;

// How many counts there are for the atoms that there is work room for.
const FEW_COUNTS: usize = FEW_ATOMS * KINDS + 1;

const COUNTS: usize = ATOMS * KINDS + 1;

// Where bonds of an entry's kind to its target are counted.
fn cell(entry: Entry) -> usize
    ensures { result ≡ cell_of entry.target entry.kind }
{
    entry.target as usize * KINDS + entry.kind as usize
}

// One bond more. Of bonds that are their own reverse only whether their number is odd is kept.
#[tactic(auto, unfolding(crate::specs::Steps::more_of))]
fn more(own: bool, held: u32) -> u32
    requires { held < bond_limit }
    ensures { result ≡ more_of own held }
{
    if own { u32::from(held == 0) } else { held + 1 }
}

// Entry i put into the counts of the atom that it is from.
#[tactic(auto, unfolding(crate::specs::Steps::put_of))]
fn put_one(entries: &[u32], i: u32, counts: &mut [u32])
    requires { get_or counts.old (out_cell entries.now i) 0 < bond_limit }
    ensures { counts.new ≡ put_of entries.now i counts.old }
{
    let entry = Entry::at(entries, i as usize);
    let cell = cell(entry);
    poke(counts, cell, more(entry.is_own(), look(counts, cell)));
}

// Entry i taken off the counts of the atom that it is to. If it can't be, there are fewer reverses than entries like it.
#[tactic(auto, unfolding(crate::specs::Steps::can_take, crate::specs::Steps::take_of))]
fn take_one(entries: &[u32], i: u32, counts: &mut [u32]) -> bool
    ensures value { result ≡ can_take entries.now i counts.old }
    ensures counts_after { counts.new ≡ take_of entries.now i counts.old }
{
    let entry = Entry::at(entries, i as usize);
    if entry.is_own() {
        return true;
    }
    let cell = cell(entry.reversed());
    let Some(rest) = look(counts, cell).checked_sub(1) else {
        return false;
    };
    poke(counts, cell, rest);
    true
}

// What is left where entry i was put.
fn left_of(entries: &[u32], i: u32, counts: &[u32]) -> u32
    ensures { result ≡ get_or counts.now (out_cell entries.now i) 0 }
{
    look(counts, cell(Entry::at(entries, i as usize)))
}

// The first n entries, between so many atoms, in chains by the atom that each is from and by the one that it is to.
#[derive(Clone, Copy)]
struct Bonds<'e, 'f, 't> {
    entries: &'e [u32],
    n: usize,
    atoms: usize,
    from: Chains<'f>,
    to: Chains<'t>,
    ghost between: { Between entries.now n atoms },
    ghost from_linked: { Linked entries.now 0 n from.head.now from.next.now },
    ghost from_room: { atoms ≤ length from.head.now },
    ghost to_linked: { Linked entries.now 2 n to.head.now to.next.now },
    ghost to_room: { atoms ≤ length to.head.now },
}

impl Bonds<'_, '_, '_> {
    // All entries from an atom put into the counts.
    fn put(&self, a: usize, counts: &mut [u32])
        requires { (a < self.now.atoms) × Blank self.now.atoms counts.old }
        ensures { CountedAfter self.now.entries.now self.now.n a 0 counts.new }
    {
        for i in self.from.of(a) {
            put_one(self.entries, i, counts);
        }
    }

    // All entries to an atom taken off them. The closure of an `all` would change the counts, here and in `are_level`, and no
    // proof follows that.
    fn take(&self, a: usize, counts: &mut [u32]) -> bool
        requires { (a < self.now.atoms)
            × (self.now.atoms * bond_kind_count < length counts.old)
            × CountedAfter self.now.entries.now self.now.n a 0 counts.old }
        ensures { Judged result self.now.entries.now self.now.n
            (Taken self.now.entries.now self.now.n a 0 counts.new) }
    {
        for i in self.to.of(a) {
            if !take_one(self.entries, i, counts) {
                return false;
            }
        }
        true
    }

    // Whether nothing is left where the entries from an atom were put.
    fn is_level(&self, a: usize, counts: &[u32]) -> bool
        requires { (a < self.now.atoms)
            × (self.now.atoms * bond_kind_count < length counts.now)
            × Taken self.now.entries.now self.now.n a 0 counts.now }
        ensures { Judged result self.now.entries.now self.now.n (NoneCounted counts.now) }
    {
        self.from
            .of(a)
            .all(|i| left_of(self.entries, i, counts) == 0)
    }

    // Whether the bonds of an atom are held at both ends.
    fn is_level_at(&self, a: usize, counts: &mut [u32]) -> bool
        requires { (a < self.now.atoms) × Blank self.now.atoms counts.old }
        ensures { Judged result self.now.entries.now self.now.n
            (NoneCounted counts.new × BondsMatch self.now.entries.now self.now.n a (length counts.new)) }
    {
        self.put(a, counts);
        self.take(a, counts) && self.is_level(a, counts)
    }

    // The same for all atoms.
    fn are_level(&self, counts: &mut [u32]) -> bool
        requires { Blank self.now.atoms counts.old }
        ensures { result ≡ every (is_paired self.now.entries.now self.now.n) self.now.n }
    {
        for a in 0..self.atoms {
            if !self.is_level_at(a, counts) {
                return false;
            }
        }
        true
    }
}

// With work room for so many atoms, entries and counts.
fn stand<const A: usize, const B: usize, const C: usize>(
    entries: &[u32],
    n: usize,
    atoms: usize,
) -> bool
    requires between { Between entries.now n atoms }
    requires room { (atoms ≤ A) × (n ≤ B) × (atoms * bond_kind_count < C) }
    requires small { (A ≤ 2 ^ 32) × (B ≤ 2 ^ 32) × (C ≤ 2 ^ 32) }
    ensures { result ≡ every (is_paired entries.now n) n }
{
    let mut first = [0u32; A];
    let mut before = [0u32; B];
    let mut last = [0u32; A];
    let mut after = [0u32; B];
    let mut counts = [0u32; C];
    let from = Chains::link(entries, SOURCE, n, &mut first, &mut before);
    let to = Chains::link(entries, TARGET, n, &mut last, &mut after);
    let bonds = Bonds {
        entries,
        n,
        atoms,
        from,
        to,
    };
    bonds.are_level(&mut counts)
}

// The first n entries, among so many atoms.
pub fn pairs_stand(entries: &[u32], n: usize, atoms: usize) -> bool
    requires { Between entries.now n atoms }
    ensures { result ≡ every (is_paired entries.now n) n }
{
    if atoms <= FEW_ATOMS && n <= FEW_BONDS {
        stand::<FEW_ATOMS, FEW_BONDS, FEW_COUNTS>(entries, n, atoms)
    } else {
        stand::<ATOMS, BONDS, COUNTS>(entries, n, atoms)
    }
}
