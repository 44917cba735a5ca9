// The events of a builder, on lent tables and a few numbers beside them. A refused event changes nothing but the refusal.
//
// atoms: an atom's record each. entries: three words each, in the order of the events: source, kind, target. path: the
// atoms from the first to the current one. rings: the open ring numbers between two joins. They go as four slices: as one
// struct of slices behind a reference they were tried, and reading took 12 in a hundred instructions more, since each store has
// the struct read again.
ghost use Rattle.std.specs.Prelude.{◌≡◌, ℕ, ◌+◌, ◌-◌, ◌*◌, ◌^◌, ◌<◌, ◌≤◌, List, [], ◌∷◌, slice_index};
ghost use Rattle.std.proofs.lemmas.List.Edits.{sets};
ghost use Rattle.feature.specs.Bonds.{code_of, reconcile_of};
ghost use Rattle.table.specs.Limits.{ring_number_count};
ghost use Rattle.builder.specs.State.{bld, fresh_builder, refused_st, popped_st, failed_st, joined_st, entry_words, entry_list, entered, root_of, bonded, extend_of, opened_of, opening_kind, closed_by, join_of};
ghost use Rattle.builder.specs.Steps.{SmallCounts};

use crate::opens::rejoin;
use desk_numbers::{ATOM_ROOM, BOND_ROOM, INVERSION, NO_ATOM};
use feature::atom_kind::{AtomKind, invert};
use feature::bond_kind::{BondKind, code, reconcile, reverse, sure_kind};
use packing::store;
use table::{ATOM_WORDS, look, poke};

// The words of an entry while a line is read.
pub const ENTRY_WORDS: usize = 3;
// The target of an entry whose ring number is open is the sum of this and the number of the join.
pub const OPEN: u32 = 0x8000_0000;

// The atoms at the two ends of a join whose kinds do not agree.
#[derive(Clone, Copy, Debug, PartialEq, Eq)]
pub struct FailedJoin {
    pub closing: u32,
    pub opening: u32,
}

// What a builder knows beside its tables. A refusal is its number and what it carries; 0 is none. It is no Option of an enum: C keeps
// a state's words between two calls, its first may be any number below 2^32, and `builder_again` (desk_report) says of each that it
// is read as it was laid.
#[derive(Clone, Copy)]
pub struct Builder {
    pub refusal: u32,
    pub carried: usize,
    // How many atoms and entries there is room for.
    pub places: usize,
    pub slots: usize,
    pub atoms: usize,
    pub entries: usize,
    pub top: usize,
    pub joins: usize,
    // The first join that failed.
    pub failed: Option<FailedJoin>,
}

impl Builder {
    pub fn start(places: usize, slots: usize) -> Builder
        ensures { result ≡ fresh_builder places slots }
    {
        Builder {
            refusal: 0,
            carried: 0,
            places,
            slots,
            atoms: 0,
            entries: 0,
            top: 0,
            joins: 0,
            failed: None,
        }
    }

    pub fn refused(mut self, number: u32, carried: usize) -> Builder
        ensures { result ≡ refused_st self number carried }
    {
        self.refusal = number;
        self.carried = carried;
        self
    }

    // A pop beyond the path empties it.
    pub fn pop(mut self, n: usize) -> Builder
        ensures { result ≡ popped_st self n }
    {
        self.top = self.top.saturating_sub(n);
        self
    }

    // One join more, and one entry.
    pub fn joined(mut self) -> Builder
        requires { SmallCounts self }
        ensures { result ≡ joined_st self }
    {
        self.joins += 1;
        self.entries += 1;
        self
    }

    // A join whose kinds do not agree: the first such is remembered.
    #[tactic(auto, unfolding(crate::specs::State::failed_st))]
    pub fn fail(mut self, closing: u32, opening: u32) -> Builder
        requires { SmallCounts self }
        ensures { result ≡ failed_st self closing opening }
    {
        self.joins += 1;
        if self.failed.is_none() {
            self.failed = Some(FailedJoin { closing, opening });
        }
        self
    }
}

fn put_entry(entries: &mut [u32], e: usize, source: u32, kind: u32, target: u32)
    requires { e ≤ 2 ^ 32 }
    ensures { entries.new ≡ sets entries.old (e * entry_words) (entry_list source kind target) }
{
    let at = e * ENTRY_WORDS;
    poke(entries, at, source);
    poke(entries, at + 1, kind);
    poke(entries, at + 2, target);
}

// The two entries of a bond, one after the other. Where there is room for both, one test does.
fn put_bond(entries: &mut [u32], e: usize, source: u32, kind: u32, target: u32, reversed: u32)
    requires { e < 2 ^ 32 }
    ensures { entries.new
        ≡ sets (sets entries.old (e * entry_words) (entry_list source kind target)) ((e + 1) * entry_words)
        (entry_list target reversed source) }
{
    let at = e * ENTRY_WORDS;
    if at + 5 < entries.len() {
        entries[at] = source;
        entries[at + 1] = kind;
        entries[at + 2] = target;
        entries[at + 3] = target;
        entries[at + 4] = reversed;
        entries[at + 5] = source;
    } else {
        put_entry(entries, e, source, kind, target);
        put_entry(entries, e + 1, target, reversed, source);
    }
}

// A new atom on the path; `held` is how many entries there are then.
#[tactic(auto, unfolding(crate::specs::State::entered))]
fn enter(
    atoms: &mut [u32],
    path: &mut [u32],
    mut builder: Builder,
    k: AtomKind,
    held: usize,
) -> Builder
    requires { SmallCounts builder }
    ensures { (e s : List ℕ) →
        bld atoms.new e path.new s result ≡ entered (bld atoms.old e path.old s builder) k held }
{
    let n = builder.atoms;
    let top = builder.top;
    store(atoms, n * ATOM_WORDS, k);
    poke(path, top, n as u32);
    builder.atoms = n + 1;
    builder.top = top + 1;
    builder.entries = held;
    builder
}

// A first atom of a component.
#[tactic(auto, unfolding(crate::specs::State::root_of, crate::specs::State::refuse))]
pub fn root(
    atoms: &mut [u32],
    path: &mut [u32],
    builder: Builder,
    k: AtomKind,
    place: usize,
) -> Builder
    requires { SmallCounts builder }
    ensures { (e s : List ℕ) →
        bld atoms.new e path.new s result ≡ root_of (bld atoms.old e path.old s builder) k place }
{
    if builder.places <= builder.atoms {
        return builder.refused(ATOM_ROOM, place);
    }
    let held = builder.entries;
    enter(atoms, path, builder, k, held)
}

// A new atom and the two entries of its bond.
#[tactic(auto, unfolding(crate::specs::State::bonded, crate::specs::State::last_of))]
fn attach(
    atoms: &mut [u32],
    entries: &mut [u32],
    path: &mut [u32],
    builder: Builder,
    k: BondKind,
    t: AtomKind,
) -> Builder
    requires { SmallCounts builder × (0 < builder.top) }
    ensures { (s : List ℕ) → bld atoms.new entries.new path.new s result
        ≡ entered (bonded (bld atoms.old entries.old path.old s builder) k) t (builder.entries + 2) }
{
    let e = builder.entries;
    let n = builder.atoms as u32;
    let source = look(path, builder.top - 1);
    put_bond(entries, e, source, code(k), n, code(reverse(k)));
    enter(atoms, path, builder, t, e + 2)
}

// A new atom, its mark turned, bonded to the current one.
#[tactic(auto, unfolding(crate::specs::State::extend_of, crate::specs::State::extended_by, crate::specs::State::refuse))]
pub fn extend(
    atoms: &mut [u32],
    entries: &mut [u32],
    path: &mut [u32],
    builder: Builder,
    k: BondKind,
    t: AtomKind,
    place: usize,
) -> Builder
    requires { SmallCounts builder }
    ensures { (s : List ℕ) → bld atoms.new entries.new path.new s result
        ≡ extend_of (bld atoms.old entries.old path.old s builder) k t place }
{
    if builder.top == 0 {
        return builder.refused(NO_ATOM, 0);
    }
    if builder.places <= builder.atoms {
        return builder.refused(ATOM_ROOM, place);
    }
    if builder.slots < builder.entries + 2 {
        return builder.refused(BOND_ROOM, place);
    }
    let n = builder.atoms;
    match invert(t) {
        None => builder.refused(INVERSION, n),
        Some(turned) => attach(atoms, entries, path, builder, k, turned),
    }
}

// A free ring number opens an entry.
#[tactic(auto, unfolding(crate::specs::State::opened_of, crate::specs::State::last_of))]
fn open_ring(
    entries: &mut [u32],
    path: &[u32],
    rings: &mut [u32],
    builder: Builder,
    k: BondKind,
    number: usize,
) -> Builder
    requires { SmallCounts builder × (0 < builder.top) × (number < ring_number_count) }
    ensures { (a : List ℕ) → bld a entries.new path.now rings.new result
        ≡ opened_of (bld a entries.old path.now rings.old builder) k number }
{
    let e = builder.entries;
    let source = look(path, builder.top - 1);
    put_entry(entries, e, source, code(k), OPEN + builder.joins as u32);
    rejoin(rings, number, (e + 1) as u32);
    builder.joined()
}

// The entries of a closed ring bond: the opening one filled, and one at the closing atom.
fn close_entries(
    entries: &mut [u32],
    w: usize,
    e: usize,
    left: BondKind,
    closing: u32,
    right: BondKind,
    opening: u32,
)
    requires { (w ≤ 2 ^ 40) × (e ≤ 2 ^ 32) }
    ensures { entries.new
        ≡ sets (sets entries.old (w + 1) (code_of left ∷ closing ∷ [])) (e * entry_words)
        (entry_list closing (code_of right) opening) }
{
    poke(entries, w + 1, code(left));
    poke(entries, w + 2, closing);
    put_entry(entries, e, closing, code(right), opening);
}

// The second use of a ring number: `held` is one more than the place of the entry that it opened.
fn close_ring(
    entries: &mut [u32],
    path: &[u32],
    rings: &mut [u32],
    builder: Builder,
    k: BondKind,
    number: usize,
    held: u32,
    place: usize,
) -> Builder
    requires { SmallCounts builder × (0 < builder.top) × (number < ring_number_count) × (0 < held) × (held ≡ slice_index rings.old number) }
    ensures { (a : List ℕ) → bld a entries.new path.now rings.new result
        ≡ closed_by (bld a entries.old path.now rings.old builder) number place
        (reconcile_of (opening_kind (bld a entries.old path.now rings.old builder) number) k) }
{
    let w = (held as usize - 1) * ENTRY_WORDS;
    let opening = look(entries, w);
    let left = sure_kind(look(entries, w + 1));
    let closing = look(path, builder.top - 1);
    match reconcile(left, k) {
        None => {
            rejoin(rings, number, 0);
            builder.fail(closing, opening)
        }
        Some((l, r)) => {
            let e = builder.entries;
            if builder.slots < e + 1 {
                return builder.refused(BOND_ROOM, place);
            }
            close_entries(entries, w, e, l, closing, r, opening);
            rejoin(rings, number, 0);
            builder.joined()
        }
    }
}

// A ring number at the current atom.
#[tactic(auto, unfolding(crate::specs::State::join_of, crate::specs::State::refuse))]
pub fn join(
    entries: &mut [u32],
    path: &[u32],
    rings: &mut [u32],
    builder: Builder,
    k: BondKind,
    number: usize,
    place: usize,
) -> Builder
    requires { SmallCounts builder × (number < ring_number_count) }
    ensures { (a : List ℕ) → bld a entries.new path.now rings.new result
        ≡ join_of (bld a entries.old path.now rings.old builder) k number place }
{
    if builder.top == 0 {
        return builder.refused(NO_ATOM, 0);
    }
    let held = look(rings, number);
    if held == 0 {
        if builder.slots < builder.entries + 1 {
            return builder.refused(BOND_ROOM, place);
        }
        return open_ring(entries, path, rings, builder, k, number);
    }
    close_ring(entries, path, rings, builder, k, number, held, place)
}
