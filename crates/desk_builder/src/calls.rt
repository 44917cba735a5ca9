// The builder's start, its single calls and its build. Any tables and any numbers may be handed in. Each is judged first; a
// refused event changes nothing but the refusal, a refused build leaves zeros in both tables.
//
// The tables stay parameters, and no struct of what is lent: each exported call (mavisdrok_builder_root and so on) lends them
// with other rights, and what it lends to be read only is no slice that can be written.
ghost use Rattle.std.specs.Prelude.{◌≡◌};
ghost use Rattle.builder.specs.State.{bld};
ghost use Rattle.desk_builder.specs.Events.{start_d, root_d, extend_d, join_d, pop_d};
ghost use Rattle.desk_builder.specs.Build.{answer_leaves, refused_as, built_answered, build_d};

use builder::build::BuildError;
use builder::builder::{Builder, ENTRY_WORDS};
use desk_numbers::BAD_TABLE;
use desk_state::state::is_state;
use feature::atom_kind::{AtomKind, in_range};
use feature::bond_kind::BondKind;
use table::limits::{ATOMS, BONDS, RING_NUMBER_COUNT, atom_room, lesser};
use table::{ATOM_WORDS, BOND_WORDS, clear};

// Why a build is refused. The desk's numbers, in order: 3, 4, 17.
#[derive(Clone, Copy, Debug, PartialEq, Eq)]
pub enum Refusal {
    // Closing atom, opening atom.
    Join(u32, u32),
    // The number of the join.
    Rnum(u32),
    // It carries 0: the state is judged as a whole.
    BadTable,
}

// A builder that has seen no event: its room is the lesser of each limit and what was lent, and every ring number is free. A
// path with no word for each atom that there is room for, or fewer than a hundred words for the ring numbers, hold no state.
pub fn start(atoms: &[u32], entries: &[u32], path: &[u32], rings: &mut [u32]) -> Builder
    ensures { bld atoms.now entries.now path.now rings.new result
        ≡ start_d atoms.now entries.now path.now rings.old }
{
    let places = atom_room(atoms);
    let slots = lesser(BONDS, entries.len() / ENTRY_WORDS);
    let b = Builder::start(places, slots);
    if path.len() < places || rings.len() < RING_NUMBER_COUNT {
        return b.refused(BAD_TABLE, 0);
    }
    clear(rings);
    b
}

// A first atom of a component.
#[tactic(auto, unfolding(crate::specs::Events::root_d, crate::specs::Events::judged, crate::specs::Events::anew, builder::specs::State::refuse))]
pub fn root(
    atoms: &mut [u32],
    entries: &[u32],
    path: &mut [u32],
    rings: &[u32],
    builder: Builder,
    k: AtomKind,
) -> Builder
    ensures { bld atoms.new entries.now path.new rings.now result
        ≡ root_d (bld atoms.old entries.now path.old rings.now builder) k }
{
    if !in_range(k) || !is_state(atoms, entries, path, rings, builder) {
        return builder.refused(BAD_TABLE, 0);
    }
    let held = builder.atoms;
    builder::builder::root(atoms, path, builder.refused(0, 0), k, held)
}

// A new atom, bonded to the current one.
#[tactic(auto, unfolding(crate::specs::Events::extend_d, crate::specs::Events::judged, crate::specs::Events::anew, builder::specs::State::refuse))]
pub fn extend(
    atoms: &mut [u32],
    entries: &mut [u32],
    path: &mut [u32],
    rings: &[u32],
    builder: Builder,
    k: BondKind,
    t: AtomKind,
) -> Builder
    ensures { bld atoms.new entries.new path.new rings.now result
        ≡ extend_d (bld atoms.old entries.old path.old rings.now builder) k t }
{
    if !in_range(t) || !is_state(atoms, entries, path, rings, builder) {
        return builder.refused(BAD_TABLE, 0);
    }
    let held = builder.atoms;
    builder::builder::extend(atoms, entries, path, builder.refused(0, 0), k, t, held)
}

// A ring number at the current atom.
#[tactic(auto, unfolding(crate::specs::Events::join_d, crate::specs::Events::judged, crate::specs::Events::anew, builder::specs::State::refuse))]
pub fn join(
    atoms: &[u32],
    entries: &mut [u32],
    path: &[u32],
    rings: &mut [u32],
    builder: Builder,
    k: BondKind,
    number: usize,
) -> Builder
    ensures { bld atoms.now entries.new path.now rings.new result
        ≡ join_d (bld atoms.now entries.old path.now rings.old builder) k number }
{
    if RING_NUMBER_COUNT <= number || !is_state(atoms, entries, path, rings, builder) {
        return builder.refused(BAD_TABLE, 0);
    }
    let held = builder.atoms;
    builder::builder::join(entries, path, rings, builder.refused(0, 0), k, number, held)
}

// So many atoms off the path. A pop beyond it empties it.
#[tactic(auto, unfolding(crate::specs::Events::pop_d, crate::specs::Events::judged, crate::specs::Events::anew, builder::specs::State::refuse, builder::specs::State::pop_of))]
pub fn pop(
    atoms: &[u32],
    entries: &[u32],
    path: &[u32],
    rings: &[u32],
    builder: Builder,
    n: usize,
) -> Builder
    ensures { bld atoms.now entries.now path.now rings.now result
        ≡ pop_d (bld atoms.now entries.now path.now rings.now builder) n }
{
    if !is_state(atoms, entries, path, rings, builder) {
        return builder.refused(BAD_TABLE, 0);
    }
    builder.refused(0, 0).pop(n)
}

impl From<BuildError> for Refusal {
    ghost from_gives = { λ e r. r ≡ refused_as e };

    fn from(e: BuildError) -> Refusal {
        match e {
            BuildError::Join(closing, opening) => Refusal::Join(closing, opening),
            BuildError::Rnum(number) => Refusal::Rnum(number),
        }
    }
}

#[tactic(auto, unfolding(crate::specs::Build::built_answered))]
fn called(r: Result<(), BuildError>, builder: Builder) -> Result<(usize, usize), Refusal>
    ensures { result ≡ built_answered r builder.atoms builder.entries }
{
    r?;
    Ok((builder.atoms, builder.entries))
}

// The graph in its final form: each atom's entries together, their number in its record, zeros after the last of both. The
// table of bonds needs room for the entries held. A refused build leaves zeros in both tables. `starts` is work room. How many
// atoms and bond entries there are.
pub fn build(
    atoms: &mut [u32],
    bonds: &mut [u32],
    entries: &[u32],
    path: &[u32],
    rings: &[u32],
    builder: Builder,
) -> Result<(usize, usize), Refusal>
    ensures { answer_leaves result atoms.new bonds.new
        ≡ build_d (bld atoms.old entries.now path.now rings.now builder) bonds.old }
{
    if !is_state(atoms, entries, path, rings, builder)
        || bonds.len() < builder.entries * BOND_WORDS
    {
        clear(atoms);
        clear(bonds);
        return Err(Refusal::BadTable);
    }
    let end = builder.atoms * ATOM_WORDS;
    clear(&mut atoms[end..]);
    let mut starts = [0u32; ATOMS];
    let r = builder::build::build(atoms, bonds, entries, &mut starts, builder);
    called(r, builder)
}
