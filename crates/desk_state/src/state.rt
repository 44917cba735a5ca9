// Whether tables and the numbers beside them stand for a builder's state.
ghost use Rattle.std.specs.Prelude.{◌≡◌, ◌≤◌, ltb, true, length};
ghost use Rattle.feature.specs.Bonds.{kind_of};
ghost use Rattle.table.specs.Limits.{atom_limit, bond_limit, ring_number_count};
ghost use Rattle.builder.specs.State.{bld};
ghost use Rattle.feature.specs.Every.{every};
ghost use Rattle.packing.specs.Words.{is_atom};
ghost use Rattle.desk_state.specs.Standing.{is_kind, is_target, is_builder_entry, is_step, is_ring, counts_stand, failure_stands, is_state};
ghost use Rattle.desk_state.specs.Steps.{Between};

use crate::entry::Entry;
pub use crate::entry::{KIND, TARGET};
use crate::joins::{joins_rise, joins_stand, leads_alone};
use crate::pairs::pairs_stand;
use builder::builder::{Builder, ENTRY_WORDS, OPEN};
use feature::bond_kind::decode;
use packing::is_atom;
use table::limits::{BONDS, RING_NUMBER_COUNT, atom_room, lesser};
use table::look;

fn atoms_stand(atoms: &[u32], n: usize) -> bool
    requires { n ≤ atom_limit }
    ensures { result ≡ every (is_atom atoms.now) n }
{
    (0..n).all(|i| is_atom(atoms, i))
}

#[tactic(auto, unfolding(crate::specs::Standing::is_kind))]
fn is_kind(n: u32) -> bool
    ensures { result ≡ is_kind (kind_of n) }
{
    decode(n).is_some()
}

fn is_below(n: u32, most: usize) -> bool
    ensures { result ≡ ltb n most }
{
    (n as usize) < most
}

#[tactic(auto, unfolding(crate::specs::Standing::is_target))]
fn is_target(builder: Builder, target: u32) -> bool
    ensures { result ≡ is_target builder target }
{
    if target < OPEN {
        is_below(target, builder.atoms)
    } else {
        is_below(target - OPEN, builder.joins)
    }
}

#[tactic(auto, unfolding(crate::specs::Standing::is_builder_entry))]
fn is_entry(builder: Builder, entries: &[u32], i: usize) -> bool
    requires { i ≤ bond_limit }
    ensures { result ≡ is_builder_entry builder entries.now i }
{
    let entry = Entry::at(entries, i);
    is_below(entry.source, builder.atoms) && is_kind(entry.kind) && is_target(builder, entry.target)
}

fn entries_stand(builder: Builder, entries: &[u32], n: usize) -> bool
    requires { n ≤ bond_limit }
    ensures value { result ≡ every (is_builder_entry builder entries.now) n }
    ensures between { result ≡ true → builder.atoms ≤ atom_limit → Between entries.now n builder.atoms }
{
    (0..n).all(|i| is_entry(builder, entries, i))
}

fn steps_stand(builder: Builder, path: &[u32], n: usize) -> bool
    ensures { result ≡ every (is_step builder path.now) n }
{
    (0..n).all(|i| is_below(look(path, i), builder.atoms))
}

#[tactic(auto, unfolding(crate::specs::Standing::is_ring))]
fn is_ring(builder: Builder, entries: &[u32], rings: &[u32], n: usize) -> bool
    requires { builder.entries ≤ bond_limit }
    ensures { result ≡ is_ring builder entries.now rings.now n }
{
    let held = look(rings, n) as usize;
    held == 0
        || held <= builder.entries
            && Entry::at(entries, held - 1).is_open()
            && leads_alone(rings, n)
}

fn rings_stand(builder: Builder, entries: &[u32], rings: &[u32]) -> bool
    requires { builder.entries ≤ bond_limit }
    ensures { result ≡ every (is_ring builder entries.now rings.now) ring_number_count }
{
    (0..RING_NUMBER_COUNT).all(|n| is_ring(builder, entries, rings, n))
}

// The rooms and the counts, for what was lent.
#[tactic(auto, unfolding(crate::specs::Standing::counts_stand))]
fn counts_stand(
    builder: Builder,
    atoms: &[u32],
    entries: &[u32],
    path: &[u32],
    rings: &[u32],
) -> bool
    ensures value { result
        ≡ counts_stand builder (length atoms.now) (length entries.now) (length path.now) (length rings.now) }
    ensures few_atoms { result ≡ true → builder.atoms ≤ atom_limit }
    ensures few_entries { result ≡ true → builder.entries ≤ bond_limit }
{
    builder.places == atom_room(atoms)
        && builder.slots == lesser(BONDS, entries.len() / ENTRY_WORDS)
        && builder.places <= path.len()
        && RING_NUMBER_COUNT <= rings.len()
        && builder.atoms <= builder.places
        && builder.entries <= builder.slots
        && builder.top <= builder.atoms
}

#[tactic(auto, unfolding(crate::specs::Standing::failure_stands))]
fn failure_stands(builder: Builder) -> bool
    ensures { result ≡ failure_stands builder }
{
    match builder.failed {
        None => true,
        Some(failed) => {
            is_below(failed.closing, builder.atoms) && is_below(failed.opening, builder.atoms)
        }
    }
}

#[tactic(auto, unfolding(crate::specs::Standing::is_state))]
pub fn is_state(
    atoms: &[u32],
    entries: &[u32],
    path: &[u32],
    rings: &[u32],
    builder: Builder,
) -> bool
    ensures { result ≡ is_state (bld atoms.now entries.now path.now rings.now builder) }
{
    counts_stand(builder, atoms, entries, path, rings)
        && atoms_stand(atoms, builder.atoms)
        && entries_stand(builder, entries, builder.entries)
        && pairs_stand(entries, builder.entries, builder.atoms)
        && joins_rise(entries, builder.entries)
        && steps_stand(builder, path, builder.top)
        && rings_stand(builder, entries, rings)
        && joins_stand(builder, rings)
        && failure_stands(builder)
}
