// What the reader says to the builder. Once a join has failed the reading goes on for 1, 2, 10 and 15 only: from then on
// atoms are counted and their marks judged, and nothing is stored.
ghost use Rattle.std.specs.Prelude.{◌≡◌, List, ℕ, ◌+◌, ◌<◌};
ghost use Rattle.table.specs.Limits.{ring_number_count};
ghost use Rattle.builder.specs.State.{bld};
ghost use Rattle.builder.specs.Steps.{SmallCounts};
ghost use Rattle.read_line.specs.Events.{counted_st, unstored_of, missing_st, enter_of, ring_of};

use crate::lead::Lead;
use builder::builder::{Builder, extend, join, root};
use desk_numbers::{CHARACTER, END_OF_LINE, INVERSION};
use feature::atom_kind::{AtomKind, invert};
use feature::bond_kind::BondKind;
use read_token::scanner::Missing;

// One atom more, not stored.
fn count(mut builder: Builder) -> Builder
    requires { SmallCounts builder }
    ensures { result ≡ counted_st builder }
{
    builder.atoms += 1;
    builder
}

// An atom after a failed join.
#[tactic(auto, unfolding(crate::specs::Events::unstored_of, crate::specs::Events::mark_judged))]
fn put_unstored(builder: Builder, lead: Lead, k: AtomKind) -> Builder
    requires { SmallCounts builder }
    ensures { result ≡ unstored_of builder lead k }
{
    match lead {
        Lead::Dot => count(builder),
        Lead::Bond(_) => {
            let n = builder.atoms;
            match invert(k) {
                None => builder.refused(INVERSION, n),
                Some(_) => count(builder),
            }
        }
    }
}

// An atom, by what leads it in.
#[tactic(auto, unfolding(crate::specs::Events::enter_of, crate::specs::Events::led_of))]
pub fn put_atom(
    atoms: &mut [u32],
    entries: &mut [u32],
    path: &mut [u32],
    builder: Builder,
    lead: Lead,
    k: AtomKind,
    place: usize,
) -> Builder
    requires { SmallCounts builder }
    ensures { (s : List ℕ) → bld atoms.new entries.new path.new s result
        ≡ enter_of (bld atoms.old entries.old path.old s builder) lead k place }
{
    if builder.failed.is_some() {
        return put_unstored(builder, lead, k);
    }
    match lead {
        Lead::Dot => root(atoms, path, builder, k, place),
        Lead::Bond(bond) => extend(atoms, entries, path, builder, bond, k, place),
    }
}

// A ring number at the current atom.
#[tactic(auto, unfolding(crate::specs::Events::ring_of))]
pub fn put_ring(
    entries: &mut [u32],
    path: &[u32],
    rings: &mut [u32],
    builder: Builder,
    k: BondKind,
    number: usize,
    place: usize,
) -> Builder
    requires { SmallCounts builder × (number < ring_number_count) }
    ensures { (a : List ℕ) → bld a entries.new path.now rings.new result
        ≡ ring_of (bld a entries.old path.now rings.old builder) k number place }
{
    if builder.failed.is_some() {
        return builder;
    }
    join(entries, path, rings, builder, k, number, place)
}

// Something is missing: 1 or 2.
#[tactic(auto, unfolding(crate::specs::Events::missing_st))]
pub fn put_missing(builder: Builder, m: Missing) -> Builder
    ensures { result ≡ missing_st builder m }
{
    match m {
        Missing::EndOfLine => builder.refused(END_OF_LINE, 0),
        Missing::Character(place) => builder.refused(CHARACTER, place),
    }
}
