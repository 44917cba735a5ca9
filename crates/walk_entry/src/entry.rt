// A new atom's entries back to the atom that it is reached from, and what they make of its mark.
ghost use Rattle.std.specs.Prelude.{◌≡◌};
ghost use Rattle.feature.specs.Kinds.{invert_of, turned_or};
ghost use Rattle.walk_entry.specs.Graph.{seen};
ghost use Rattle.walk_entry.specs.Ways.{is_fixed, even, said_as, scan_in, way_of};

use crate::WalkError;
use crate::graph::{Graph, same_kind};
use feature::atom_kind::{AtomKind, invert};
use feature::bond_kind::{BondKind, reverse};

// What a scan finds. `find_way` and `find_tie` end alike, but for the test between that only the second has.
//
// It is neither an Option nor a Result, since the two ways to fail refuse by different rules.
#[derive(Clone, Copy, Debug, PartialEq, Eq)]
pub enum Back {
    // The place of the one entry back, from 1, or 0 for none, as the walk's table keeps it. An Option would need a clause that the
    // place in it is not 0, for the subtraction in find_way and find_tie: the test for none says so here.
    Found(u32),
    // There are two.
    Twice,
    // The mark had to be turned, and can't be.
    Fixed,
}

// Whether a mark can't be turned.
#[tactic(auto, unfolding(crate::specs::Ways::is_fixed, crate::specs::Ways::is_refused))]
fn is_fixed(k: AtomKind) -> bool
    ensures { result ≡ is_fixed k }
{
    invert(k).is_none()
}

#[tactic(auto, unfolding(crate::specs::Ways::even))]
fn is_even(n: u32) -> bool
    ensures { result ≡ even n }
{
    n % 2 == 0
}

#[tactic(auto, unfolding(feature::specs::Kinds::turned_or))]
fn turned(k: AtomKind) -> AtomKind
    ensures { result ≡ turned_or k (invert_of k) }
{
    invert(k).unwrap_or(k)
}

// An atom as it is said, by the place, from 1, of its entry back to the atom that it was reached from: an even index turns
// its mark. 0 is a root's.
#[tactic(auto, unfolding(crate::specs::Ways::said_as))]
pub fn said_as(k: AtomKind, back: u32) -> AtomKind
    ensures { result ≡ said_as k back }
{
    if is_even(back) { k } else { turned(k) }
}

// The entries of the atom t from the last, of which there are n.
#[tactic(auto, using(crate::proofs::Entries::fixed_here, crate::proofs::Entries::twice_here, crate::proofs::Entries::found_here, crate::proofs::Entries::later, crate::proofs::Entries::at_end_lem))]
pub fn scan_back(g: Graph<'_>, t: u32, s: u32, fixed: bool, n: u32) -> Back
    ensures { result ≡ scan_in g.entry.bonds.now g.entry.first.now t s fixed n 0 }
{
    let mut back = 0;
    for i in (0..n).rev() {
        if g.target_at(t, i) == s {
            if fixed && is_even(i) {
                return Back::Fixed;
            }
            if back != 0 {
                return Back::Twice;
            }
            back = i + 1;
        }
    }
    Back::Found(back)
}

// What the entries of a new atom t say of a bond of kind k from s: the place, from 1, of the one back.
#[tactic(auto, unfolding(crate::specs::Ways::way_of, crate::specs::Ways::judged_back))]
pub fn find_way(g: Graph<'_>, k: BondKind, s: u32, t: u32) -> Result<u32, WalkError>
    ensures { result ≡ way_of (seen g.entry) k s t }
{
    match scan_back(g, t, s, is_fixed(g.kind_at(t)), g.degree_at(t)) {
        Back::Fixed => Err(WalkError::Inversion(t)),
        Back::Twice => Err(WalkError::DuplicateBond(s, t)),
        Back::Found(b) => {
            if b == 0 {
                return Err(WalkError::HalfBond(s, t));
            }
            let kind = g.bond_kind_at(t, b - 1);
            if same_kind(kind, reverse(k)) {
                return Ok(b);
            }
            Err(WalkError::IncompatibleBond(t, s))
        }
    }
}
