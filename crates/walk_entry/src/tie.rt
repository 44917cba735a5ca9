// The entries of two atoms for each other, where a bond leads to an atom met before.
ghost use Rattle.std.specs.Prelude.{◌≡◌};
ghost use Rattle.walk_entry.specs.Graph.{seen};
ghost use Rattle.walk_entry.specs.Ties.{tie_of};
ghost use Rattle.walk_entry.specs.Steps.{is_twice};

use crate::WalkError;
use crate::entry::{Back, scan_back};
use crate::graph::{Graph, same_kind};
use feature::bond_kind::{BondKind, reverse};

// Whether there are two.
#[tactic(auto, unfolding(crate::specs::Steps::is_twice))]
fn is_twice(b: Back) -> bool
    ensures { result ≡ is_twice b }
{
    matches!(b, Back::Twice)
}

// What the entries of s and t for each other say of a bond of kind k from s to an atom t met before: each holds one, the
// reverse of the other.
#[tactic(auto, using(crate::proofs::Ties::tie_scans), unfolding(crate::specs::Steps::tied_by))]
pub fn find_tie(g: Graph<'_>, k: BondKind, s: u32, t: u32) -> Result<u32, WalkError>
    ensures { result ≡ tie_of (seen g.entry) k s t }
{
    let twice = is_twice(scan_back(g, s, t, false, g.degree_at(s)));
    match scan_back(g, t, s, false, g.degree_at(t)) {
        Back::Fixed | Back::Twice => Err(WalkError::DuplicateBond(s, t)),
        Back::Found(0) => Err(WalkError::HalfBond(s, t)),
        Back::Found(_) if twice => Err(WalkError::DuplicateBond(s, t)),
        Back::Found(b) => {
            let kind = g.bond_kind_at(t, b - 1);
            if same_kind(kind, reverse(k)) {
                return Ok(b);
            }
            Err(WalkError::IncompatibleBond(t, s))
        }
    }
}
