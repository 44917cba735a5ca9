// Whether the joins of a state agree with its entries and its ring numbers.
ghost use Rattle.std.specs.Prelude.{◌≡◌, ◌<◌, ◌≤◌, length};
ghost use Rattle.feature.specs.Every.{every};
ghost use Rattle.table.specs.Limits.{bond_limit, ring_number_count};
ghost use Rattle.desk_state.specs.Standing.{is_later, is_apart, open_rings, joins_stand};

use crate::entry::Entry;
use builder::builder::{Builder, OPEN};
use table::limits::RING_NUMBER_COUNT;

// Whether the joins of the open ones among the first n entries rise.
pub fn joins_rise(entries: &[u32], n: usize) -> bool
    requires { n ≤ bond_limit }
    ensures { result ≡ every (is_later entries.now) n }
{
    (0..n)
        .map(|i| Entry::at(entries, i).target)
        .filter(|target| OPEN <= *target)
        .is_sorted_by(|one, next| one < next)
}

// Whether no ring number before n leads where n does.
pub fn leads_alone(rings: &[u32], n: usize) -> bool
    requires { n < length rings.now }
    ensures { result ≡ every (is_apart rings.now n) n }
{
    !rings[..n].contains(&rings[n])
}

// How many ring numbers are open.
fn open_rings(rings: &[u32]) -> usize
    ensures { result ≡ open_rings rings.now ring_number_count }
{
    rings
        .iter()
        .take(RING_NUMBER_COUNT)
        .filter(|ring| **ring != 0)
        .count()
}

// Whether the joins, and one more for each open ring number, are at most two for each entry.
#[tactic(auto, unfolding(crate::specs::Standing::joins_stand))]
pub fn joins_stand(builder: Builder, rings: &[u32]) -> bool
    requires { builder.entries ≤ bond_limit }
    ensures { result ≡ joins_stand builder rings.now }
{
    builder.joins.saturating_add(open_rings(rings)) <= builder.entries * 2
}
