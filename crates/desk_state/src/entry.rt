// An entry of a state: a bond as one of its atoms holds it, all as numbers.
ghost use Rattle.std.specs.Prelude.{◌≡◌, ◌^◌, ◌<◌, leb};
ghost use Rattle.feature.specs.Bonds.{kind_of};
ghost use Rattle.builder.specs.State.{unclosed};
ghost use Rattle.desk_state.specs.Standing.{source_at, entry_kind_at, target_at, turned_of, is_own};

use builder::builder::{ENTRY_WORDS, OPEN};
use feature::bond_kind::{code, decode, reverse};
use table::look;

// Where the words of an entry are.
pub const SOURCE: usize = 0;

pub const KIND: usize = 1;

pub const TARGET: usize = 2;

#[derive(Clone, Copy)]
pub struct Entry {
    pub source: u32,
    pub kind: u32,
    pub target: u32,
}

// The number of a kind from the other end, or 0, which is no kind's, as the definition has it.
#[tactic(auto, unfolding(crate::specs::Standing::turned_of))]
fn turned(n: u32) -> u32
    ensures { result ≡ turned_of (kind_of n) }
{
    match decode(n) {
        Some(k) => code(reverse(k)),
        None => 0,
    }
}

impl Entry {
    // Entry i.
    pub fn at(entries: &[u32], i: usize) -> Entry
        requires { i < 2 ^ 32 }
        ensures source { result.source ≡ source_at entries.now i }
        ensures kind { result.kind ≡ entry_kind_at entries.now i }
        ensures target { result.target ≡ target_at entries.now i }
    {
        let at = i * ENTRY_WORDS;
        Entry {
            source: look(entries, at + SOURCE),
            kind: look(entries, at + KIND),
            target: look(entries, at + TARGET),
        }
    }

    // Whether its join is open: then it is no bond yet.
    pub fn is_open(self) -> bool
        ensures { result ≡ leb unclosed self.target }
    {
        OPEN <= self.target
    }

    // The bond as its other atom holds it.
    pub fn reversed(self) -> Entry
        ensures source { result.source ≡ self.target }
        ensures kind { result.kind ≡ turned_of (kind_of self.kind) }
        ensures target { result.target ≡ self.source }
    {
        Entry {
            source: self.target,
            kind: turned(self.kind),
            target: self.source,
        }
    }

    // Whether the bond is its own reverse.
    #[tactic(auto, unfolding(crate::specs::Standing::is_own))]
    pub fn is_own(self) -> bool
        ensures { result ≡ is_own self.source self.kind self.target }
    {
        self.source == self.target && self.kind == turned(self.kind)
    }
}
