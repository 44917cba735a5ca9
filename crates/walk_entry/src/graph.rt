// A graph as a walk asks for it. Words that stand for no atom or bond were refused before; here they are a star, and an elided
// bond, so that no call asks what the tables hold.
ghost use Rattle.std.specs.Prelude.{◌≡◌, ◌+◌, ◌*◌, ◌^◌, ◌<◌, get_or};
ghost use Rattle.table.specs.Records.{bond_words};
ghost use Rattle.feature.specs.Bonds.{same_kind};
ghost use Rattle.walk_entry.specs.Graph.{seen, kind_at, degree_at, bond_of};

use feature::atom_kind::AtomKind;
use feature::bond_kind::{BondKind, sure_kind};
use packing::load;
use table::{ATOM_WORDS, BOND_WORDS, DEGREE, look};

// The tables of a graph: how many atoms, their records, all bond entries, and where each atom's entries begin among these.
#[derive(Clone, Copy)]
pub struct Graph<'a> {
    pub size: usize,
    pub atoms: &'a [u32],
    pub bonds: &'a [u32],
    pub first: &'a [u32],
}

impl<'a> Graph<'a> {
    #[tactic(auto, unfolding(crate::specs::Graph::kind_in, crate::specs::Graph::kind_or))]
    pub fn kind_at(self, a: u32) -> AtomKind
        ensures { result ≡ kind_at (seen self.entry) a }
    {
        load(self.atoms, a as usize * ATOM_WORDS).unwrap_or(AtomKind::Star)
    }

    // How many bond entries an atom has.
    pub fn degree_at(self, a: u32) -> u32
        ensures { result ≡ degree_at (seen self.entry) a }
    {
        look(self.atoms, a as usize * ATOM_WORDS + DEGREE)
    }

    // Where the entry i of an atom is.
    pub fn entry_at(self, a: u32, i: u32) -> usize
        ensures { (result ≡ (get_or self.entry.first.now a 0 + i) * bond_words) × (result < 2 ^ 34) }
    {
        (look(self.first, a as usize) as usize + i as usize) * BOND_WORDS
    }

    // The kind of the entry i of an atom, and its target: most of a walk asks for one of them.
    #[tactic(auto, unfolding(crate::specs::Graph::bond_in))]
    pub fn bond_kind_at(self, a: u32, i: u32) -> BondKind
        ensures { result ≡ (bond_of (seen self.entry) a i).kind }
    {
        sure_kind(look(self.bonds, self.entry_at(a, i)))
    }

    #[tactic(auto, unfolding(crate::specs::Graph::bond_in))]
    pub fn target_at(self, a: u32, i: u32) -> u32
        ensures { result ≡ (bond_of (seen self.entry) a i).to }
    {
        look(self.bonds, self.entry_at(a, i) + 1)
    }
}

// Derived equality, and what the definitions say of it: that two kinds have one number.
#[tactic(auto, using(feature::proofs::Bonds::alike, feature::proofs::Bonds::apart))]
pub fn same_kind(j: BondKind, k: BondKind) -> bool
    ensures { result ≡ same_kind j k }
{
    j == k
}
