// The single events of a writer with their refusals, in the order 18, 19, 13, 16. A refused event changes nothing.
ghost use Rattle.std.specs.Prelude.{◌≡◌, length, ◌≤◌};
ghost use Rattle.spell.specs.Spell.{atom_text, bond_text, rnum_text};
ghost use Rattle.writer.specs.Line.{Event, dot_text};
ghost use Rattle.writer.specs.Tables.{told_with, event_of};
ghost use Rattle.writer.specs.Steps.{LineNear};
ghost use Rattle.writer.specs.Lent.{spoken_in, at_after, SameLine};

use crate::{Line, Writer, WriterError};
use feature::atom_kind::AtomKind;
use feature::bond_kind::BondKind;
use spell::{spell_atom, spell_bond, spell_rnum};

// How many bytes an atom's text has.
fn atom_len(k: AtomKind) -> usize
    ensures { (result ≡ length (atom_text k)) × (result ≤ 21) }
{
    let mut none = [0u8; 1];
    spell_atom(&mut none, k)
}

fn bond_len(k: BondKind) -> usize
    ensures { (result ≡ length (bond_text k)) × (result ≤ 1) }
{
    let mut none = [0u8; 1];
    spell_bond(&mut none, k)
}

fn rnum_len(n: u32) -> usize
    ensures { (result ≡ length (rnum_text n)) × (result ≤ 3) }
{
    let mut none = [0u8; 1];
    spell_rnum(&mut none, n)
}

#[tactic(auto, unfolding(crate::specs::Line::dot_text))]
fn dot_len(pieces: usize) -> usize
    ensures { (result ≡ length (dot_text pieces)) × (result ≤ 1) }
{
    if pieces == 0 { 0 } else { 1 }
}

impl Line<'_> {
    #[tactic(auto, unfolding(crate::specs::Tables::event_of, crate::specs::Tables::fitting, crate::specs::Tables::say_t, crate::specs::Tables::piece_t, crate::specs::Tables::added, crate::specs::Lent::at_after))]
    pub fn root(&mut self, k: AtomKind) -> Result<Writer, WriterError>
        requires { LineNear self.old.at }
        ensures told { told_with result self.new.out.now self.new.starts.now
            ≡ event_of (spoken_in self.old) (Event.Root k) }
        ensures state { self.new.at ≡ at_after self.old.at result }
        ensures same { SameLine self.old self.new }
    {
        let pieces = self.at.pieces;
        if self.piece_room() <= pieces {
            return Err(WriterError::AtomRoom(pieces));
        }
        let need = self.at.len + dot_len(pieces) + atom_len(k);
        if self.out.len() < need {
            return Err(WriterError::OutRoom(need));
        }
        self.say_root(k);
        Ok(self.at)
    }

    #[tactic(auto, unfolding(crate::specs::Tables::event_of, crate::specs::Tables::fitting, crate::specs::Tables::say_t, crate::specs::Tables::piece_t, crate::specs::Tables::added, crate::specs::Lent::at_after))]
    pub fn extend(&mut self, b: BondKind, k: AtomKind) -> Result<Writer, WriterError>
        requires { LineNear self.old.at }
        ensures told { told_with result self.new.out.now self.new.starts.now
            ≡ event_of (spoken_in self.old) (Event.Extend b k) }
        ensures state { self.new.at ≡ at_after self.old.at result }
        ensures same { SameLine self.old self.new }
    {
        let pieces = self.at.pieces;
        if self.piece_room() <= pieces {
            return Err(WriterError::AtomRoom(pieces));
        }
        let need = self.at.len + bond_len(b) + atom_len(k);
        if self.out.len() < need {
            return Err(WriterError::OutRoom(need));
        }
        self.say_extend(b, k);
        Ok(self.at)
    }

    #[tactic(auto, unfolding(crate::specs::Tables::event_of, crate::specs::Tables::fitting, crate::specs::Tables::say_t, crate::specs::Tables::join_t, crate::specs::Tables::lengthened, crate::specs::Lent::at_after))]
    pub fn join(&mut self, b: BondKind, n: u32) -> Result<Writer, WriterError>
        requires { LineNear self.old.at }
        ensures told { told_with result self.new.out.now self.new.starts.now
            ≡ event_of (spoken_in self.old) (Event.Join b n) }
        ensures state { self.new.at ≡ at_after self.old.at result }
        ensures same { SameLine self.old self.new }
    {
        if self.at.pieces == 0 {
            return Err(WriterError::NoPiece);
        }
        let need = self.at.len + bond_len(b) + rnum_len(n);
        if self.out.len() < need {
            return Err(WriterError::OutRoom(need));
        }
        self.say_join(b, n);
        Ok(self.at)
    }

    #[tactic(auto, unfolding(crate::specs::Tables::event_of, crate::specs::Tables::fitting, crate::specs::Tables::say_t, crate::specs::Tables::pop_t, crate::specs::Tables::wrap_t, crate::specs::Lent::at_after))]
    pub fn pop(&mut self, d: usize) -> Result<Writer, WriterError>
        requires { LineNear self.old.at }
        ensures told { told_with result self.new.out.now self.new.starts.now
            ≡ event_of (spoken_in self.old) (Event.Pop d) }
        ensures state { self.new.at ≡ at_after self.old.at result }
        ensures same { SameLine self.old self.new }
    {
        if self.at.pieces <= d {
            return Err(WriterError::Overpop);
        }
        let need = self.at.len + 2;
        if self.out.len() < need {
            return Err(WriterError::OutRoom(need));
        }
        self.say_pop(d);
        Ok(self.at)
    }
}
