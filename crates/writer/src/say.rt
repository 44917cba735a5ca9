// The events of a writer with nothing judged: a walk says them, and compares the length with the output once at its end.
ghost use Rattle.std.specs.Prelude.{◌≡◌, ◌≤◌, ◌<◌};
ghost use Rattle.spell.specs.Spell.{Laid};
ghost use Rattle.writer.specs.Line.{Event, dot_text};
ghost use Rattle.writer.specs.Tables.{far, piece_room, last_start, say_t};
ghost use Rattle.writer.specs.Steps.{LineNear, LineGrows};
ghost use Rattle.writer.specs.Lent.{spoken_in, SameLine};

use crate::lay::{lay_atom, lay_bond, lay_rnum, wrap};
use crate::{Line, Writer};
use feature::atom_kind::AtomKind;
use feature::bond_kind::BondKind;
use spell::put;
use table::limits::{ATOMS, lesser};
use table::{look, poke};

// What leads a root in.
#[tactic(auto, unfolding(crate::specs::Line::dot_text))]
fn lay_dot(out: &mut [u8], at: usize, pieces: usize) -> usize
    requires { at < far }
    ensures { Laid 1 out.old at (dot_text pieces) out.new result }
{
    if pieces == 0 { at } else { put(out, at, b'.') }
}

impl Line<'_> {
    // How many pieces there is room for.
    #[tactic(auto, unfolding(crate::specs::Tables::piece_room))]
    pub fn piece_room(&self) -> usize
        ensures { result ≡ piece_room self.now.starts.now }
    {
        lesser(ATOMS, self.starts.len())
    }

    #[tactic(auto, unfolding(crate::specs::Tables::say_t, crate::specs::Tables::piece_t, crate::specs::Tables::added))]
    pub fn say_root(&mut self, k: AtomKind)
        requires { LineNear self.old.at }
        ensures starts_after { spoken_in self.new ≡ say_t (spoken_in self.old) (Event.Root k) }
        ensures line_grows { LineGrows self.old.at self.new.at }
        ensures same { SameLine self.old self.new }
    {
        let Writer { pieces, len } = self.at;
        if self.piece_room() <= pieces {
            return;
        }
        let dotted = lay_dot(self.out, len, pieces);
        self.at.len = lay_atom(self.out, dotted, k);
        self.at.pieces = pieces + 1;
        poke(self.starts, pieces, len as u32);
    }

    #[tactic(auto, unfolding(crate::specs::Tables::say_t, crate::specs::Tables::piece_t, crate::specs::Tables::added))]
    pub fn say_extend(&mut self, b: BondKind, k: AtomKind)
        requires { LineNear self.old.at }
        ensures starts_after { spoken_in self.new ≡ say_t (spoken_in self.old) (Event.Extend b k) }
        ensures line_grows { LineGrows self.old.at self.new.at }
        ensures same { SameLine self.old self.new }
    {
        let Writer { pieces, len } = self.at;
        if self.piece_room() <= pieces {
            return;
        }
        let bonded = lay_bond(self.out, len, b);
        self.at.len = lay_atom(self.out, bonded, k);
        self.at.pieces = pieces + 1;
        poke(self.starts, pieces, len as u32);
    }

    #[tactic(auto, unfolding(crate::specs::Tables::say_t, crate::specs::Tables::join_t, crate::specs::Tables::lengthened))]
    pub fn say_join(&mut self, b: BondKind, n: u32)
        requires { LineNear self.old.at }
        ensures starts_after { spoken_in self.new ≡ say_t (spoken_in self.old) (Event.Join b n) }
        ensures line_grows { LineGrows self.old.at self.new.at }
        ensures same { SameLine self.old self.new }
    {
        if self.at.pieces == 0 {
            return;
        }
        let bonded = lay_bond(self.out, self.at.len, b);
        self.at.len = lay_rnum(self.out, bonded, n);
    }

    // Where the last d pieces start.
    #[tactic(auto, unfolding(crate::specs::Tables::last_start))]
    fn start_of(&self, d: usize) -> usize
        requires { d ≤ self.now.at.pieces }
        ensures { (result ≡ last_start self.now.starts.now self.now.at d) × (result ≤ self.now.at.len) }
    {
        if d == 0 {
            return self.at.len;
        }
        lesser(self.at.len, look(self.starts, self.at.pieces - d) as usize)
    }

    #[tactic(auto, unfolding(crate::specs::Tables::say_t, crate::specs::Tables::pop_t, crate::specs::Tables::wrap_t))]
    pub fn say_pop(&mut self, d: usize)
        requires { LineNear self.old.at }
        ensures starts_after { spoken_in self.new ≡ say_t (spoken_in self.old) (Event.Pop d) }
        ensures line_grows { LineGrows self.old.at self.new.at }
        ensures same { SameLine self.old self.new }
    {
        if self.at.pieces <= d {
            return;
        }
        let at = self.start_of(d);
        wrap(self.out, at, self.at.len);
        self.at.pieces -= d;
        self.at.len += 2;
    }
}
