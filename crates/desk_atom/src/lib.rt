// One atom as text, both ways, and the text of a bond and of a ring number, as single calls: any text and any numbers may be
// handed in. A text that is refused leaves zeros in the output.
#![tactic(auto)]

ghost use Rattle.std.specs.Prelude.{◌≡◌, length};
ghost use Rattle.spell.specs.Spell.{bond_text};
ghost use Rattle.desk_atom.specs.Texts.{tells_atom, first_atom, spelt, texted, atom_d, rnum_d};
ghost use Rattle.desk_atom.specs.Steps.{answered_length};

use feature::atom_kind::{AtomKind, in_range};
use feature::bond_kind::BondKind;
use read_token::scanner::{Missing, missing_character};
use table::clear_bytes;
use table::limits::RING_NUMBER_COUNT;

// Why no text is written.
#[derive(Clone, Copy, Debug, PartialEq, Eq)]
pub enum Refusal {
    // The bytes that the text needs.
    OutRoom(usize),
    // Numbers that stand for no atom and no ring number.
    BadTable,
}

// The atom that a text begins with, and the place after it.
#[tactic(auto, unfolding(crate::specs::Texts::first_atom, crate::specs::Texts::begins_by))]
pub fn read_atom(text: &[u8]) -> Result<(AtomKind, usize), Missing>
    ensures { tells_atom result ≡ first_atom text.now }
{
    match read_atom::read_atom::read_atom(text, 0) {
        Ok(Some((k, next))) => Ok((k, next)),
        Ok(None) => Err(missing_character(text, 0)),
        Err(m) => Err(m),
    }
}

// The answer after a text of so many bytes was written as far as there was room; with too little room the output is cleared.
#[tactic(auto, unfolding(crate::specs::Steps::answered_length))]
fn answer_length(out: &mut [u8], need: usize) -> Result<usize, Refusal>
    ensures { spelt result out.new ≡ answered_length out.old need }
{
    if out.len() < need {
        clear_bytes(out);
        return Err(Refusal::OutRoom(need));
    }
    Ok(need)
}

// An atom's text: how many bytes were written.
#[tactic(auto, unfolding(crate::specs::Texts::atom_d))]
pub fn spell_atom(out: &mut [u8], k: AtomKind) -> Result<usize, Refusal>
    ensures { spelt result out.new ≡ atom_d k (length out.old) }
{
    clear_bytes(out);
    if !in_range(k) {
        return Err(Refusal::BadTable);
    }
    let need = spell::spell_atom(out, k);
    answer_length(out, need)
}

// A bond's text: none where it is elided. A kind is one of eight names, so it always stands for a bond.
pub fn spell_bond(out: &mut [u8], k: BondKind) -> Result<usize, Refusal>
    ensures { spelt result out.new ≡ texted (bond_text k) (length out.old) }
{
    clear_bytes(out);
    let need = spell::spell_bond(out, k);
    answer_length(out, need)
}

// A ring number's text.
#[tactic(auto, unfolding(crate::specs::Texts::rnum_d))]
pub fn spell_rnum(out: &mut [u8], n: u32) -> Result<usize, Refusal>
    ensures { spelt result out.new ≡ rnum_d n (length out.old) }
{
    clear_bytes(out);
    if RING_NUMBER_COUNT <= n as usize {
        return Err(Refusal::BadTable);
    }
    let need = spell::spell_rnum(out, n);
    answer_length(out, need)
}
