// Texts laid from a place of the output on: the part of the output from there is lent to the spelling function. A byte that
// finds no room is not laid and still counted.
ghost use Rattle.std.specs.Prelude.{◌≡◌, [], ◌∷◌, ◌+◌, ◌-◌, ◌≤◌, ◌<◌};
ghost use Rattle.std.proofs.lemmas.List.Edits.{sets};
ghost use Rattle.spell.specs.Spell.{Laid, atom_text, bond_text, rnum_text};
ghost use Rattle.writer.specs.Line.{wrapped};
ghost use Rattle.writer.specs.Tables.{far, bytes_from};

use feature::atom_kind::AtomKind;
use feature::bond_kind::BondKind;
use spell::{put, spell_atom, spell_bond, spell_rnum};
use table::limits::lesser;

pub fn lay_atom(out: &mut [u8], at: usize, k: AtomKind) -> usize
    requires { at < far + 100 }
    ensures { Laid 21 out.old at (atom_text k) out.new result }
{
    let free = lesser(out.len(), at);
    at + spell_atom(&mut out[free..], k)
}

pub fn lay_bond(out: &mut [u8], at: usize, k: BondKind) -> usize
    requires { at < far + 100 }
    ensures { Laid 1 out.old at (bond_text k) out.new result }
{
    let free = lesser(out.len(), at);
    at + spell_bond(&mut out[free..], k)
}

pub fn lay_rnum(out: &mut [u8], at: usize, n: u32) -> usize
    requires { at < far + 100 }
    ensures { Laid 3 out.old at (rnum_text n) out.new result }
{
    let free = lesser(out.len(), at);
    at + spell_rnum(&mut out[free..], n)
}

// A byte put at a place, and the bytes from there up to the end moved one place on.
#[tactic(auto, using(table::proofs::Stores::sets_out))]
fn insert(out: &mut [u8], at: usize, end: usize, b: u8)
    requires { (at ≤ end) × (end < far) }
    ensures { out.new ≡ sets out.old at (b ∷ bytes_from at (end - at) out.old) }
{
    if at < out.len() {
        let stop = out.len().min(end + 1);
        out.copy_within(at..stop - 1, at + 1);
        out[at] = b;
    }
}

// The bytes from a place up to the end put in brackets.
pub fn wrap(out: &mut [u8], at: usize, end: usize)
    requires { (at ≤ end) × (end < far) }
    ensures { out.new ≡ sets out.old at (wrapped (bytes_from at (end - at) out.old)) }
{
    insert(out, at, end, b'(');
    put(out, end + 1, b')');
}
