// One atom as text, both ways, and the text of a bond and of a ring number, with the answer in a report. An atom's kind is its
// two words, a bond's its number. A refused text leaves zeros in the output, a refused reading zeros for a kind. Words lent for
// a kind beyond its two are zeros after any reading; fewer than two are answered 17.
ghost use Rattle.std.specs.Prelude.{◌≡◌, length};
ghost use Rattle.std.proofs.lemmas.List.Edits.{sets};
ghost use Rattle.packing.specs.Words.{listed};
ghost use Rattle.table.specs.Zeros.{zeros};
ghost use Rattle.desk_atom.specs.Texts.{kinds_in, rnum_d};
ghost use Rattle.export.specs.Atom.{reading, read_kind_words, read_atom_x, spelling, text_reported, atom_x, bond_x};

use desk_report::answer::{Report, refuse};
use feature::atom_kind::AtomKind;
use feature::bond_kind::decode;
use packing::{Pair, kind, words};
use read_token::scanner::Missing;
use table::{clear, clear_bytes, poke};

// The words of a kind.
const KIND_WORDS: usize = 2;

// The words of the kind that was read, or zeros.
#[tactic(auto, unfolding(crate::specs::Atom::read_kind_words, desk_atom::specs::Texts::kinds_in))]
fn kind_in(begins: Result<(AtomKind, usize), Missing>) -> Pair
    ensures { result ≡ read_kind_words (kinds_in begins) }
{
    match begins {
        Ok((k, _next)) => words(k),
        Err(_why) => Pair {
            first: 0,
            second: 0,
        },
    }
}

// The words of a kind, and zeros after them.
fn lay_kind(lent: &mut [u32], w: Pair)
    ensures { lent.new ≡ sets (zeros (length lent.old)) 0 (listed w) }
{
    clear(lent);
    poke(lent, 0, w.first);
    poke(lent, 1, w.second);
}

// The atom that a text begins with.
#[tactic(auto, unfolding(crate::specs::Atom::read_atom_x, crate::specs::Atom::taken))]
#[unsafe(no_mangle)]
pub extern "C" fn mavisdrok_read_atom(text: &[u8], kind: &mut [u32], report: &mut [u64])
    ensures { reading kind.new report.new
        ≡ read_atom_x (reading kind.old report.old) text.now }
{
    if kind.len() < KIND_WORDS {
        clear(kind);
        refuse(report);
        return;
    }
    let found = desk_atom::read_atom(text);
    lay_kind(kind, kind_in(found));
    Report::from(found).lay(report);
}

// An atom's text.
#[tactic(auto, unfolding(crate::specs::Atom::atom_x, crate::specs::Atom::text_reported, crate::specs::Atom::spelling_unheard, crate::specs::Given::on_atom))]
#[unsafe(no_mangle)]
pub extern "C" fn mavisdrok_spell_atom(out: &mut [u8], first: u32, second: u32, report: &mut [u64])
    ensures { spelling out.new report.new ≡ atom_x (spelling out.old report.old) first second }
{
    let Some(k) = kind(first, second) else {
        clear_bytes(out);
        refuse(report);
        return;
    };
    Report::from(desk_atom::spell_atom(out, k)).lay(report);
}

// A bond's text: none where it is elided.
#[tactic(auto, unfolding(crate::specs::Atom::bond_x, crate::specs::Atom::text_reported, crate::specs::Atom::spelling_unheard, crate::specs::Given::on_bond))]
#[unsafe(no_mangle)]
pub extern "C" fn mavisdrok_spell_bond(out: &mut [u8], bond: u32, report: &mut [u64])
    ensures { spelling out.new report.new ≡ bond_x (spelling out.old report.old) bond }
{
    let Some(k) = decode(bond) else {
        clear_bytes(out);
        refuse(report);
        return;
    };
    Report::from(desk_atom::spell_bond(out, k)).lay(report);
}

// A ring number's text.
#[tactic(auto, unfolding(crate::specs::Atom::text_reported))]
#[unsafe(no_mangle)]
pub extern "C" fn mavisdrok_spell_rnum(out: &mut [u8], number: u32, report: &mut [u64])
    ensures { spelling out.new report.new
        ≡ text_reported report.old (rnum_d number (length out.old)) }
{
    Report::from(desk_atom::spell_rnum(out, number)).lay(report);
}
