// Requests about an atom's kind: `spell`, `invert`, `targets` and `aromatic`.
use feature::atom_kind::{AtomKind, invert};
use feature::element;
use oracle_form::output::Output;
use oracle_form::reader::Reader;
use oracle_form::{kind, text};
use spell::spell_atom;
use targets::{Valences, targets};

// No atom's text is longer.
const LONGEST: usize = 21;

// The kind that is all of the arguments.
fn parse(arguments: &[u8]) -> Option<AtomKind> {
    let mut r = Reader::new(arguments);
    let k = kind::parse(&mut r)?;
    if r.is_at_end() { Some(k) } else { None }
}

pub fn answer_spelling(arguments: &[u8], out: &mut Output<'_>) -> Option<()> {
    let mut spelling = [0u8; LONGEST];
    let n = spell_atom(&mut spelling, parse(arguments)?);
    text::put(out, &spelling[..n]);
    Some(())
}

pub fn answer_inverted(arguments: &[u8], out: &mut Output<'_>) -> Option<()> {
    match invert(parse(arguments)?) {
        Some(k) => kind::put(out, k),
        None => out.put_all(b"refused"),
    }
    Some(())
}

// A number more of several.
fn put_next(out: &mut Output<'_>, n: u32) {
    out.put(b',');
    out.number(n as usize);
}

pub fn answer_targets(arguments: &[u8], out: &mut Output<'_>) -> Option<()> {
    match targets(parse(arguments)?) {
        Valences::None => out.put(b'-'),
        Valences::One(a) => out.number(a as usize),
        Valences::Two(a, b) => {
            out.number(a as usize);
            put_next(out, b);
        }
        Valences::Three(a, b, c) => {
            out.number(a as usize);
            put_next(out, b);
            put_next(out, c);
        }
    }
    Some(())
}

// Whether the kind is written as aromatic.
fn is_aromatic(k: AtomKind) -> bool {
    match k {
        AtomKind::Star | AtomKind::Aliphatic(_) => false,
        AtomKind::Aromatic(_) => true,
        AtomKind::Bracket(b) => b.symbol >= element::AROMATIC,
    }
}

pub fn answer_aromatic(arguments: &[u8], out: &mut Output<'_>) -> Option<()> {
    let answer: &[u8] = if is_aromatic(parse(arguments)?) {
        b"yes"
    } else {
        b"no"
    };
    out.put_all(answer);
    Some(())
}
