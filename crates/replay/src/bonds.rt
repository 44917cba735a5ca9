// Requests about bonds: `spellbond` and `reverse` of one, `reconcile` of two.
use feature::bond_kind::{BondKind, reconcile, reverse};
use oracle_form::output::Output;
use oracle_form::reader::Reader;
use oracle_form::{bond, text};
use spell::spell_bond;

// No bond's text is longer.
const LONGEST: usize = 1;

// The bond that is all that is left.
fn parse_last(r: &mut Reader<'_>) -> Option<BondKind> {
    let k = bond::parse(r)?;
    if r.is_at_end() { Some(k) } else { None }
}

pub fn answer_spelling(arguments: &[u8], out: &mut Output<'_>) -> Option<()> {
    let k = parse_last(&mut Reader::new(arguments))?;
    let mut spelling = [0u8; LONGEST];
    let n = spell_bond(&mut spelling, k);
    text::put(out, &spelling[..n]);
    Some(())
}

pub fn answer_reversed(arguments: &[u8], out: &mut Output<'_>) -> Option<()> {
    let k = parse_last(&mut Reader::new(arguments))?;
    bond::put(out, reverse(k));
    Some(())
}

pub fn answer_reconciled(arguments: &[u8], out: &mut Output<'_>) -> Option<()> {
    let mut r = Reader::new(arguments);
    let left = bond::parse(&mut r)?;
    r.pass(b' ')?;
    let right = parse_last(&mut r)?;
    match reconcile(left, right) {
        Some((left, right)) => {
            bond::put(out, left);
            out.put(b' ');
            bond::put(out, right);
        }
        None => out.put_all(b"fails"),
    }
    Some(())
}
