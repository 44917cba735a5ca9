// An atom's kind: `*`, an organic symbol, or `[isotope,symbol,configuration,hydrogens,charge,map]`.
ghost use Rattle.std.specs.Prelude.{◌≡◌, ◌<◌, length, OnSome};

use crate::output::Output;
use crate::reader::Reader;
use crate::{field, symbol};
use feature::atom_kind::{AtomKind, BracketAtom, NO_HYDROGENS, NO_NUMBER};

// The organic symbols by their numbers.
const ALIPHATIC: [&[u8]; 12] = [
    b"B", b"C", b"N", b"O", b"S", b"P", b"F", b"Cl", b"Br", b"I", b"At", b"Ts",
];

const AROMATIC: [&[u8]; 6] = [b"b", b"c", b"n", b"o", b"p", b"s"];

fn put_bracket(out: &mut Output<'_>, b: BracketAtom)
    ensures same_room { out.new.room.ghost_name ≡ out.old.room.ghost_name }
{
    field::put_number(out, b'[', b.isotope, NO_NUMBER);
    out.put(b',');
    symbol::put(out, b.symbol);
    field::put_configuration(out, b.configuration);
    field::put_number(out, b',', b.hydrogens, NO_HYDROGENS);
    field::put_charge(out, b.charge);
    field::put_number(out, b',', b.map, NO_NUMBER);
    out.put(b']');
}

pub fn put(out: &mut Output<'_>, k: AtomKind)
    ensures same_room { out.new.room.ghost_name ≡ out.old.room.ghost_name }
{
    match k {
        AtomKind::Star => out.put(b'*'),
        AtomKind::Aliphatic(n) => out.put_nth(&ALIPHATIC, n as usize),
        AtomKind::Aromatic(n) => out.put_nth(&AROMATIC, n as usize),
        AtomKind::Bracket(b) => put_bracket(out, b),
    }
}

fn parse_bracket(r: &mut Reader<'_>) -> Option<AtomKind>
    ensures { OnSome result (length r.new.rest.now < length r.old.rest.now) }
{
    let isotope = field::parse_number(r, b'[', NO_NUMBER)?;
    r.pass(b',')?;
    let symbol = symbol::parse(r)?;
    let configuration = field::parse_configuration(r)?;
    let hydrogens = field::parse_number(r, b',', NO_HYDROGENS)?;
    let charge = field::parse_charge(r)?;
    let map = field::parse_number(r, b',', NO_NUMBER)?;
    r.pass(b']')?;
    Some(AtomKind::Bracket(BracketAtom {
        isotope,
        symbol,
        configuration,
        hydrogens,
        charge,
        map,
    }))
}

fn parse_organic(r: &mut Reader<'_>) -> Option<AtomKind>
    ensures { OnSome result (length r.new.rest.now < length r.old.rest.now) }
{
    let (name, _) = symbol::parse_name(r)?;
    if let Some(n) = ALIPHATIC.iter().position(|&word| word == name) {
        return Some(AtomKind::Aliphatic(n as u32));
    }
    let n = AROMATIC.iter().position(|&word| word == name)?;
    Some(AtomKind::Aromatic(n as u32))
}

pub fn parse(r: &mut Reader<'_>) -> Option<AtomKind>
    ensures { OnSome result (length r.new.rest.now < length r.old.rest.now) }
{
    match r.peek()? {
        b'*' => {
            r.next()?;
            Some(AtomKind::Star)
        }
        b'[' => parse_bracket(r),
        _ => parse_organic(r),
    }
}
