// A bond's kind as one byte: `e` where it is elided, else the mark that a line has for it.
ghost use Rattle.std.specs.Prelude.{◌≡◌, ◌<◌, length, OnSome};

use crate::output::Output;
use crate::reader::Reader;
use feature::bond_kind::BondKind;

fn mark(k: BondKind) -> u8 {
    match k {
        BondKind::Elided => b'e',
        BondKind::Single => b'-',
        BondKind::Double => b'=',
        BondKind::Triple => b'#',
        BondKind::Quadruple => b'$',
        BondKind::Aromatic => b':',
        BondKind::Up => b'/',
        BondKind::Down => b'\\',
    }
}

pub fn put(out: &mut Output<'_>, k: BondKind)
    ensures same_room { out.new.room.ghost_name ≡ out.old.room.ghost_name }
{
    out.put(mark(k));
}

pub fn parse(r: &mut Reader<'_>) -> Option<BondKind>
    ensures { OnSome result (length r.new.rest.now < length r.old.rest.now) }
{
    let kind = match r.next()? {
        b'e' => BondKind::Elided,
        b'-' => BondKind::Single,
        b'=' => BondKind::Double,
        b'#' => BondKind::Triple,
        b'$' => BondKind::Quadruple,
        b':' => BondKind::Aromatic,
        b'/' => BondKind::Up,
        b'\\' => BondKind::Down,
        _ => return None,
    };
    Some(kind)
}
