// A walk order on one line: for each atom, in walk order, its number, its number in walk order and its text as it is
// written, separated by `:`; after each but the last a `;`: `0:0:C;2:1:N`.
ghost use Rattle.std.specs.Prelude.{◌≡◌};

use oracle_form::output::Output;
use packing::load;
use spell::spell_atom;
use table::{ATOM_WORDS, look};
use walk_entry::entry::said_as;

// No atom's text is longer.
const LONGEST: usize = 21;

const UNKNOWN: u8 = b'?';

// A walk order in lent tables: the atoms in walk order; for each atom its number in it, and the place, from 1, of its entry
// back to the atom that it was reached from.
#[derive(Clone, Copy)]
pub struct Order<'a> {
    pub walked: &'a [u32],
    pub number: &'a [u32],
    pub back: &'a [u32],
}

// The text of an atom, by the place of its entry back.
fn put_text(out: &mut Output, atoms: &[u32], atom: u32, back: u32)
    ensures same_room { out.new.room.ghost_name ≡ out.old.room.ghost_name }
{
    match load(atoms, atom as usize * ATOM_WORDS) {
        Some(k) => {
            let mut text = [0u8; LONGEST];
            let n = spell_atom(&mut text, said_as(k, back));
            out.put_all(&text[..n]);
        }
        None => out.put(UNKNOWN),
    }
}

fn put_atom(out: &mut Output, atoms: &[u32], atom: u32, order: Order)
    ensures same_room { out.new.room.ghost_name ≡ out.old.room.ghost_name }
{
    let place = atom as usize;
    out.number(place);
    out.put(b':');
    out.number(look(order.number, place) as usize);
    out.put(b':');
    put_text(out, atoms, atom, look(order.back, place));
}

// The first n atoms of a walk order.
pub fn put_order(out: &mut Output, atoms: &[u32], n: usize, order: Order)
    ensures same_room { out.new.room.ghost_name ≡ out.old.room.ghost_name }
{
    for (i, atom) in order.walked.iter().take(n).enumerate() {
        if i > 0 {
            out.put(b';');
        }
        put_atom(out, atoms, *atom, order);
    }
}
