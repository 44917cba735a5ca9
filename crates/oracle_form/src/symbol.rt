// A symbol by its name in the table of elements: the star, an element or an aromatic one.
ghost use Rattle.std.specs.Prelude.{◌≡◌, ◌<◌, length, OnSome};

use crate::output::Output;
use crate::reader::Reader;
use feature::element::{LETTER, find, name};

// The letter that a part of a name's number stands for.
fn letter(n: u32) -> u8 {
    (n % 256) as u8
}

pub fn put(out: &mut Output<'_>, symbol: u32)
    ensures same_room { out.new.room.ghost_name ≡ out.old.room.ghost_name }
{
    let name = name(symbol);
    let second = name % LETTER;
    out.put(letter(name / LETTER));
    if second != 0 {
        out.put(letter(second - 1));
    }
}

// A name of two letters, else one of one, and its symbol.
pub fn parse_name<'a>(r: &mut Reader<'a>) -> Option<(&'a [u8], u32)>
    ensures { OnSome result (length r.new.rest.now < length r.old.rest.now) }
{
    let one_letter = u32::from(r.peek()?) * LETTER;
    let second = r.rest.get(1).copied();
    let two_letters = second.and_then(|b| find(one_letter + u32::from(b) + 1));
    let (len, symbol) = match two_letters {
        Some(symbol) => (2, symbol),
        None => (1, find(one_letter)?),
    };
    Some((r.take(len)?, symbol))
}

pub fn parse(r: &mut Reader<'_>) -> Option<u32>
    ensures { OnSome result (length r.new.rest.now < length r.old.rest.now) }
{
    let (_, symbol) = parse_name(r)?;
    Some(symbol)
}
