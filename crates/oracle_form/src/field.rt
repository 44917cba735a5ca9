// A field of a bracket atom, with the mark before it. Isotope, hydrogens and map are plain numbers, with `~` for none;
// configuration and charge are words, each at the number that the field holds.
ghost use Rattle.std.specs.Prelude.{◌≡◌, ◌<◌, length, OnSome};

use crate::number;
use crate::output::Output;
use crate::reader::Reader;

// A number, or `~` where it is the one that stands for none.
pub fn put_number(out: &mut Output<'_>, mark: u8, n: u32, none: u32)
    ensures same_room { out.new.room.ghost_name ≡ out.old.room.ghost_name }
{
    out.put(mark);
    if n == none {
        out.put(b'~');
    } else {
        out.number(n as usize);
    }
}

// A number below `none`, or `none` for `~`.
pub fn parse_number(r: &mut Reader<'_>, mark: u8, none: u32) -> Option<u32>
    ensures { OnSome result (length r.new.rest.now < length r.old.rest.now) }
{
    r.pass(mark)?;
    if r.pass(b'~').is_some() {
        return Some(none);
    }
    let n = number::parse_word(r)?;
    if n < none { Some(n) } else { None }
}

// The configurations by their true names: the two letters of a class and the number in it, with `~` for none.
const CONFIGURATIONS: [&[u8]; 58] = [
    b"~", b"TH1", b"TH2", b"AL1", b"AL2", b"SP1", b"SP2", b"SP3", b"TB1", b"TB2", b"TB3", b"TB4",
    b"TB5", b"TB6", b"TB7", b"TB8", b"TB9", b"TB10", b"TB11", b"TB12", b"TB13", b"TB14", b"TB15",
    b"TB16", b"TB17", b"TB18", b"TB19", b"TB20", b"OH1", b"OH2", b"OH3", b"OH4", b"OH5", b"OH6",
    b"OH7", b"OH8", b"OH9", b"OH10", b"OH11", b"OH12", b"OH13", b"OH14", b"OH15", b"OH16", b"OH17",
    b"OH18", b"OH19", b"OH20", b"OH21", b"OH22", b"OH23", b"OH24", b"OH25", b"OH26", b"OH27",
    b"OH28", b"OH29", b"OH30",
];

// The charges, with `~` for none.
const CHARGES: [&[u8]; 32] = [
    b"-15", b"-14", b"-13", b"-12", b"-11", b"-10", b"-9", b"-8", b"-7", b"-6", b"-5", b"-4",
    b"-3", b"-2", b"-1", b"0", b"1", b"2", b"3", b"4", b"5", b"6", b"7", b"8", b"9", b"10", b"11",
    b"12", b"13", b"14", b"15", b"~",
];

pub fn put_configuration(out: &mut Output<'_>, c: u32)
    ensures same_room { out.new.room.ghost_name ≡ out.old.room.ghost_name }
{
    out.put(b',');
    out.put_nth(&CONFIGURATIONS, c as usize);
}

pub fn put_charge(out: &mut Output<'_>, q: u32)
    ensures same_room { out.new.room.ghost_name ≡ out.old.room.ghost_name }
{
    out.put(b',');
    out.put_nth(&CHARGES, q as usize);
}

// A word, up to the mark of the next field, by its number among some.
fn parse_word(r: &mut Reader<'_>, words: &[&[u8]]) -> Option<u32>
    ensures { OnSome result (length r.new.rest.now < length r.old.rest.now) }
{
    r.pass(b',')?;
    let word = r.until(b',');
    let n = words.iter().position(|&w| w == word)?;
    u32::try_from(n).ok()
}

pub fn parse_configuration(r: &mut Reader<'_>) -> Option<u32>
    ensures { OnSome result (length r.new.rest.now < length r.old.rest.now) }
{
    parse_word(r, &CONFIGURATIONS)
}

pub fn parse_charge(r: &mut Reader<'_>) -> Option<u32>
    ensures { OnSome result (length r.new.rest.now < length r.old.rest.now) }
{
    parse_word(r, &CHARGES)
}
