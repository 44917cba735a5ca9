// Requests about a text: `atom`, `rnum` and `bond`, what is at its start.
use oracle_form::output::Output;
use oracle_form::{bond, kind, text};
use read_atom::read_atom::read_atom;
use read_token::read_bond::read_bond;
use read_token::read_rnum::read_rnum;
use read_token::scanner::Missing;

fn put_missing(out: &mut Output<'_>, m: Missing) {
    match m {
        Missing::EndOfLine => out.put_all(b"end"),
        Missing::Character(place) => {
            out.put_all(b"character ");
            out.number(place);
        }
    }
}

// The place after what was found.
fn put_next(out: &mut Output<'_>, next: usize) {
    out.put(b' ');
    out.number(next);
}

pub fn answer_atom(arguments: &[u8], out: &mut Output<'_>, room: &mut [u8]) -> Option<()> {
    let n = text::parse(arguments, room)?;
    match read_atom(&room[..n], 0) {
        Ok(Some((k, next))) => {
            out.put_all(b"atom ");
            kind::put(out, k);
            put_next(out, next);
        }
        Ok(None) => out.put_all(b"none"),
        Err(m) => put_missing(out, m),
    }
    Some(())
}

pub fn answer_rnum(arguments: &[u8], out: &mut Output<'_>, room: &mut [u8]) -> Option<()> {
    let n = text::parse(arguments, room)?;
    match read_rnum(&room[..n], 0) {
        Ok(Some((number, next))) => {
            out.put_all(b"rnum ");
            out.number(number as usize);
            put_next(out, next);
        }
        Ok(None) => out.put_all(b"none"),
        Err(m) => put_missing(out, m),
    }
    Some(())
}

pub fn answer_bond(arguments: &[u8], out: &mut Output<'_>, room: &mut [u8]) -> Option<()> {
    let n = text::parse(arguments, room)?;
    let found = read_bond(&room[..n], 0);
    out.put_all(b"bond ");
    bond::put(out, found.value);
    put_next(out, found.next);
    Some(())
}
