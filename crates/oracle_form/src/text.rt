// A text: the bytes 33 to 126 but `!` as they are, any other as `!` and two hex digits, the empty text as `!-`.
ghost use Rattle.std.specs.Prelude.{◌≡◌, ◌<◌, ◌≤◌, length, IfSome, OnSome};

use crate::output::Output;
use crate::reader::Reader;

// Whether a byte stands for itself: one of 33 to 126, of which the first is `!`.
fn is_plain(b: u8) -> bool {
    matches!(b, 34..=126)
}

// A number below 16 as a hex digit.
fn hex_figure(n: u8) -> u8
    requires { n < 16 }
{
    b"0123456789abcdef"[usize::from(n)]
}

fn put_byte(out: &mut Output<'_>, b: u8)
    ensures same_room { out.new.room.ghost_name ≡ out.old.room.ghost_name }
{
    if is_plain(b) {
        out.put(b);
    } else {
        out.put(b'!');
        out.put(hex_figure(b / 16));
        out.put(hex_figure(b % 16));
    }
}

pub fn put(out: &mut Output<'_>, text: &[u8])
    ensures same_room { out.new.room.ghost_name ≡ out.old.room.ghost_name }
{
    if text.is_empty() {
        out.put_all(b"!-");
    }
    for &b in text {
        put_byte(out, b);
    }
}

// What a hex digit is worth.
fn hex_worth(b: u8) -> Option<u8>
    ensures { IfSome result (λ n. n < 16) }
{
    match b {
        b'0'..=b'9' => Some(b - b'0'),
        b'a'..=b'f' => Some(b - b'a' + 10),
        _ => None,
    }
}

fn parse_byte(r: &mut Reader<'_>) -> Option<u8>
    ensures { OnSome result (length r.new.rest.now < length r.old.rest.now) }
{
    match r.next()? {
        b'!' => {
            let high = hex_worth(r.next()?)?;
            let low = hex_worth(r.next()?)?;
            Some(high * 16 + low)
        }
        b if is_plain(b) => Some(b),
        _ => None,
    }
}

// A whole text, laid from the output's first byte on. Answers its length, or `None` where that is no text or the output
// has no room for all of it.
pub fn parse(s: &[u8], out: &mut [u8]) -> Option<usize>
    ensures { IfSome result (λ n. n ≤ length out.new) }
{
    if s.is_empty() {
        return None;
    }
    if s == b"!-".as_slice() {
        return Some(0);
    }
    let mut r = Reader::new(s);
    for (n, place) in out.iter_mut().enumerate() {
        if r.is_at_end() {
            return Some(n);
        }
        *place = parse_byte(&mut r)?;
    }
    if r.is_at_end() { Some(out.len()) } else { None }
}
