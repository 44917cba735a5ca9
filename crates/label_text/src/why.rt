// A text that is refused: in words for people, with the places that they are about, or behind a `#`.
ghost use Rattle.std.specs.Prelude.{◌≡◌, ◌≢◌, length, IfSome, IsNone};

use crate::looks::Looks;
use crate::rings::{find_bond, find_use};
use answer_text::desk::Named;
use answer_text::words::{Words, place, put_caret, put_shown};
use desk_numbers::{END_OF_LINE, JOIN, RNUM, Said};
use oracle_form::output::Output;
use std::fmt;
use std::fmt::Write;
use table::limits::TEXT;

const LINE_END: u8 = b'\n';
// What comes before a text that is shown, and before the marks below it.
const INDENT: &[u8] = b"    ";
// No refusal has more bytes before the text: a `#`, its number, its name and two numbers with the marks between them.
const LONGEST_NAMED: usize = 80;
// The bytes of both lines, the longest text in each.
pub const SHOWN_BYTES: usize = 2 * (INDENT.len() + TEXT + 1);

// The places of a text that a refusal is about: one, or two of which the first comes before the second.
#[derive(Clone, Copy)]
pub struct Places {
    pub first: usize,
    pub second: Option<usize>,
}

fn only(first: usize) -> Places
    ensures first { result.first ≡ first }
    ensures alone { IsNone result.second }
{
    Places {
        first,
        second: None,
    }
}

fn both((first, second): (usize, usize)) -> Places {
    Places {
        first,
        second: Some(second),
    }
}

// The places of a text that a refusal is about, if there are any.
pub fn places_of(said: Said, text: &[u8], looks: Option<Looks>) -> Option<Places>
    ensures blank { looks ≡ Some Looks.Blank → IsNone result }
    ensures at_end { said.no ≡ END_OF_LINE → IfSome result (λ places. (places.first ≡ length text.now) × IsNone places.second) }
    ensures carried { said.no ≢ END_OF_LINE → said.no ≢ JOIN → said.no ≢ RNUM → IfSome result (λ places. (places.first ≡ said.first) × IsNone places.second) }
{
    if looks == Some(Looks::Blank) {
        return None;
    }
    match said.no {
        JOIN => find_bond(text, said.first, said.second).map(both),
        RNUM => find_use(text, said.first).map(only),
        _ => Some(only(place(said, text.len())?)),
    }
}

// A refusal in words: what was said, what the line looks like, and the places that it is about.
#[derive(Clone, Copy)]
pub struct Why {
    pub said: Said,
    pub looks: Option<Looks>,
    pub places: Option<Places>,
}

impl fmt::Display for Why {
    fn fmt<W: fmt::Write>(&self, f: &mut fmt::Formatter<W>) -> fmt::Result {
        let Why {
            said,
            looks,
            places,
        } = *self;
        write!(f, "refused, {}: {}", said.no, Words(said))?;
        write_places(f, said.no, places)?;
        match looks {
            Some(looks) => write!(f, "; {looks}"),
            None => Ok(()),
        }
    }
}

// The places of ring numbers, which no name of a refusal carries.
fn write_places<W: fmt::Write>(
    f: &mut fmt::Formatter<W>,
    no: u32,
    places: Option<Places>,
) -> fmt::Result {
    let Some(Places { first, second }) = places else {
        return Ok(());
    };
    match (no, second) {
        (RNUM, _) => write!(f, ", at byte {first}"),
        (JOIN, Some(second)) => write!(f, ", at bytes {first} and {second}"),
        _ => Ok(()),
    }
}

// A refused line of a tray: behind a `#` the number, its name and what it carries, a tab, and the text as it is.
pub fn put_comment(out: &mut Output, said: Said, text: &[u8])
    ensures same_room { out.new.room.ghost_name ≡ out.old.room.ghost_name }
{
    let mut room = [0u8; LONGEST_NAMED];
    let mut begin = Output::new(&mut room);
    let _ = write!(begin, "# {} {}\t", said.no, Named(said));
    out.put_all(begin.bytes());
    out.put_all(text);
}

// A text with its places marked below it. There is room for both lines.
pub fn put_marked(out: &mut Output, text: &[u8], places: Places)
    ensures same_room { out.new.room.ghost_name ≡ out.old.room.ghost_name }
{
    let Places { first, second } = places;
    out.put_all(INDENT);
    put_shown(out, text);
    out.put(LINE_END);
    out.put_all(INDENT);
    put_caret(out, first);
    if let Some(second) = second {
        put_caret(out, second.saturating_sub(first).saturating_sub(1));
    }
    out.put(LINE_END);
}
