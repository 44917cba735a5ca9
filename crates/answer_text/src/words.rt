// What the desk says, in words for people: why a line is refused, and where.
//
// Only what can be said of a line has words. A line is written from its own graph into room enough, so nothing is said of
// unknown targets, half bonds, bonds that disagree, outputs or tables; these go by their names all the same.
ghost use Rattle.std.specs.Prelude.{◌≡◌, ◌≢◌, IfSome};

use crate::desk::Named;
use desk_numbers::{END_OF_LINE, Said};
use oracle_form::output::Output;
use std::fmt;
use table::limits::{ATOMS, BONDS, BRANCHES, TEXT};

// The words for what was said, without its number.
#[derive(Clone, Copy)]
pub struct Words(pub Said);

impl fmt::Display for Words {
    fn fmt<W: fmt::Write>(&self, f: &mut fmt::Formatter<W>) -> fmt::Result {
        let Words(said) = *self;
        let Said { first, second, .. } = said;
        match said.no {
            END_OF_LINE => write!(f, "the text ends where more has to follow"),
            desk_numbers::CHARACTER => write!(f, "this character cannot stand here"),
            desk_numbers::JOIN => {
                write!(
                    f,
                    "the two ends of the ring bond between atoms {first} and {second} disagree"
                )
            }
            desk_numbers::RNUM => {
                write!(
                    f,
                    "a ring number is opened and never closed: the use numbered {first}"
                )
            }
            desk_numbers::LOOP => write!(f, "atom {first} is bonded to itself"),
            desk_numbers::DUPLICATE_BOND => write!(
                f,
                "atoms {first} and {second} are bonded twice"
            ),
            desk_numbers::INVERSION => write!(
                f,
                "atom {first} bears hydrogen, so its mark had to be turned, and only @ and @@ can be"
            ),
            desk_numbers::RING_NUMBERS => write!(
                f,
                "the ring bond between atoms {first} and {second} needs a number above 99"
            ),
            _ => write_limit(f, said),
        }
    }
}

// A limit that was met, or what has no words.
fn write_limit<W: fmt::Write>(f: &mut fmt::Formatter<W>, said: Said) -> fmt::Result {
    match said.no {
        desk_numbers::TEXT_TOO_LONG => {
            write!(f, "the text has {} bytes: {TEXT} are the most", said.first)
        }
        desk_numbers::ATOM_ROOM => write!(f, "one atom too many: {ATOMS} are the most"),
        desk_numbers::BOND_ROOM => write!(
            f,
            "one bond too many: {BONDS} ends of bonds are the most"
        ),
        desk_numbers::NESTING => write!(f, "one branch too many: {BRANCHES} may be open at once"),
        _ => write!(f, "{}", Named(said)),
    }
}

// The place that was said, if one was, in a text of so many bytes: its end, where more has to follow.
pub fn place(said: Said, size: usize) -> Option<usize>
    ensures at_end { said.no ≡ END_OF_LINE → result ≡ Some size }
    ensures carried { said.no ≢ END_OF_LINE → IfSome result (λ place. place ≡ said.first) }
{
    match said.no {
        END_OF_LINE => Some(size),
        desk_numbers::CHARACTER
        | desk_numbers::ATOM_ROOM
        | desk_numbers::BOND_ROOM
        | desk_numbers::NESTING => Some(said.first),
        _ => None,
    }
}

// A byte as it is shown: one column each, whatever the byte.
fn shown(b: u8) -> u8 {
    match b {
        b' '..=b'~' => b,
        _ => b'?',
    }
}

// A text as it is shown.
pub fn put_shown(out: &mut Output, text: &[u8])
    ensures same_room { out.new.room.ghost_name ≡ out.old.room.ghost_name }
{
    for b in text {
        out.put(shown(*b));
    }
}

// The mark under a place of a text that is shown in a line above.
pub fn put_caret(out: &mut Output, place: usize)
    ensures same_room { out.new.room.ghost_name ≡ out.old.room.ghost_name }
{
    for _ in 0..place {
        out.put(b' ');
    }
    out.put(b'^');
}
