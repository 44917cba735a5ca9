// Where the ring numbers are that a refusal is about: the two of a ring bond whose ends disagree, or one that stays open.
// The text is one in which every character can be where it is.
//
// Outside brackets a ring number is a digit, or a `%` and two digits. It belongs to the atom before it, over branches that
// were closed. Atoms are counted from 0, and so are the uses of ring numbers.
use table::limits::{BRANCHES, RING_NUMBER_COUNT};
use table::{look, poke};

// A use of a ring number: the number, its place in the text, and the atom that it belongs to.
#[derive(Clone, Copy)]
struct Use {
    number: usize,
    place: usize,
    atom: usize,
}

// What the next digit outside brackets is: a ring number, or one of the two after a `%` that is at a place.
#[derive(Clone, Copy)]
enum Digit {
    Alone,
    First { place: usize },
    Second { place: usize, tens: u8 },
}

// How far a text was followed.
#[derive(Drop)]
struct Seen {
    is_inside: bool,
    // The byte before, and 0 before the first: no atom's letter.
    last: u8,
    digit: Digit,
    // The atoms so far, the current one, and those at which the branches that are open began.
    atoms: u32,
    atom: u32,
    path: [u32; BRANCHES],
    depth: usize,
}

// Whether an atom begins with a byte outside brackets: the others are second letters, of Cl, Br, At and Ts.
fn begins_atom(b: u8, last: u8) -> bool {
    match b {
        b'l' | b'r' | b't' => false,
        b's' => last != b'T',
        b'*' | b'[' => true,
        _ => b.is_ascii_alphabetic(),
    }
}

impl Seen {
    fn nothing() -> Seen {
        Seen {
            is_inside: false,
            last: 0,
            digit: Digit::Alone,
            atoms: 0,
            atom: 0,
            path: [0; BRANCHES],
            depth: 0,
        }
    }

    // The byte at a place, and the use of a ring number that it ends.
    fn see(&mut self, place: usize, b: u8) -> Option<Use> {
        if self.is_inside {
            self.is_inside = b != b']';
            return None;
        }
        let last = self.last;
        self.last = b;
        if begins_atom(b, last) {
            self.is_inside = b == b'[';
            self.atom = self.atoms;
            self.atoms = self.atoms.saturating_add(1);
            return None;
        }
        self.see_mark(place, b)
    }

    // A byte outside brackets that begins no atom.
    fn see_mark(&mut self, place: usize, b: u8) -> Option<Use> {
        match b {
            b'0'..=b'9' => return self.see_digit(place, b - b'0'),
            b'%' => self.digit = Digit::First { place },
            b'(' => {
                poke(&mut self.path, self.depth, self.atom);
                self.depth = self.depth.saturating_add(1);
            }
            b')' if self.depth > 0 => {
                self.depth -= 1;
                self.atom = look(&self.path, self.depth);
            }
            _ => {}
        }
        None
    }

    fn see_digit(&mut self, at: usize, worth: u8) -> Option<Use> {
        let (number, place) = match self.digit {
            Digit::Alone => (usize::from(worth), at),
            Digit::First { place } => {
                self.digit = Digit::Second { place, tens: worth };
                return None;
            }
            Digit::Second { place, tens } => (usize::from(tens) * 10 + usize::from(worth), place),
        };
        self.digit = Digit::Alone;
        Some(Use {
            number,
            place,
            atom: self.atom as usize,
        })
    }
}

// The place of the use of a ring number that is numbered so.
pub fn find_use(text: &[u8], numbered: usize) -> Option<usize> {
    let mut seen = Seen::nothing();
    text.iter()
        .enumerate()
        .filter_map(|(place, b)| seen.see(place, *b))
        .nth(numbered)
        .map(|used| used.place)
}

// The byte before a place, if it says a bond's kind.
fn bond_before(text: &[u8], place: usize) -> Option<u8> {
    let b = *text.get(place.checked_sub(1)?)?;
    if matches!(b, b'-' | b'=' | b'#' | b'$' | b':' | b'/' | b'\\') {
        Some(b)
    } else {
        None
    }
}

fn is_directional(b: u8) -> bool {
    matches!(b, b'/' | b'\\')
}

// Whether the two ends of a ring bond disagree: both say a kind, and neither is the other's reverse.
fn disagree(opening: Option<u8>, closing: Option<u8>) -> bool {
    let (Some(x), Some(y)) = (opening, closing) else {
        return false;
    };
    if x == y {
        return is_directional(x);
    }
    !(is_directional(x) && is_directional(y))
}

// The use that opened the ring number which this one closes. A number that is not open opens.
fn close(open: &mut [Option<Use>], used: Use) -> Option<Use> {
    let slot = open.get_mut(used.number)?;
    let opened = slot.take();
    if opened.is_none() {
        *slot = Some(used);
    }
    opened
}

// The places of the two uses of a ring number between these atoms whose bond's ends disagree, the opening one first.
pub fn find_bond(text: &[u8], closing: usize, opening: usize) -> Option<(usize, usize)> {
    let mut seen = Seen::nothing();
    let mut open = [None; RING_NUMBER_COUNT];
    text.iter()
        .enumerate()
        .filter_map(|(place, b)| seen.see(place, *b))
        .filter_map(|used| close(&mut open, used).map(|opened| (opened, used)))
        .filter(|(opened, used)| opened.atom == opening && used.atom == closing)
        .map(|(opened, used)| (opened.place, used.place))
        .find(|(first, second)| disagree(bond_before(text, *first), bond_before(text, *second)))
}
