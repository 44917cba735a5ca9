// What a line looks like that is refused because it is no SMILES text: people put more than these into a tray.
ghost use Rattle.std.specs.Prelude.{◌≡◌, ◌≢◌, ◌↔◌, [], false, IsNone};

use desk_numbers::CHARACTER;
use std::fmt;
use std::fmt::Write;

#[derive(Clone, Copy, Debug, PartialEq, Eq)]
pub enum Looks {
    Blank,
    Comment,
    Header,
    Identifier,
}

impl fmt::Display for Looks {
    fn fmt<W: fmt::Write>(&self, f: &mut fmt::Formatter<W>) -> fmt::Result {
        match self {
            Looks::Blank => write!(f, "the line is blank"),
            Looks::Comment => write!(f, "the line looks like a comment"),
            Looks::Header => write!(f, "the line looks like a header"),
            Looks::Identifier => write!(
                f,
                "this looks like an identifier, where the text has to be"
            ),
        }
    }
}

const SMILES: &[u8] = b"smiles";

const INCHI: &[u8] = b"inchi=";

// Whether the word is anywhere in a text, in large letters or in small ones.
fn is_header(text: &[u8]) -> bool {
    text.windows(SMILES.len())
        .any(|part| part.eq_ignore_ascii_case(SMILES))
}

fn is_inchi(text: &[u8]) -> bool {
    text.get(..INCHI.len())
        .is_some_and(|begin| begin.eq_ignore_ascii_case(INCHI))
}

// What may be between the letters and the digits of an identifier.
fn is_mark(b: u8) -> bool {
    matches!(b, b'-' | b'_' | b':')
}

// Letters and then digits, two or more, as in CHEMBL25, or digits alone, as in 50-78-2.
fn is_identifier(text: &[u8]) -> bool {
    let end = text
        .iter()
        .position(|b| b.is_ascii_digit())
        .unwrap_or(text.len());
    let (letters, digits) = text.split_at(end);
    letters
        .iter()
        .all(|b| b.is_ascii_alphabetic() || is_mark(*b))
        && digits.iter().all(|b| b.is_ascii_digit() || is_mark(*b))
        && digits.iter().filter(|b| b.is_ascii_digit()).count() > 1
}

// What a text looks like in which a character is out of place.
fn looks_inside(text: &[u8]) -> Option<Looks>
    ensures { result ≢ Some Looks.Blank }
{
    if text.starts_with(b"#") {
        Some(Looks::Comment)
    } else if is_header(text) {
        Some(Looks::Header)
    } else if is_identifier(text) || is_inchi(text) {
        Some(Looks::Identifier)
    } else {
        None
    }
}

// What a text looks like that was refused by this number, if like anything that is known. A line without a text is blank unless
// a name follows.
pub fn looks_like(text: &[u8], no: u32, has_name: bool) -> Option<Looks>
    ensures blank { result ≡ Some Looks.Blank ↔ ((text.now ≡ []) × (has_name ≡ false)) }
    ensures text { text.now ≢ [] → no ≢ CHARACTER → IsNone result }
{
    if text.is_empty() {
        return if has_name { None } else { Some(Looks::Blank) };
    }
    if no == CHARACTER {
        looks_inside(text)
    } else {
        None
    }
}
