// A scanner that holds the lent text and its place in it: purr's scanner.rs. Its methods are a thin layer over the functions of
// `read_token` and of this crate that take a text and a place; the functions after them make a scanner where a line starts, where
// something is missing and where the line should have ended, and ask it. The layer is what the scope asks for: "a scanner that holds
// the lent text and its place in it".
ghost use Rattle.std.specs.Prelude.{◌≡◌, leb, length};
ghost use Rattle.read_token.specs.Scan.{Peeked, missing_at, atom_at};

use crate::read_atom;
use read_token::scanner;
use read_token::scanner::{Found, Missing};

#[derive(Clone, Copy, Debug, PartialEq, Eq)]
pub struct Scanner<'a> {
    pub text: &'a [u8],
    pub cursor: usize,
}

// Whether no byte is left from a place on.
fn past(s: &[u8], at: usize) -> bool
    ensures { result ≡ leb (length s.now) at }
{
    s.len() <= at
}

impl<'a> Scanner<'a> {
    // A scanner at a place of a text.
    pub fn at(text: &'a [u8], cursor: usize) -> Scanner<'a>
        ensures { (result.text ≡ text.entry) × (result.cursor ≡ cursor) }
    {
        Scanner { text, cursor }
    }

    pub fn is_done(self) -> bool
        ensures { result ≡ leb (length self.entry.text.now) self.entry.cursor }
    {
        past(self.text, self.cursor)
    }

    // The byte at its place, and none past the end.
    pub fn peek(self) -> Option<u8>
        ensures { Peeked self.entry.text.now self.entry.cursor result }
    {
        scanner::peek(self.text, self.cursor)
    }

    pub fn missing_character(self) -> Missing
        ensures { result ≡ missing_at self.entry.text.now self.entry.cursor }
    {
        scanner::missing_character(self.text, self.cursor)
    }

    pub fn read_atom(self) -> Found
        ensures { result ≡ atom_at self.entry.text.now self.entry.cursor }
    {
        read_atom::read_atom(self.text, self.cursor)
    }
}

// The atom with which a line starts.
pub fn first_atom(text: &[u8], at: usize) -> Found
    ensures { result ≡ atom_at text.now at }
{
    Scanner::at(text, at).read_atom()
}

// What is missing where a reader stopped.
pub fn missing_character(text: &[u8], at: usize) -> Missing
    ensures { result ≡ missing_at text.now at }
{
    Scanner::at(text, at).missing_character()
}

// The byte where a reader stopped.
pub fn peek(text: &[u8], at: usize) -> Option<u8>
    ensures { Peeked text.now at result }
{
    Scanner::at(text, at).peek()
}

// Whether the line ends where a reader stopped.
pub fn is_done(text: &[u8], at: usize) -> bool
    ensures { result ≡ leb (length text.now) at }
{
    Scanner::at(text, at).is_done()
}
