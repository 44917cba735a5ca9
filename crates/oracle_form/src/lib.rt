// The plain text form in which requests and answers are compared: numbers, bonds, atom kinds and texts, each printed and
// parsed, and events, parsed. oracle/README.md describes the form.
//
// A printer lays its bytes into an output, which leaves out a byte that finds no room: an output that is filled to its end may be
// cut short. A parser takes what it finds from a reader, or answers `None` where the text has something else there.
//
// output: bytes laid into lent room. reader: a text as far as it was read.
// number: a plain number.
// text: any bytes, escaped.
// bond: a bond's kind.
// event: an event of a builder or a writer.
// kind: an atom's kind. symbol and field: the fields of a bracket atom.
#![tactic(auto)]

pub mod bond;
pub mod event;
mod field;
pub mod kind;
pub mod number;
pub mod output;
pub mod reader;
mod symbol;
pub mod text;
