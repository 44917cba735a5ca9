// A number and what it counts, in the singular or in the plural.
use std::fmt;
use std::fmt::Write;

// The number, and the word for one.
#[derive(Clone, Copy)]
pub struct Counted<'a>(pub usize, pub &'a str);

impl fmt::Display for Counted<'_> {
    fn fmt<W: fmt::Write>(&self, f: &mut fmt::Formatter<W>) -> fmt::Result {
        let Counted(n, what) = *self;
        let plural = if n == 1 { "" } else { "s" };
        write!(f, "{n} {what}{plural}")
    }
}
