// What came of the lines of a list: how many were compared, answered as a listed difference, and answered otherwise.
use std::fmt;

// Counts that are full stay as they are.
#[derive(Clone, Copy, Default)]
pub struct Tally {
    lines: usize,
    listed: usize,
    pub differ: usize,
}

impl Tally {
    // A line answered as the Rust does.
    pub fn agrees(&mut self) {
        self.lines = self.lines.saturating_add(1);
    }

    // A line answered as the listed difference says.
    pub fn agrees_as_listed(&mut self) {
        self.agrees();
        self.listed = self.listed.saturating_add(1);
    }

    pub fn differs(&mut self) {
        self.lines = self.lines.saturating_add(1);
        self.differ = self.differ.saturating_add(1);
    }
}

impl fmt::Display for Tally {
    fn fmt<W: fmt::Write>(&self, f: &mut fmt::Formatter<W>) -> fmt::Result {
        let Tally {
            lines,
            listed,
            differ,
        } = *self;
        write!(
            f,
            "{lines} lines, {listed} listed differences, {differ} differ"
        )
    }
}
