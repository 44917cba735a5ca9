// What came of all lines.
use crate::answer::Told;
use crate::command::Status;
use label_text::counted::Counted;
use label_text::looks::Looks;
use std::fmt;
use std::fmt::Write;

#[derive(Clone, Copy, Default)]
pub struct Counts {
    pub lines: usize,
    refused: usize,
    // Those of them that look like something else than a text.
    blank: usize,
    comments: usize,
    headers: usize,
    identifiers: usize,
    // The lines that were passed on as they are, and those with an atom that is not kept.
    passed: usize,
    lost: usize,
    // Whether something was not read to its end.
    pub has_unread: bool,
}

fn count_one(n: &mut usize) {
    *n = n.saturating_add(1);
}

impl Counts {
    // One line more.
    pub fn count(&mut self, told: Told) {
        count_one(&mut self.lines);
        match told {
            Told::Done(None) => {}
            Told::Done(Some(_)) => count_one(&mut self.lost),
            Told::Refused { looks, .. } => self.count_refused(looks),
            Told::Passed => count_one(&mut self.passed),
        }
    }

    fn count_refused(&mut self, looks: Option<Looks>) {
        count_one(&mut self.refused);
        match looks {
            None => {}
            Some(Looks::Blank) => count_one(&mut self.blank),
            Some(Looks::Comment) => count_one(&mut self.comments),
            Some(Looks::Header) => count_one(&mut self.headers),
            Some(Looks::Identifier) => count_one(&mut self.identifiers),
        }
    }

    // The status that they come to.
    pub fn status(&self) -> Status {
        if self.has_unread {
            Status::NotDone
        } else if self.refused > 0 {
            Status::SomeRefused
        } else {
            Status::AllDone
        }
    }
}

// The counts of all, but for those that are 0.
impl fmt::Display for Counts {
    fn fmt<W: fmt::Write>(&self, f: &mut fmt::Formatter<W>) -> fmt::Result {
        write!(
            f,
            "{}, {} refused",
            Counted(self.lines, "line"),
            self.refused
        )?;
        for (n, words) in [
            (self.blank, "of them blank"),
            (self.comments, "of them like a comment"),
            (self.headers, "of them like a header"),
            (self.identifiers, "of them like an identifier"),
            (self.passed, "passed on"),
            (self.lost, "with atoms that are not kept"),
        ] {
            if n > 0 {
                write!(f, ", {n} {words}")?;
            }
        }
        Ok(())
    }
}
