// A line of a list: `REQUEST<TAB>RUST` or `REQUEST<TAB>RUST<TAB>OURS`.
use crate::answer::answer;
use crate::tally::Tally;
use oracle_form::output::Output;
use program_io::failure::say;

// How many lines of a list that differ are shown.
const SHOWN: usize = 20;

// A line's request, and the answer that is expected: OURS, else RUST.
#[derive(Clone, Copy)]
struct Line<'a> {
    request: &'a [u8],
    expected: &'a [u8],
    // Whether OURS is listed.
    is_listed: bool,
}

impl<'a> Line<'a> {
    fn parse(line: &'a [u8]) -> Self {
        let mut columns = line.splitn(3, |&b| b == b'\t');
        let request = columns.next().unwrap_or(&[]);
        let rust = columns.next().unwrap_or(&[]);
        let ours = columns.next();
        Self {
            request,
            expected: ours.unwrap_or(rust),
            is_listed: ours.is_some(),
        }
    }
}

// What judges the lines of a list: where those that differ are shown, what came of them so far, and room for an answer and
// for a text.
#[derive(Drop)]
pub struct Judge<'a, P> {
    pub to: &'a P,
    pub tally: Tally,
    pub out: &'a mut [u8],
    pub text: &'a mut [u8],
}

impl<P: Print> Judge<'_, P> {
    // Answers the line's request and counts what came of it. A request without an answer differs, whatever is listed.
    pub fn judge(&mut self, line: &[u8]) {
        let Line {
            request,
            expected,
            is_listed,
        } = Line::parse(line);
        let mut out = Output::new(self.out);
        if answer(request, &mut out, self.text).is_none() {
            out.clear();
        }
        let ours = out.bytes();
        if !ours.is_empty() && ours == expected {
            if is_listed {
                self.tally.agrees_as_listed();
            } else {
                self.tally.agrees();
            }
            return;
        }
        if self.tally.differ < SHOWN {
            show(self.to, line, ours);
        }
        self.tally.differs();
    }

    // Counts a line that is too long to be judged.
    pub fn give_up(&mut self) {
        if self.tally.differ < SHOWN {
            say(self.to, b"listed: a line longer than a block\n");
        }
        self.tally.differs();
    }
}

fn show(to: &impl Print, line: &[u8], ours: &[u8]) {
    say(to, b"listed: ");
    say(to, line);
    say(to, b"\nours:   ");
    if ours.is_empty() {
        say(to, b"no answer");
    }
    say(to, ours);
    say(to, b"\n");
}
