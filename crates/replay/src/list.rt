// A list, read block by block: the whole lines of a block are judged, and what is left of it, the start of a line, is
// moved to the front for the next read. So the memory that is needed does not grow with the list.
ghost use Rattle.std.specs.Prelude.{◌≤◌, length, IfSome};

use crate::line::Judge;
use crate::tally::Tally;
use oracle_form::output::Output;
use program_io::failure::say;
use std::fmt::Write;
use std::io;
use std::io::Read;

// The bytes that are read at once, and room for an answer and for a text.
const BLOCK: usize = 65536;

// What is known of a line that has not ended.
#[derive(Clone, Copy)]
struct Begun {
    // How many bytes of it are at the block's front.
    held: usize,
    // Whether it was given up because no block holds it.
    is_too_long: bool,
}

fn is_line_end(b: &u8) -> bool {
    *b == b'\n'
}

// What is left to be judged of what was read: the rest of a line that was given up is passed over.
fn pass_over(bytes: &[u8], begun: Begun) -> Option<&[u8]>
    ensures { IfSome result (λ lines. length lines.now ≤ length bytes.now) }
{
    if !begun.is_too_long {
        return Some(bytes);
    }
    let end = bytes.iter().position(is_line_end)?;
    bytes.get(end + 1..)
}

// Judges the whole lines, and answers what is left: the start of one that does not end here.
fn take_lines<'a, P: Print>(bytes: &'a [u8], judge: &mut Judge<'_, P>) -> &'a [u8]
    ensures { length result.now ≤ length bytes.now }
{
    let Some(end) = bytes.iter().rposition(is_line_end) else {
        return bytes;
    };
    for line in bytes[..end].split(is_line_end) {
        judge.judge(line);
    }
    &bytes[end + 1..]
}

// Judges the whole lines of a block's first bytes, and keeps what is left of them. A line that fills the whole block is
// given up, and counts as one that differs.
fn take_block<P: Print>(block: &mut [u8], n: usize, begun: Begun, judge: &mut Judge<'_, P>) -> Begun
    requires { n ≤ length block.old }
    ensures { result.held ≤ length block.new }
{
    let given_up = Begun {
        held: 0,
        is_too_long: true,
    };
    let Some(lines) = pass_over(&block[..n], begun) else {
        return given_up;
    };
    let held = take_lines(lines, judge).len();
    if held == block.len() {
        judge.give_up();
        return given_up;
    }
    block.copy_within(n - held..n, 0);
    Begun {
        held,
        is_too_long: false,
    }
}

// Nothing says that a file ends, so the loop counts its turns, to a number that no run reaches.
fn read_all<R: Read, P: Print>(
    input: &mut R,
    block: &mut [u8],
    judge: &mut Judge<'_, P>,
) -> io::Result<()> {
    let mut begun = Begun {
        held: 0,
        is_too_long: false,
    };
    for _ in 0..u64::MAX {
        let held = begun.held;
        let got = input.read(&mut block[held..])?;
        if got == 0 {
            if held > 0 {
                judge.judge(&block[..held]);
            }
            return Ok(());
        }
        begun = take_block(block, held + got, begun, judge);
    }
    Err(io::Error::other("the list does not end"))
}

// Replays a list and prints what came of it. A list that cannot be read to its end gets no such line.
pub fn replay<R: Read, P: Print>(to: &P, input: &mut R, name: &[u8]) -> io::Result<()> {
    let mut block = [0u8; BLOCK];
    let mut out = [0u8; BLOCK];
    let mut text = [0u8; BLOCK];
    let mut judge = Judge {
        to,
        tally: Tally::default(),
        out: &mut out,
        text: &mut text,
    };
    read_all(input, &mut block, &mut judge)?;
    let tally = judge.tally;
    let mut line = Output::new(&mut block);
    line.put_all(name);
    let _ = write!(line, ": {tally}\n");
    say(to, line.bytes());
    Ok(())
}
