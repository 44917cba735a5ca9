// The words that the program was started with. They are bytes, which need not be text.
ghost use Rattle.std.specs.Prelude.{◌≤◌, length, IfOk};

use std::env::{Env, FillError};
use std::io;

// Room for a word. No file has a longer name.
pub const WORD: usize = 4096;

// The system's numbers for a word that is not there, and for one that is longer than its room.
const NO_SUCH_WORD: i32 = 22;

const NAME_TOO_LONG: i32 = 36;

// How many words there are, the program's own name among them. Each is asked for with no room, so that none is copied.
pub fn count(rt: &impl Env) -> usize {
    let mut room = [0u8; 0];
    for i in 0..usize::MAX {
        if matches!(rt.arg(i, &mut room), Err(FillError::NotPresent)) {
            return i;
        }
    }
    usize::MAX
}

// Puts a word at the start of the room and answers its length, or why it is not there.
pub fn read_word(rt: &impl Env, i: usize, room: &mut [u8]) -> io::Result<usize>
    ensures { IfOk result (λ n. n ≤ length room.new) }
{
    rt.arg(i, room).map_err(|error| match error {
        FillError::NotPresent => io::Error::from_raw_os_error(NO_SUCH_WORD),
        FillError::TooLong => io::Error::from_raw_os_error(NAME_TOO_LONG),
    })
}

// The same, but a word that is not there counts as one of no bytes.
pub fn word(rt: &impl Env, i: usize, room: &mut [u8]) -> usize
    ensures { result ≤ length room.new }
{
    read_word(rt, i, room).unwrap_or(0)
}
