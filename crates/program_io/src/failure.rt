// What failed, in the system's words.
ghost use Rattle.std.specs.Prelude.{◌≤◌, ◌<◌, length, drop, codes};
ghost use Rattle.std.specs.Io.{StartsWith};

use oracle_form::output::Output;
use std::fmt::Write;
use std::io;

// Room for the words of an error. Longer ones are cut.
const ROOM: usize = 256;

// What the library says after the system's words, before their number.
const NUMBER: &[u8] = b" (os error ";

// Where the number begins that the library adds to the system's words, or the end where there is none.
fn words_end(text: &[u8]) -> usize
    ensures bound { result ≤ length text.now }
    ensures number { result < length text.now → StartsWith (drop result text.now) (codes " (os error ") }
{
    text.windows(NUMBER.len())
        .position(|words| words == NUMBER)
        .unwrap_or(text.len())
}

// Writes bytes at once.
pub fn say<P: Print>(to: &P, bytes: &[u8]) {
    let _ = to.write_all(bytes);
}

// Says what failed, by the name that the caller has for it, and why.
pub fn fail<P: Print>(to: &P, what: &[u8], error: io::Error) {
    let mut room = [0u8; ROOM];
    let mut words = Output::new(&mut room);
    let _ = write!(words, "{error}");
    let text = words.bytes();
    say(to, what);
    say(to, b": ");
    say(to, &text[..words_end(text)]);
    say(to, b"\n");
}

#[test]
fn words_without_number(rt: HostRuntime) {
    assert!(rt;
        words_end(b"No such file or directory (os error 2)") == 25,
        "numbered"
    );
    assert!(rt; words_end(b"Is a directory (now)") == 20, "plain");
}
