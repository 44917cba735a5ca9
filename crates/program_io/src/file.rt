// A file by its name.
ghost use Rattle.std.specs.Prelude.{IsTrue, IsUtf8, OnOk};

use std::fs::Files;
use std::{fs, io, str};

// The system's number for bytes that are no text.
const NO_TEXT: i32 = 84;

// Opens a file to be read. A name that is no UTF-8 names none that can be opened.
pub fn open<R: Files>(rt: &R, name: &[u8]) -> io::Result<R::File>
    ensures { OnOk result (IsUtf8 name.now) }
{
    match str::from_utf8(name) {
        Ok(path) => fs::open(rt, path),
        Err(_) => Err(io::Error::from_raw_os_error(NO_TEXT)),
    }
}

// Whether the system finds no file of a name, be it that it may not look. A name that is no UTF-8 is not looked for, and not said
// to be missing.
pub fn is_missing(rt: &impl Files, name: &[u8]) -> bool
    ensures { IsTrue result → IsUtf8 name.now }
{
    let Ok(path) = str::from_utf8(name) else {
        return false;
    };
    !fs::exists(rt, path).unwrap_or(false)
}
