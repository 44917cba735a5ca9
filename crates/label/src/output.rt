// What is written to the standard output gathers in a room first, so that short answers do not take a call each. Messages go to
// the standard error at once.
ghost use Rattle.std.specs.Prelude.{◌≡◌};

use oracle_form::output::Output;
use program_io::failure::fail;
use std::io::{ErrorKind, Stderr, Stdout};

#[derive(Drop)]
pub struct Gathered<'a> {
    // What has gathered.
    pub out: Output<'a>,
    // Whether a write has failed. After that nothing more is written.
    pub has_failed: bool,
    // Where what has gathered goes, and where messages do.
    pub answers: Stdout,
    pub errors: Stderr,
}

impl<'a> Gathered<'a> {
    // Nothing has gathered.
    pub fn new(room: &'a mut [u8], answers: Stdout, errors: Stderr) -> Self
        ensures { result.out.end ≡ 0 }
    {
        Gathered {
            out: Output::new(room),
            has_failed: false,
            answers,
            errors,
        }
    }

    // Writes what has gathered. The first write that fails is told, unless it fails since nobody reads any more.
    pub fn flush(&mut self)
        ensures { self.new.out.end ≡ 0 }
    {
        if !self.has_failed {
            self.write();
        }
        self.out.clear();
    }

    fn write(&mut self) {
        if let Err(error) = self.answers.write_all(self.out.bytes()) {
            self.has_failed = true;
            if error.kind() != ErrorKind::BrokenPipe {
                fail(&self.errors, b"label: standard output", error);
            }
        }
    }

    // Makes room for so many bytes, where they do not fit after what is there.
    pub fn make_room(&mut self, bytes: usize) {
        if self.out.room.len() - self.out.end < bytes {
            self.flush();
        }
    }

    // The bytes more, after what has gathered.
    pub fn pass_on(&mut self, run: &[u8]) {
        self.make_room(run.len());
        self.out.put_all(run);
    }
}
