// Bytes laid into lent room, one after the other. What finds no room is left out.
ghost use Rattle.std.specs.Prelude.{◌≡◌, ◌<◌, ◌≤◌, ◌∷◌, ◌++◌, [], length, take};

use std::fmt;
use std::fmt::Write;

// No number has more digits.
const DIGITS: usize = 20;

#[derive(Drop)]
pub struct Output<'a> {
    pub room: &'a mut [u8],
    pub end: usize,
    ghost inside: { end ≤ length room.now },
}

impl<'a> Output<'a> {
    pub fn new(room: &'a mut [u8]) -> Self
        ensures empty { result.end ≡ 0 }
        ensures same_room { result.room.ghost_name ≡ room.entry.ghost_name }
    {
        Self { room, end: 0 }
    }

    // Behind what a room holds up to a place. A place past the room's end is brought back to it.
    pub fn behind(room: &'a mut [u8], place: usize) -> Self
        ensures kept { place ≤ length room.entry.now → result.end ≡ place }
        ensures brought_back { length room.entry.now < place → result.end ≡ length room.entry.now }
        ensures held { result.room.now ≡ room.entry.now }
        ensures same_room { result.room.ghost_name ≡ room.entry.ghost_name }
    {
        let end = place.min(room.len());
        Self { room, end }
    }

    // Lays a byte.
    pub fn put(&mut self, b: u8)
        ensures same_room { self.new.room.ghost_name ≡ self.old.room.ghost_name }
        ensures laid { take self.new.end self.new.room.now
            ≡ take (length self.old.room.now) (take self.old.end self.old.room.now ++ b ∷ []) }
    {
        if self.end < self.room.len() {
            self.room[self.end] = b;
            self.end += 1;
        }
    }

    // Lays all bytes of a word.
    pub fn put_all(&mut self, word: &[u8])
        ensures same_room { self.new.room.ghost_name ≡ self.old.room.ghost_name }
        ensures laid { take self.new.end self.new.room.now
            ≡ take (length self.old.room.now) (take self.old.end self.old.room.now ++ word.now) }
    {
        let n = word.len().min(self.room.len() - self.end);
        self.room[self.end..self.end + n].copy_from_slice(&word[..n]);
        self.end += n;
    }

    // Lays the n-th of some words, or nothing where there is none.
    pub fn put_nth(&mut self, words: &[&[u8]], n: usize)
        ensures same_room { self.new.room.ghost_name ≡ self.old.room.ghost_name }
    {
        if let Some(&word) = words.get(n) {
            self.put_all(word);
        }
    }

    // Lays a number in decimal digits. They come by way of a room of their own, since `write!` does not say of an output that its
    // room is the same afterwards.
    pub fn number(&mut self, n: usize)
        ensures same_room { self.new.room.ghost_name ≡ self.old.room.ghost_name }
    {
        let mut room = [0u8; DIGITS];
        let mut digits = Output::new(&mut room);
        let _ = write!(digits, "{n}");
        self.put_all(digits.bytes());
    }

    // Takes back all that was laid.
    pub fn clear(&mut self)
        ensures same_room { self.new.room.ghost_name ≡ self.old.room.ghost_name }
        ensures empty { self.new.end ≡ 0 }
    {
        self.end = 0;
    }

    // All that was laid.
    pub fn bytes(&self) -> &[u8]
        ensures { result.now ≡ take self.now.end self.now.room.now }
    {
        &self.room[..self.end]
    }
}

impl fmt::Write for Output<'_> {
    fn write_str(&mut self, s: &str) -> fmt::Result {
        self.put_all(s.as_bytes());
        Ok(())
    }
}
