// An event of a builder or of a writer: `r`KIND, `x`BOND KIND, `j`BOND NUMBER or `p`NUMBER. Several are separated by `;`.
ghost use Rattle.std.specs.Prelude.{◌≡◌, ◌<◌, length, OnSome};
ghost use Rattle.std.specs.Iterator.{at_most};

use crate::reader::Reader;
use crate::{bond, kind, number};
use feature::atom_kind::AtomKind;
use feature::bond_kind::BondKind;

#[derive(Clone, Copy)]
pub enum Event {
    Root(AtomKind),
    Extend(BondKind, AtomKind),
    Join(BondKind, usize),
    Pop(usize),
}

// The next event and the `;` after it. The last one has none, and is followed by the text's end.
pub fn parse(r: &mut Reader<'_>) -> Option<Event>
    ensures { OnSome result (length r.new.rest.now < length r.old.rest.now) }
{
    let event = match r.next()? {
        b'r' => Event::Root(kind::parse(r)?),
        b'x' => Event::Extend(bond::parse(r)?, kind::parse(r)?),
        b'j' => Event::Join(bond::parse(r)?, number::parse(r)?),
        b'p' => Event::Pop(number::parse(r)?),
        _ => return None,
    };
    r.pass_or_end(b';')?;
    Some(event)
}

// The events of a text, one after the other, and `None` at the end of what can be read, where more follows.
#[derive(Clone, Copy)]
pub struct Events<'a> {
    reader: Reader<'a>,
}

impl<'a> Events<'a> {
    pub fn new(text: &'a [u8]) -> Self
        ensures { result.reader.rest.now ≡ text.now }
    {
        Self {
            reader: Reader::new(text),
        }
    }
}

impl<'a> Iterator for Events<'a> {
    type Item = Option<Event>;

    ghost remaining = { λ s. at_most (length s.reader.rest.now) };

    fn next(&mut self) -> Option<Option<Event>> {
        if self.reader.is_at_end() {
            return None;
        }
        let event = parse(&mut self.reader);
        if event.is_none() {
            self.reader = Reader::new(&[]);
        }
        Some(event)
    }
}
