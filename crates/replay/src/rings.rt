// Requests about a ring number: `spellrnum`.
use crate::sizes::HIGHEST_RING;
use oracle_form::output::Output;
use oracle_form::reader::Reader;
use oracle_form::{number, text};
use spell::spell_rnum;

// No ring number's text is longer.
const LONGEST: usize = 3;

pub fn answer(arguments: &[u8], out: &mut Output<'_>) -> Option<()> {
    let mut r = Reader::new(arguments);
    let n = number::parse_word(&mut r)?;
    if !r.is_at_end() || HIGHEST_RING < n {
        return None;
    }
    let mut spelling = [0u8; LONGEST];
    let len = spell_rnum(&mut spelling, n);
    text::put(out, &spelling[..len]);
    Some(())
}
