// Plain words parsed into a table: numbers, each with a `,` after it.
ghost use Rattle.std.specs.Prelude.{◌≤◌, length, IfSome};

use oracle_form::number;
use oracle_form::reader::Reader;

// The words that are next, as many as there are or as the table has room for, and how many they are.
pub fn parse(r: &mut Reader<'_>, table: &mut [u32]) -> Option<usize>
    ensures { IfSome result (λ words. words ≤ length table.new) }
{
    for (words, place) in table.iter_mut().enumerate() {
        if !matches!(r.peek(), Some(b'0'..=b'9')) {
            return Some(words);
        }
        *place = number::parse_word(r)?;
        r.pass(b',')?;
    }
    Some(table.len())
}
