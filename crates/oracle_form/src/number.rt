// A plain number in decimal digits.
ghost use Rattle.std.specs.Prelude.{◌<◌, length, OnSome};

use crate::reader::Reader;

// A value from here on takes no further digit, which might not fit.
const FULL: usize = 1000000000000000000;

// One digit or more. A number that might not fit counts as missing.
pub fn parse(r: &mut Reader<'_>) -> Option<usize>
    ensures { OnSome result (length r.new.rest.now < length r.old.rest.now) }
{
    let n = r.rest.iter().take_while(|b| b.is_ascii_digit()).count();
    if n == 0 {
        return None;
    }
    let mut value: usize = 0;
    for digit in r.take(n)? {
        if FULL <= value {
            return None;
        }
        value = value * 10 + usize::from(digit - b'0');
    }
    Some(value)
}

// The same, of a number that fits a word of a table.
pub fn parse_word(r: &mut Reader<'_>) -> Option<u32>
    ensures { OnSome result (length r.new.rest.now < length r.old.rest.now) }
{
    u32::try_from(parse(r)?).ok()
}
