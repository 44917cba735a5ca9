// Requests about the pool of ring numbers: `pool A-B,C-D,..`, the numbers that it hands out for the pairs, one after the
// other. A refusal ends them; without a pair there is a `-`.
ghost use Rattle.std.specs.Prelude.{◌<◌, length, OnSome};

use join_pool::{PAIRS, Pool};
use oracle_form::number;
use oracle_form::output::Output;
use oracle_form::reader::Reader;

// A pair, and its `,`.
fn parse_pair(r: &mut Reader<'_>) -> Option<(u32, u32)>
    ensures { OnSome result (length r.new.rest.now < length r.old.rest.now) }
{
    let left = number::parse_word(r)?;
    r.pass(b'-')?;
    let right = number::parse_word(r)?;
    r.pass_or_end(b',')?;
    Some((left, right))
}

pub fn answer(arguments: &[u8], out: &mut Output<'_>) -> Option<()> {
    if arguments.is_empty() {
        out.put(b'-');
    }
    let mut pairs = [0u32; PAIRS];
    let mut pool = Pool::empty();
    let mut r = Reader::new(arguments);
    // Until the reader has no more: there is no index.
    while !r.is_at_end() {
        let (left, right) = parse_pair(&mut r)?;
        if out.end > 0 {
            out.put(b',');
        }
        let Some(n) = pool.hit(&mut pairs, left, right) else {
            out.put_all(b"refused");
            return Some(());
        };
        out.number(n as usize);
    }
    Some(())
}
