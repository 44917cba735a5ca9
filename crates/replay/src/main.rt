// Replays lists of answers. Each argument names a list that the oracle made: for each of its lines our own answer to the
// request is computed and compared, byte for byte, with the one that is listed. oracle/README.md describes the lists.
//
// list: a list read block by block.
// line: a list's line judged.
// tally: what came of the lines so far.
// answer: our answer to a request, by its operation.
// texts, kinds, bonds, rings: requests about features.
// reads, events: about reading a line, and about a builder.
// writes, orders, pieces, pairs, reasons: about writing a graph, the walk order, a writer, the pool, and refusals in words.
// tables, words: a graph, or plain words, parsed into tables.
// blank: whether lent room holds zeros only.
// refusals: the first refused event of several.
// sizes: sizes that several of them share.
#![tactic(auto)]

use program_io::arguments::{WORD, read_word};
use program_io::failure::fail;
use program_io::{arguments, file};
use std::env::Env;
use std::fs::Files;
use std::io;

mod answer;
mod blank;
mod bonds;
mod events;
mod kinds;
mod line;
mod list;
mod orders;
mod pairs;
mod pieces;
mod reads;
mod reasons;
mod refusals;
mod rings;
mod sizes;
mod tables;
mod tally;
mod texts;
mod words;
mod writes;

// Replays the list of a name.
fn replay_named(rt: &impl Files, to: &impl Print, name: &[u8]) -> io::Result<()> {
    let mut input = file::open(rt, name)?;
    list::replay(to, &mut input, name)
}

// Replays the list that an argument names, or says why it cannot.
fn replay_argument<R: Env + Files>(rt: &R, to: &impl Print, errors: &impl Print, i: usize) {
    let mut path = [0u8; WORD];
    match read_word(rt, i, &mut path) {
        Ok(n) => {
            let name = &path[..n];
            if let Err(error) = replay_named(rt, to, name) {
                fail(errors, name, error);
            }
        }
        Err(error) => fail(errors, b"argument", error),
    }
}

fn main(rt: HostRuntime) {
    let to = rt.stdout();
    let errors = rt.stderr();
    for i in 1..arguments::count(&rt) {
        replay_argument(&rt, &to, &errors, i);
    }
}
