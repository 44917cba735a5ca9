// The states of the desk's single calls as words: each number of a state a word, in the order of its fields. Words that are
// too few, or too large for their field, stand for no state. Words after those of a state are untouched.
ghost use Rattle.std.specs.Prelude.{◌≡◌, ℕ, List, Option};
ghost use Rattle.std.proofs.lemmas.List.Edits.{sets};
ghost use Rattle.desk_report.specs.State.{builder_in, writer_in, pool_in, builder_words, failure_words, event_words, failure_told, writer_list, pool_list};
ghost use Rattle.desk_report.specs.Steps.{narrow_in, failure_by};

use crate::answer::lay_words;
use builder::builder::{Builder, FailedJoin};
use join_pool::Pool;
use writer::Writer;

// The words of a builder's state.
pub const BUILDER_WORDS: usize = 11;
// Those before a failed join's atoms.
const BEFORE_FAILURE: usize = 9;

// A state that is kept as words between two calls.
pub trait StateWords {
    ghost taken: { List ℕ → Option Self };

    ghost listed: { Self → List ℕ };

    // The state that words stand for.
    fn read(lent: &[u64]) -> Option<Self>
        ensures { result ≡ taken lent.now };

    // Its words, as far as there is room.
    fn lay(self, lent: &mut [u64])
        ensures { lent.new ≡ sets lent.old 0 (listed self) };
}

// A word for a field of 32 bits.
fn narrow(word: u64) -> Option<u32>
    ensures { result ≡ narrow_in word }
{
    u32::try_from(word).ok()
}

// The failed join that a flag and two words tell of: 1 and its two atoms, or 0.
#[tactic(auto, unfolding(crate::specs::Steps::failure_by))]
fn failure(flag: u64, closing: u32, opening: u32) -> Option<Option<FailedJoin>>
    ensures { result ≡ failure_by flag closing opening }
{
    match flag {
        0 => Some(None),
        1 => Some(Some(FailedJoin { closing, opening })),
        _ => None,
    }
}

impl StateWords for Builder {
    ghost taken = { builder_in };

    ghost listed = { builder_words };

    #[tactic(auto, unfolding(crate::specs::State::builder_in))]
    fn read(lent: &[u64]) -> Option<Builder> {
        let [
            refusal,
            carried,
            places,
            slots,
            atoms,
            entries,
            top,
            joins,
            failed,
            closing,
            opening,
            ..
        ] = lent
        else {
            return None;
        };
        Some(Builder {
            refusal: narrow(*refusal)?,
            carried: *carried as usize,
            places: *places as usize,
            slots: *slots as usize,
            atoms: *atoms as usize,
            entries: *entries as usize,
            top: *top as usize,
            joins: *joins as usize,
            failed: failure(*failed, narrow(*closing)?, narrow(*opening)?)?,
        })
    }

    fn lay(self, lent: &mut [u64]) {
        lay_words(lent, &words_of(self));
    }
}

// The words of a builder's state: of the atoms of a failed join 0 where none has failed.
#[tactic(auto, unfolding(crate::specs::State::builder_words, crate::specs::State::failure_words))]
fn words_of(builder: Builder) -> [u64; BUILDER_WORDS]
    ensures { result ≡ builder_words builder }
{
    let (failed, closing, opening) = match builder.failed {
        None => (0, 0, 0),
        Some(f) => (1, u64::from(f.closing), u64::from(f.opening)),
    };
    [
        u64::from(builder.refusal),
        builder.carried as u64,
        builder.places as u64,
        builder.slots as u64,
        builder.atoms as u64,
        builder.entries as u64,
        builder.top as u64,
        builder.joins as u64,
        failed,
        closing,
        opening,
    ]
}

// Lays the state that an event has made over the words of the one before. Where no join has failed, those of a failed join's
// atoms are left as they are: whoever keeps them may have anything there.
#[tactic(auto, unfolding(crate::specs::State::builder_words, crate::specs::State::event_words, crate::specs::State::failure_words, crate::specs::State::failure_told))]
pub fn lay_event(builder: Builder, lent: &mut [u64])
    ensures { lent.new ≡ sets lent.old 0 (event_words builder) }
{
    let words = words_of(builder);
    if builder.failed.is_some() {
        lay_words(lent, &words);
    } else {
        lay_words(lent, &words[..BEFORE_FAILURE]);
    }
}

impl StateWords for Writer {
    ghost taken = { writer_in };

    ghost listed = { writer_list };

    #[tactic(auto, unfolding(crate::specs::State::writer_in))]
    fn read(lent: &[u64]) -> Option<Writer> {
        let [pieces, len, ..] = lent else {
            return None;
        };
        Some(Writer {
            pieces: *pieces as usize,
            len: *len as usize,
        })
    }

    #[tactic(auto, unfolding(crate::specs::State::writer_list))]
    fn lay(self, lent: &mut [u64]) {
        lay_words(lent, &[self.pieces as u64, self.len as u64]);
    }
}

impl StateWords for Pool {
    ghost taken = { pool_in };

    ghost listed = { pool_list };

    #[tactic(auto, unfolding(crate::specs::State::pool_in))]
    fn read(lent: &[u64]) -> Option<Pool> {
        let [counter, spare, ..] = lent else {
            return None;
        };
        Some(Pool {
            counter: narrow(*counter)?,
            spare: narrow(*spare)?,
        })
    }

    #[tactic(auto, unfolding(crate::specs::State::pool_list))]
    fn lay(self, lent: &mut [u64]) {
        lay_words(lent, &[u64::from(self.counter), u64::from(self.spare)]);
    }
}
