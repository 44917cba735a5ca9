// An answer as a number of the desk's and the two values that it carries, 0 where it carries fewer.
ghost use Rattle.std.specs.Prelude.{◌≡◌};
ghost use Rattle.std.proofs.lemmas.List.Edits.{sets};
ghost use Rattle.desk_report.specs.Report.{report, bad, of_read, of_written, of_event, of_built, of_said, of_handed, of_begins, of_spelt, laid_into};

use builder::builder::Builder;
use desk_answer::{alone, with_one, with_pair, with_two};
use desk_builder::calls;
use desk_numbers::{
    BAD_TABLE, CHARACTER, DONE, END_OF_LINE, JOIN, OUT_ROOM, RING_NUMBERS, RNUM, Said,
};
use feature::atom_kind::AtomKind;
use join_pool::Pool;
use read::{GraphSize, ReadError};
use read_token::scanner::Missing;
use write::answer::WriteError;
use writer::Writer;

#[derive(Clone, Copy, Debug, PartialEq, Eq)]
pub struct Report {
    pub number: u64,
    pub first: u64,
    pub second: u64,
}

// Words laid from the start on, as far as there is room.
pub fn lay_words(lent: &mut [u64], words: &[u64])
    ensures { lent.new ≡ sets lent.old 0 words.now }
{
    let n = lent.len().min(words.len());
    lent[..n].copy_from_slice(&words[..n]);
}

impl Report {
    // Of a builder's event.
    #[tactic(auto, unfolding(crate::specs::Report::of_event))]
    pub fn of_event(builder: Builder) -> Report
        ensures { result ≡ of_event builder }
    {
        with_one(builder.refusal, builder.carried).into()
    }

    // Of the pool's call for two atoms. 0 carries the ring number.
    #[tactic(auto, unfolding(desk_pool::specs::Slots::handed_told))]
    pub fn of_handed(handed: Result<(Pool, u32), desk_pool::Refusal>, a: u32, b: u32) -> Report
        ensures { result ≡ of_handed a b handed }
    {
        match handed {
            Ok((_p, n)) => with_one(DONE, n as usize).into(),
            Err(desk_pool::Refusal::RingNumbers) => with_pair(RING_NUMBERS, a, b).into(),
            Err(desk_pool::Refusal::BadTable) => with_one(BAD_TABLE, 0).into(),
        }
    }

    // Its three words, as far as there is room.
    #[tactic(auto, unfolding(crate::specs::Report::laid_into))]
    pub fn lay(self, lent: &mut [u64])
        ensures { lent.new ≡ laid_into lent.old self }
    {
        lay_words(lent, &[self.number, self.first, self.second]);
    }
}

// What the desk says, without how much it carries.
impl From<Said> for Report {
    ghost from_gives = { λ s r. r ≡ report s.no s.first s.second };

    fn from(s: Said) -> Report {
        Report {
            number: u64::from(s.no),
            first: s.first as u64,
            second: s.second as u64,
        }
    }
}

// Of the read call. 0 carries the atoms and the bond entries.
impl From<Result<GraphSize, ReadError>> for Report {
    ghost from_gives = { λ a r. r ≡ of_read a };

    #[tactic(auto, unfolding(crate::specs::Report::of_read))]
    fn from(a: Result<GraphSize, ReadError>) -> Report {
        desk_answer::of_read(a).into()
    }
}

// Of the write call and the walk order. 0 carries the bytes, or the atoms walked.
impl From<Result<usize, WriteError>> for Report {
    ghost from_gives = { λ w r. r ≡ of_written w };

    #[tactic(auto, unfolding(crate::specs::Report::of_written))]
    fn from(w: Result<usize, WriteError>) -> Report {
        desk_answer::of_written(w).into()
    }
}

// Of a build. 0 carries the atoms and the bond entries.
impl From<Result<(usize, usize), calls::Refusal>> for Report {
    ghost from_gives = { λ b r. r ≡ of_built b };

    #[tactic(auto, unfolding(crate::specs::Report::of_built, desk_builder::specs::Build::answer_leaves))]
    fn from(built: Result<(usize, usize), calls::Refusal>) -> Report {
        match built {
            Ok((n, m)) => with_two(DONE, n, m).into(),
            Err(calls::Refusal::Join(closing, opening)) => with_pair(JOIN, closing, opening).into(),
            Err(calls::Refusal::Rnum(join)) => with_one(RNUM, join as usize).into(),
            Err(calls::Refusal::BadTable) => with_one(BAD_TABLE, 0).into(),
        }
    }
}

// Of a writer's event. 0 carries the length of the line.
impl From<Result<Writer, desk_writer::Refusal>> for Report {
    ghost from_gives = { λ s r. r ≡ of_said s };

    fn from(said: Result<Writer, desk_writer::Refusal>) -> Report {
        desk_answer::of_writer(said).into()
    }
}

// Of reading one atom. 0 carries the place after it.
impl From<Result<(AtomKind, usize), Missing>> for Report {
    ghost from_gives = { λ b r. r ≡ of_begins b };

    #[tactic(auto, unfolding(desk_atom::specs::Texts::begins_told))]
    fn from(begins: Result<(AtomKind, usize), Missing>) -> Report {
        match begins {
            Ok((_k, next)) => with_one(DONE, next).into(),
            Err(Missing::EndOfLine) => alone(END_OF_LINE).into(),
            Err(Missing::Character(place)) => with_one(CHARACTER, place).into(),
        }
    }
}

// Of the text of an atom, a bond or a ring number. 0 carries the bytes written.
impl From<Result<usize, desk_atom::Refusal>> for Report {
    ghost from_gives = { λ s r. r ≡ of_spelt s };

    #[tactic(auto, unfolding(desk_atom::specs::Texts::spelt_told))]
    fn from(spelt: Result<usize, desk_atom::Refusal>) -> Report {
        match spelt {
            Ok(n) => with_one(DONE, n).into(),
            Err(desk_atom::Refusal::OutRoom(n)) => with_one(OUT_ROOM, n).into(),
            Err(desk_atom::Refusal::BadTable) => with_one(BAD_TABLE, 0).into(),
        }
    }
}

// The report of words that stand for no state, no atom or no bond.
pub fn refuse(lent: &mut [u64])
    ensures { lent.new ≡ laid_into lent.old bad }
{
    Report::from(with_one(BAD_TABLE, 0)).lay(lent);
}
