// The events of a writer as single calls: any tables and any numbers may be handed in. Numbers that stand for no writer's
// state, no atom or no ring number are answered 17 before the event is looked at; a refused call changes nothing.
#![tactic(auto)]

ghost use Rattle.std.specs.Prelude.{◌≡◌, true, false, ◌<◌, ltb, OnOk, OnErr, IfErr};
ghost use Rattle.feature.specs.Pick.{both};
ghost use Rattle.desk_writer.specs.declared.Refusal.TheVariants.{BadTable};
ghost use Rattle.feature.specs.Kinds.{in_range};
ghost use Rattle.table.specs.Limits.{ring_number_count};
ghost use Rattle.writer.specs.Line.{Event};
ghost use Rattle.writer.specs.Lent.{spoken_in, at_after, SameLine};
ghost use Rattle.feature.specs.Every.{every};
ghost use Rattle.desk_writer.specs.Pieces.{is_piece, pieces_stand, is_writer, refused_as, tail_of, wrote_said, event_leaves, event_d};

use feature::atom_kind::{AtomKind, in_range};
use feature::bond_kind::BondKind;
use table::limits::RING_NUMBER_COUNT;
use table::{clear_from, look};
use writer::{Line, Writer, WriterError};

// No writer's line is so long: the start of a piece has to fit a word of a table.
const FAR: usize = 2_147_483_648;

// Why an event is refused.
#[derive(Clone, Copy, Debug, PartialEq, Eq)]
pub enum Refusal {
    // A piece more than there is room for: those held.
    AtomRoom(usize),
    // The bytes with the event done.
    OutRoom(usize),
    NoPiece,
    Overpop,
    // Numbers that stand for nothing.
    BadTable,
}

// Whether a piece starts no later than it ends, which is where the next one starts, or the line's end.
#[tactic(auto, unfolding(crate::specs::Pieces::is_piece, crate::specs::Pieces::piece_end))]
fn is_piece(line: &Line<'_>, i: usize) -> bool
    requires { i < line.now.at.pieces }
    ensures { result ≡ is_piece line.now.starts.now line.now.at i }
{
    let Writer { pieces, len } = line.at;
    let start = look(line.starts, i) as usize;
    let next = i + 1;
    if next < pieces {
        start <= look(line.starts, next) as usize
    } else {
        start <= len
    }
}

fn pieces_rise(line: &Line<'_>) -> bool
    ensures { result ≡ every (is_piece line.now.starts.now line.now.at) line.now.at.pieces }
{
    (0..line.at.pieces).all(|i| is_piece(line, i))
}

#[tactic(auto, unfolding(crate::specs::Pieces::pieces_stand))]
fn pieces_stand(line: &Line<'_>) -> bool
    ensures { result ≡ pieces_stand line.now.starts.now line.now.at }
{
    if line.at.pieces == 0 {
        line.at.len == 0
    } else {
        look(line.starts, 0) == 0 && pieces_rise(line)
    }
}

#[tactic(auto, unfolding(crate::specs::Pieces::is_writer))]
fn is_writer(line: &Line<'_>) -> bool
    ensures { result ≡ is_writer (spoken_in line.now) }
{
    let Writer { pieces, len } = line.at;
    pieces <= line.piece_room() && len <= line.out.len() && len < FAR && pieces_stand(line)
}

// Whether the numbers of what an event says stand for something, and those of the state for a writer.
fn judge(fit: bool, line: &Line<'_>) -> Result<(), Refusal>
    ensures good { OnOk result (both fit (is_writer (spoken_in line.now)) ≡ true) }
    ensures bad { IfErr result (λ why. why ≡ BadTable) }
    ensures unfit { OnErr result (both fit (is_writer (spoken_in line.now)) ≡ false) }
{
    if fit && is_writer(line) {
        Ok(())
    } else {
        Err(Refusal::BadTable)
    }
}

impl From<WriterError> for Refusal {
    ghost from_gives = { λ e r. r ≡ refused_as e };

    fn from(e: WriterError) -> Refusal {
        match e {
            WriterError::AtomRoom(n) => Refusal::AtomRoom(n),
            WriterError::OutRoom(n) => Refusal::OutRoom(n),
            WriterError::NoPiece => Refusal::NoPiece,
            WriterError::Overpop => Refusal::Overpop,
        }
    }
}

// The answer to an event where the numbers stand for a writer's state, and what is left of the output. Where no piece was held
// before, nothing is known of the bytes after the line, so they are cleared. A later event writes nothing after its line and
// makes the line no shorter, so they stay zeros: clearing them each time would make a line cost its length times the output's.
#[tactic(auto, unfolding(crate::specs::Pieces::wrote_said, crate::specs::Pieces::tail_of))]
fn answer(out: &mut [u8], before: Writer, r: Result<Writer, WriterError>) -> Result<Writer, Refusal>
    ensures { (result ≡ wrote_said r) × (out.new ≡ tail_of before r out.old) }
{
    let w = r?;
    if before.pieces == 0 {
        clear_from(out, w.len);
    }
    Ok(w)
}

// A first atom of a component.
#[tactic(auto, using(crate::proofs::Stands::near_both), unfolding(crate::specs::Pieces::event_d, crate::specs::Pieces::told_leaves, crate::specs::Pieces::wrote_said, writer::specs::Lent::at_after))]
pub fn root(line: &mut Line<'_>, k: AtomKind) -> Result<Writer, Refusal>
    ensures left { event_leaves result line.new.out.now line.new.starts.now
        ≡ event_d (in_range k) (spoken_in line.old) (Event.Root k) }
    ensures state { line.new.at ≡ at_after line.old.at result }
    ensures same { SameLine line.old line.new }
{
    judge(in_range(k), line)?;
    let before = line.at;
    let wrote = line.root(k);
    answer(line.out, before, wrote)
}

// An atom bonded to the one before.
#[tactic(auto, using(crate::proofs::Stands::near_both), unfolding(crate::specs::Pieces::event_d, crate::specs::Pieces::told_leaves, crate::specs::Pieces::wrote_said, writer::specs::Lent::at_after))]
pub fn extend(line: &mut Line<'_>, b: BondKind, k: AtomKind) -> Result<Writer, Refusal>
    ensures left { event_leaves result line.new.out.now line.new.starts.now
        ≡ event_d (in_range k) (spoken_in line.old) (Event.Extend b k) }
    ensures state { line.new.at ≡ at_after line.old.at result }
    ensures same { SameLine line.old line.new }
{
    judge(in_range(k), line)?;
    let before = line.at;
    let wrote = line.extend(b, k);
    answer(line.out, before, wrote)
}

// A ring number at the last piece.
#[tactic(auto, using(crate::proofs::Stands::near_both), unfolding(crate::specs::Pieces::event_d, crate::specs::Pieces::told_leaves, crate::specs::Pieces::wrote_said, writer::specs::Lent::at_after))]
pub fn join(line: &mut Line<'_>, b: BondKind, n: u32) -> Result<Writer, Refusal>
    ensures left { event_leaves result line.new.out.now line.new.starts.now
        ≡ event_d (ltb n ring_number_count) (spoken_in line.old) (Event.Join b n) }
    ensures state { line.new.at ≡ at_after line.old.at result }
    ensures same { SameLine line.old line.new }
{
    judge((n as usize) < RING_NUMBER_COUNT, line)?;
    let before = line.at;
    let wrote = line.join(b, n);
    answer(line.out, before, wrote)
}

// The last pieces, so many, put in brackets onto the piece before.
#[tactic(auto, using(crate::proofs::Stands::near), unfolding(crate::specs::Pieces::event_d, crate::specs::Pieces::told_leaves, crate::specs::Pieces::wrote_said, writer::specs::Lent::at_after))]
pub fn pop(line: &mut Line<'_>, d: usize) -> Result<Writer, Refusal>
    ensures left { event_leaves result line.new.out.now line.new.starts.now
        ≡ event_d true (spoken_in line.old) (Event.Pop d) }
    ensures state { line.new.at ≡ at_after line.old.at result }
    ensures same { SameLine line.old line.new }
{
    judge(true, line)?;
    let before = line.at;
    let wrote = line.pop(d);
    answer(line.out, before, wrote)
}
