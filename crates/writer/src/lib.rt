// Pieces of a line laid one after the other into one lent output, with their starts in a lent table: purr's writer.rs.
//
// lay: texts from a place of the output on.
// say: the events with nothing judged, for a walk, which compares the length with the output once at its end.
// event: the single events with their refusals.
#![tactic(auto)]

pub mod event;
mod lay;
pub mod say;

// What a writer knows beside its tables.
#[derive(Clone, Copy, Debug, PartialEq, Eq)]
pub struct Writer {
    // How many pieces are held.
    pub pieces: usize,
    // How long their line is.
    pub len: usize,
}

// A line in the making: what its writer knows, and the output and the table that are lent for it. Contracts see it as one
// record, `spoken_in` of specs/Lent.antt.
#[derive(Drop)]
pub struct Line<'a> {
    pub at: Writer,
    pub out: &'a mut [u8],
    // Where each piece starts in the output.
    pub starts: &'a mut [u32],
}

// Why a single event is refused.
#[derive(Clone, Copy, Debug, PartialEq, Eq)]
pub enum WriterError {
    // A piece more than there is room for: those held.
    AtomRoom(usize),
    // The bytes with the event done.
    OutRoom(usize),
    NoPiece,
    Overpop,
}
