// The writer's events, over an output, a table of starts, the words of a state and a report. Words that stand for no state, no
// atom or no bond are answered 17. An event that is refused changes nothing but the report.
ghost use Rattle.std.specs.Prelude.{◌≡◌};
ghost use Rattle.export.specs.Lines.{cells_of_writer, writer_root_x, writer_extend_x, writer_join_x, writer_pop_x};

use desk_report::answer::refuse;
use desk_report::keep::keep_writer;
use desk_report::state::StateWords;
use feature::bond_kind::decode;
use packing::kind;
use writer::{Line, Writer};

// A first atom of a component.
#[tactic(auto, unfolding(crate::specs::Lines::writer_root_x, crate::specs::Lines::writer_event, crate::specs::Lines::writer_after, crate::specs::Lines::writer_unheard, desk_report::specs::State::on_state, crate::specs::Given::on_atom))]
#[unsafe(no_mangle)]
pub extern "C" fn mavisdrok_writer_root(
    out: &mut [u8],
    starts: &mut [u32],
    state: &mut [u64],
    first: u32,
    second: u32,
    report: &mut [u64],
)
    ensures { cells_of_writer out.new starts.new state.new report.new
        ≡ writer_root_x (cells_of_writer out.old starts.old state.old report.old) first second }
{
    let (Some(k), Some(w)) = (kind(first, second), Writer::read(state)) else {
        refuse(report);
        return;
    };
    let mut line = Line { at: w, out, starts };
    keep_writer(state, report, desk_writer::root(&mut line, k));
}

// An atom bonded to the one before.
#[tactic(auto, unfolding(crate::specs::Lines::writer_extend_x, crate::specs::Lines::writer_event, crate::specs::Lines::writer_after, crate::specs::Lines::writer_unheard, desk_report::specs::State::on_state, crate::specs::Given::on_atom, crate::specs::Given::on_bond))]
#[unsafe(no_mangle)]
pub extern "C" fn mavisdrok_writer_extend(
    out: &mut [u8],
    starts: &mut [u32],
    state: &mut [u64],
    bond: u32,
    first: u32,
    second: u32,
    report: &mut [u64],
)
    ensures { cells_of_writer out.new starts.new state.new report.new
        ≡ writer_extend_x (cells_of_writer out.old starts.old state.old report.old) bond first second }
{
    let (Some(t), Some(k), Some(w)) = (kind(first, second), decode(bond), Writer::read(state))
    else {
        refuse(report);
        return;
    };
    let mut line = Line { at: w, out, starts };
    keep_writer(state, report, desk_writer::extend(&mut line, k, t));
}

// A ring number at the last piece.
#[tactic(auto, unfolding(crate::specs::Lines::writer_join_x, crate::specs::Lines::writer_event, crate::specs::Lines::writer_after, crate::specs::Lines::writer_unheard, desk_report::specs::State::on_state, crate::specs::Given::on_bond))]
#[unsafe(no_mangle)]
pub extern "C" fn mavisdrok_writer_join(
    out: &mut [u8],
    starts: &mut [u32],
    state: &mut [u64],
    bond: u32,
    number: u32,
    report: &mut [u64],
)
    ensures { cells_of_writer out.new starts.new state.new report.new
        ≡ writer_join_x (cells_of_writer out.old starts.old state.old report.old) bond number }
{
    let (Some(k), Some(w)) = (decode(bond), Writer::read(state)) else {
        refuse(report);
        return;
    };
    let mut line = Line { at: w, out, starts };
    keep_writer(state, report, desk_writer::join(&mut line, k, number));
}

// The last pieces, so many, put in brackets onto the piece before.
#[tactic(auto, unfolding(crate::specs::Lines::writer_pop_x, crate::specs::Lines::writer_event, crate::specs::Lines::writer_after, crate::specs::Lines::writer_unheard, desk_report::specs::State::on_state))]
#[unsafe(no_mangle)]
pub extern "C" fn mavisdrok_writer_pop(
    out: &mut [u8],
    starts: &mut [u32],
    state: &mut [u64],
    n: usize,
    report: &mut [u64],
)
    ensures { cells_of_writer out.new starts.new state.new report.new
        ≡ writer_pop_x (cells_of_writer out.old starts.old state.old report.old) n }
{
    let Some(w) = Writer::read(state) else {
        refuse(report);
        return;
    };
    let mut line = Line { at: w, out, starts };
    keep_writer(state, report, desk_writer::pop(&mut line, n));
}
