// What an accepted call leaves in the words of a state, and what any event leaves beside its tables: those words and the report.
// A refused call leaves the state's words as they were.
ghost use Rattle.std.specs.Prelude.{◌≡◌};
ghost use Rattle.desk_report.specs.Report.{of_event, of_said, of_handed, laid_into};
ghost use Rattle.desk_report.specs.State.{builder_kept, event_kept, writer_kept, pool_kept};

use crate::answer::Report;
use crate::state::{StateWords, lay_event};
use builder::builder::Builder;
use join_pool::Pool;
use writer::Writer;

// What a builder's start leaves beside its tables: all words of its state, whatever was there.
#[tactic(auto, unfolding(crate::specs::State::builder_kept))]
pub fn keep_builder(state: &mut [u64], report: &mut [u64], builder: Builder)
    ensures state_after { state.new ≡ builder_kept state.old builder }
    ensures report_after { report.new ≡ laid_into report.old (of_event builder) }
{
    if builder.refusal == 0 {
        builder.lay(state);
    }
    Report::of_event(builder).lay(report);
}

// What a builder's event leaves beside its tables, over the words of the state that it was told on.
#[tactic(auto, unfolding(crate::specs::State::event_kept))]
pub fn keep_event(state: &mut [u64], report: &mut [u64], builder: Builder)
    ensures state_after { state.new ≡ event_kept state.old builder }
    ensures report_after { report.new ≡ laid_into report.old (of_event builder) }
{
    let accepted = builder.refusal == 0;
    if accepted {
        lay_event(builder, state);
    }
    Report::of_event(builder).lay(report);
}

// What a writer's event leaves beside its tables.
#[tactic(auto, unfolding(desk_writer::specs::Pieces::writer_words, crate::specs::State::writer_list))]
pub fn keep_writer(
    state: &mut [u64],
    report: &mut [u64],
    said: Result<Writer, desk_writer::Refusal>,
)
    ensures state_after { state.new ≡ writer_kept state.old said }
    ensures report_after { report.new ≡ laid_into report.old (of_said said) }
{
    if let Ok(w) = said {
        w.lay(state);
    }
    Report::from(said).lay(report);
}

// What a call of a pool for two atoms leaves beside its table.
#[tactic(auto, unfolding(desk_pool::specs::Slots::pool_words, crate::specs::State::pool_list))]
pub fn keep_pool(
    state: &mut [u64],
    report: &mut [u64],
    handed: Result<(Pool, u32), desk_pool::Refusal>,
    a: u32,
    b: u32,
)
    ensures state_after { state.new ≡ pool_kept state.old handed }
    ensures report_after { report.new ≡ laid_into report.old (of_handed a b handed) }
{
    if let Ok((p, _n)) = handed {
        p.lay(state);
    }
    Report::of_handed(handed, a, b).lay(report);
}
