// A ring number from the pool, over its table, the words of its state and a report. Words that stand for no pool are answered
// 17. A call that is refused changes nothing but the report.
ghost use Rattle.std.specs.Prelude.{◌≡◌};
ghost use Rattle.export.specs.Rings.{cells_of_pool, hit_x};

use desk_report::answer::refuse;
use desk_report::keep::keep_pool;
use desk_report::state::StateWords;
use join_pool::Pool;

// A call for the pair of two atoms: the first opens a number for it, the next closes it.
#[tactic(auto, unfolding(crate::specs::Rings::hit_x, crate::specs::Rings::pool_after, desk_report::specs::State::on_state))]
#[unsafe(no_mangle)]
pub extern "C" fn mavisdrok_pool_hit(
    pairs: &mut [u32],
    state: &mut [u64],
    a: u32,
    b: u32,
    report: &mut [u64],
)
    ensures { cells_of_pool pairs.new state.new report.new
        ≡ hit_x (cells_of_pool pairs.old state.old report.old) a b }
{
    let Some(p) = Pool::read(state) else {
        refuse(report);
        return;
    };
    keep_pool(state, report, desk_pool::hit(pairs, p, a, b), a, b);
}
