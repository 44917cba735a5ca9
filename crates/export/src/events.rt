// The builder's start, its events and its build, over tables, the words of a state and a report. Words that stand for no
// state, no atom or no bond are answered 17. An event that is refused changes nothing but the report.
ghost use Rattle.std.specs.Prelude.{◌≡◌};
ghost use Rattle.export.specs.Events.{cells_of_builder, start_x, builder_root_x, builder_extend_x, builder_join_x, builder_pop_x, made, build_x};

use builder::builder::Builder;
use desk_builder::calls;
use desk_report::answer::{Report, refuse};
use desk_report::keep::{keep_builder, keep_event};
use desk_report::state::{BUILDER_WORDS, StateWords};
use feature::bond_kind::decode;
use packing::kind;
use table::clear;

// A builder that has seen no event, over the tables that its events will be lent: its state, and its ring numbers all free.
#[tactic(auto, unfolding(crate::specs::Events::start_x, crate::specs::Events::builder_begun, crate::specs::Events::builder_unheard))]
#[unsafe(no_mangle)]
pub extern "C" fn mavisdrok_builder_start(
    atoms: &[u32],
    entries: &[u32],
    path: &[u32],
    rings: &mut [u32],
    state: &mut [u64],
    report: &mut [u64],
)
    ensures { cells_of_builder atoms.now entries.now path.now rings.new
        state.new report.new
        ≡ start_x
        (cells_of_builder atoms.now entries.now path.now rings.old
        state.old report.old) }
{
    if state.len() < BUILDER_WORDS {
        refuse(report);
        return;
    }
    keep_builder(state, report, calls::start(atoms, entries, path, rings));
}

// A first atom of a component.
#[tactic(auto, unfolding(crate::specs::Events::builder_root_x, crate::specs::Events::builder_event, crate::specs::Events::builder_after, crate::specs::Events::builder_unheard, desk_report::specs::State::on_state, crate::specs::Given::on_atom))]
#[unsafe(no_mangle)]
pub extern "C" fn mavisdrok_builder_root(
    atoms: &mut [u32],
    entries: &[u32],
    path: &mut [u32],
    rings: &[u32],
    state: &mut [u64],
    first: u32,
    second: u32,
    report: &mut [u64],
)
    ensures { cells_of_builder atoms.new entries.now path.new rings.now
        state.new report.new
        ≡ builder_root_x
        (cells_of_builder atoms.old entries.now path.old rings.now
        state.old report.old) first second }
{
    let (Some(k), Some(b)) = (kind(first, second), Builder::read(state)) else {
        refuse(report);
        return;
    };
    keep_event(
        state,
        report,
        calls::root(atoms, entries, path, rings, b, k),
    );
}

// A new atom, bonded to the current one.
#[tactic(auto, unfolding(crate::specs::Events::builder_extend_x, crate::specs::Events::builder_event, crate::specs::Events::builder_after, crate::specs::Events::builder_unheard, desk_report::specs::State::on_state, crate::specs::Given::on_atom, crate::specs::Given::on_bond))]
#[unsafe(no_mangle)]
pub extern "C" fn mavisdrok_builder_extend(
    atoms: &mut [u32],
    entries: &mut [u32],
    path: &mut [u32],
    rings: &[u32],
    state: &mut [u64],
    bond: u32,
    first: u32,
    second: u32,
    report: &mut [u64],
)
    ensures { cells_of_builder atoms.new entries.new path.new rings.now
        state.new report.new
        ≡ builder_extend_x
        (cells_of_builder atoms.old entries.old path.old rings.now
        state.old report.old) bond first second }
{
    let (Some(t), Some(k), Some(b)) = (kind(first, second), decode(bond), Builder::read(state))
    else {
        refuse(report);
        return;
    };
    keep_event(
        state,
        report,
        calls::extend(atoms, entries, path, rings, b, k, t),
    );
}

// A ring number at the current atom.
#[tactic(auto, unfolding(crate::specs::Events::builder_join_x, crate::specs::Events::builder_event, crate::specs::Events::builder_after, crate::specs::Events::builder_unheard, desk_report::specs::State::on_state, crate::specs::Given::on_bond))]
#[unsafe(no_mangle)]
pub extern "C" fn mavisdrok_builder_join(
    atoms: &[u32],
    entries: &mut [u32],
    path: &[u32],
    rings: &mut [u32],
    state: &mut [u64],
    bond: u32,
    number: u32,
    report: &mut [u64],
)
    ensures { cells_of_builder atoms.now entries.new path.now rings.new
        state.new report.new
        ≡ builder_join_x
        (cells_of_builder atoms.now entries.old path.now rings.old
        state.old report.old) bond number }
{
    let (Some(k), Some(b)) = (decode(bond), Builder::read(state)) else {
        refuse(report);
        return;
    };
    keep_event(
        state,
        report,
        calls::join(atoms, entries, path, rings, b, k, number as usize),
    );
}

// So many atoms off the path. A pop beyond it empties it.
#[tactic(auto, unfolding(crate::specs::Events::builder_pop_x, crate::specs::Events::builder_event, crate::specs::Events::builder_after, crate::specs::Events::builder_unheard, desk_report::specs::State::on_state))]
#[unsafe(no_mangle)]
pub extern "C" fn mavisdrok_builder_pop(
    atoms: &[u32],
    entries: &[u32],
    path: &[u32],
    rings: &[u32],
    state: &mut [u64],
    n: usize,
    report: &mut [u64],
)
    ensures { cells_of_builder atoms.now entries.now path.now rings.now
        state.new report.new
        ≡ builder_pop_x
        (cells_of_builder atoms.now entries.now path.now rings.now
        state.old report.old) n }
{
    let Some(b) = Builder::read(state) else {
        refuse(report);
        return;
    };
    keep_event(state, report, calls::pop(atoms, entries, path, rings, b, n));
}

// The graph in its final form. A refused build leaves zeros in both tables.
#[tactic(auto, using(crate::proofs::Reports::built_told), unfolding(crate::specs::Events::build_x, desk_report::specs::State::on_state))]
#[unsafe(no_mangle)]
pub extern "C" fn mavisdrok_builder_build(
    atoms: &mut [u32],
    bonds: &mut [u32],
    entries: &[u32],
    path: &[u32],
    rings: &[u32],
    state: &[u64],
    report: &mut [u64],
)
    ensures { made atoms.new bonds.new report.new
        ≡ build_x
        (cells_of_builder atoms.old entries.now path.now rings.now
        state.now report.old) bonds.old }
{
    let Some(b) = Builder::read(state) else {
        clear(atoms);
        clear(bonds);
        refuse(report);
        return;
    };
    Report::from(calls::build(atoms, bonds, entries, path, rings, b)).lay(report);
}
