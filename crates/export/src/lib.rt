// The desk's calls for programs in other languages: functions over numbers and slices, with the answer in a lent report.
//
// atom: one atom read, and the text of an atom, a bond or a ring number.
// events: the builder's events and its build.
// lines: the writer's events.
// rings: a ring number from the pool.
#![tactic(auto)]

pub mod atom;
pub mod events;
pub mod lines;
pub mod rings;

ghost use Rattle.std.specs.Prelude.{◌≡◌, length};
ghost use Rattle.export.specs.Calls.{read_cells, read_x, write_cells, write_x, order_cells, order_x};

use desk_report::answer::Report;

// Reads a line. The report: the desk's number, and the values that it carries.
#[unsafe(no_mangle)]
pub extern "C" fn mavisdrok_read(
    text: &[u8],
    atoms: &mut [u32],
    bonds: &mut [u32],
    report: &mut [u64],
)
    ensures { read_cells atoms.new bonds.new report.new
        ≡ read_x text.now (length atoms.old) (length bonds.old) report.old }
{
    Report::from(read::read(text, atoms, bonds)).lay(report);
}

// Writes the graph of n atoms and m bond entries.
#[unsafe(no_mangle)]
pub extern "C" fn mavisdrok_write(
    atoms: &[u32],
    n: usize,
    bonds: &[u32],
    m: usize,
    out: &mut [u8],
    report: &mut [u64],
)
    ensures { write_cells out.new report.new
        ≡ write_x (length out.old) atoms.now n bonds.now m report.old }
{
    Report::from(write::write(atoms, n, bonds, m, out)).lay(report);
}

// The walk order of the graph of n atoms and m bond entries.
#[unsafe(no_mangle)]
pub extern "C" fn mavisdrok_order(
    atoms: &[u32],
    n: usize,
    bonds: &[u32],
    m: usize,
    walked: &mut [u32],
    number: &mut [u32],
    back: &mut [u32],
    report: &mut [u64],
)
    ensures { order_cells walked.new number.new back.new report.new
        ≡ order_x (length walked.old) (length number.old) (length back.old) atoms.now n
        bonds.now m report.old }
{
    let answer = write::order::order(atoms, n, bonds, m, walked, number, back);
    Report::from(answer).lay(report);
}
