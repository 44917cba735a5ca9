// Requests about the walk order: `order GRAPH`.
use crate::blank::is_blank_from;
use crate::refusals::put_said;
use crate::sizes::{ATOM_TABLE, BOND_TABLE, OTHER};
use crate::tables;
use answer_text::order::{Order, put_order};
use desk_answer::of_written;
use desk_numbers::{DONE, Said};
use oracle_form::output::Output;
use oracle_form::reader::Reader;
use table::limits::ATOMS;

// How many numbers a walk leaves in each table.
fn left_by(s: Said) -> usize {
    if s.no == DONE { s.first } else { 0 }
}

pub fn answer(arguments: &[u8], out: &mut Output<'_>) -> Option<()> {
    let mut atoms = [0u32; ATOM_TABLE];
    let mut bonds = [0u32; BOND_TABLE];
    let mut walked = [OTHER; ATOMS];
    let mut number = [OTHER; ATOMS];
    let mut back = [OTHER; ATOMS];
    let g = tables::parse(&mut Reader::new(arguments), &mut atoms, &mut bonds)?;
    let said = of_written(write::order::order(
        &atoms,
        g.atoms,
        &bonds,
        g.entries,
        &mut walked,
        &mut number,
        &mut back,
    ));
    let n = left_by(said);
    if !is_blank_from(&walked, n) || !is_blank_from(&number, n) || !is_blank_from(&back, n) {
        out.put_all(b"tables not blank");
        return Some(());
    }
    put_said(out, said);
    if said.no == DONE {
        out.put(b' ');
        let order = Order {
            walked: &walked,
            number: &number,
            back: &back,
        };
        put_order(out, &atoms, n, order);
    }
    Some(())
}
