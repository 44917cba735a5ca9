// Requests about a builder: `builder EVENTS`, what its events make of nothing, one after the other, and the build of it.
// The first refused event ends them.
use crate::reads::put_answer;
use crate::refusals::{Refused, put_refused};
use builder::build::build;
use builder::builder::{Builder, ENTRY_WORDS, extend, join, root};
use desk_answer::{alone, with_one};
use desk_numbers::{NO_ATOM, Said};
use oracle_form::event::{Event, Events};
use oracle_form::output::Output;
use read::{GraphSize, ReadError, built};
use table::limits::{ATOMS, BONDS, RING_NUMBER_COUNT};
use table::{ATOM_WORDS, BOND_WORDS};

// What no count of a builder exceeds.
const ENOUGH: usize = 1_000_000;

// A builder's tables.
#[derive(Drop)]
struct Tables {
    atoms: [u32; ATOMS * ATOM_WORDS],
    entries: [u32; BONDS * ENTRY_WORDS],
    path: [u32; ATOMS],
    rings: [u32; RING_NUMBER_COUNT],
}

// The builder after an event, unless its ring number is none.
fn take(tables: &mut Tables, builder: Builder, event: Event) -> Option<Builder> {
    let held = builder.atoms;
    if ENOUGH < held || ENOUGH < builder.entries || ENOUGH < builder.top || ENOUGH < builder.joins {
        return None;
    }
    match event {
        Event::Root(k) => Some(root(&mut tables.atoms, &mut tables.path, builder, k, held)),
        Event::Extend(bond, k) => Some(extend(
            &mut tables.atoms,
            &mut tables.entries,
            &mut tables.path,
            builder,
            bond,
            k,
            held,
        )),
        Event::Join(bond, number) if number < RING_NUMBER_COUNT => {
            Some(join(
                &mut tables.entries,
                &mut tables.path,
                &mut tables.rings,
                builder,
                bond,
                number,
                held,
            ))
        }
        Event::Join(..) => None,
        Event::Pop(n) => Some(builder.pop(n)),
    }
}

// A refusal of the builder's and what it carries.
fn refusal_of(builder: Builder) -> Said {
    if builder.refusal == NO_ATOM {
        return alone(builder.refusal);
    }
    with_one(builder.refusal, builder.carried)
}

// The builder after all events, or the one that it refused.
fn run(tables: &mut Tables, arguments: &[u8]) -> Option<Result<Builder, Refused>> {
    let mut builder = Builder::start(ATOMS, BONDS);
    for (index, event) in Events::new(arguments).enumerate() {
        builder = take(tables, builder, event?)?;
        if builder.refusal != 0 {
            return Some(Err(Refused {
                event: index,
                said: refusal_of(builder),
            }));
        }
    }
    Some(Ok(builder))
}

fn build_graph(
    tables: &mut Tables,
    bonds: &mut [u32],
    builder: Builder,
) -> Result<GraphSize, ReadError> {
    let r = build(
        &mut tables.atoms,
        bonds,
        &tables.entries,
        &mut tables.path,
        builder,
    );
    built(r, builder)
}

pub fn answer(arguments: &[u8], out: &mut Output<'_>) -> Option<()> {
    let mut bonds = [0u32; BONDS * BOND_WORDS];
    let mut tables = Tables {
        atoms: [0; ATOMS * ATOM_WORDS],
        entries: [0; BONDS * ENTRY_WORDS],
        path: [0; ATOMS],
        rings: [0; RING_NUMBER_COUNT],
    };
    match run(&mut tables, arguments)? {
        Ok(builder) => {
            let graph = build_graph(&mut tables, &mut bonds, builder);
            put_answer(out, graph, &tables.atoms, &bonds);
        }
        Err(refused) => put_refused(out, refused),
    }
    Some(())
}
