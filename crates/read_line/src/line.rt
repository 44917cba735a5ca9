// The grammar of a line, over lent tables.
ghost use Rattle.std.specs.Prelude.{◌≡◌, List, ℕ, ◌+◌, ◌≤◌, length};
ghost use Rattle.feature.specs.Text.{byte};
ghost use Rattle.read_token.specs.Scan.{peek_at};
ghost use Rattle.builder.specs.State.{bld};
ghost use Rattle.table.specs.Limits.{text_limit};
ghost use Rattle.read_line.specs.Steps.{reached_at, reached_missing, reached_closed, ReadReady, AtomRead, RingRead, UnionRead, UnitRead, RestRead, LineRead, BranchRead};

use crate::event::{put_atom, put_missing, put_ring};
use crate::lead::{Body, Lead, body_at, read_lead};
use builder::builder::Builder;
use desk_numbers::NESTING;
use feature::bond_kind::BondKind;
use read_atom::scanner::{first_atom, missing_character, peek};
use read_token::read_rnum::read_rnum;

// Where a reading ended, how many atoms its line then has, and the builder.
#[derive(Clone, Copy)]
pub struct Reached {
    pub at: usize,
    pub n: usize,
    pub builder: Builder,
}

#[tactic(auto, unfolding(crate::specs::Steps::reached_missing))]
fn stopped(text: &[u8], at: usize, n: usize, builder: Builder) -> Reached
    ensures { result ≡ reached_missing text.now at n builder }
{
    let m = missing_character(text, at);
    let builder = put_missing(builder, m);
    Reached { at, n, builder }
}

// An atom at a place, which is its line's atom n.
fn line_atom(
    text: &[u8],
    at: usize,
    lead: Lead,
    n: usize,
    atoms: &mut [u32],
    entries: &mut [u32],
    path: &mut [u32],
    builder: Builder,
) -> Reached
    requires { ReadReady text.now at builder × (n ≤ at) }
    ensures { (s : List ℕ) → AtomRead text.now at lead n (bld atoms.old entries.old path.old s builder)
        (bld atoms.new entries.new path.new s result.builder) result.at result.n }
{
    match first_atom(text, at) {
        Ok(None) => stopped(text, at, n, builder),
        Err(m) => {
            let builder = put_missing(builder, m);
            Reached { at, n, builder }
        }
        Ok(Some((k, next))) => {
            let builder = put_atom(atoms, entries, path, builder, lead, k, at);
            Reached {
                at: next,
                n: n + 1,
                builder,
            }
        }
    }
}

// A ring number at a place.
fn line_ring(
    text: &[u8],
    at: usize,
    bond: BondKind,
    n: usize,
    entries: &mut [u32],
    path: &[u32],
    rings: &mut [u32],
    builder: Builder,
) -> Reached
    requires { ReadReady text.now at builder × (n ≤ at) }
    ensures { (a : List ℕ) → RingRead text.now at bond n (bld a entries.old path.now rings.old builder)
        (bld a entries.new path.now rings.new result.builder) result.at result.n }
{
    match read_rnum(text, at) {
        Ok(None) => stopped(text, at, n, builder),
        Err(m) => {
            let builder = put_missing(builder, m);
            Reached { at, n, builder }
        }
        Ok(Some((number, next))) => {
            let builder = put_ring(entries, path, rings, builder, bond, number as usize, at);
            Reached {
                at: next,
                n,
                builder,
            }
        }
    }
}

// An atom or a ring number.
fn line_union(
    text: &[u8],
    at: usize,
    bond: BondKind,
    n: usize,
    atoms: &mut [u32],
    entries: &mut [u32],
    path: &mut [u32],
    rings: &mut [u32],
    builder: Builder,
) -> Reached
    requires { ReadReady text.now at builder × (n ≤ at) }
    ensures { UnionRead text.now at bond n
        (bld atoms.old entries.old path.old rings.old builder)
        (bld atoms.new entries.new path.new rings.new result.builder) result.at result.n }
{
    match first_atom(text, at) {
        Ok(None) => line_ring(text, at, bond, n, entries, path, rings, builder),
        Err(m) => {
            let builder = put_missing(builder, m);
            Reached { at, n, builder }
        }
        Ok(Some((k, next))) => {
            let builder = put_atom(atoms, entries, path, builder, Lead::Bond(bond), k, at);
            Reached {
                at: next,
                n: n + 1,
                builder,
            }
        }
    }
}

// A split or a union.
fn line_unit(
    text: &[u8],
    at: usize,
    n: usize,
    atoms: &mut [u32],
    entries: &mut [u32],
    path: &mut [u32],
    rings: &mut [u32],
    builder: Builder,
) -> Reached
    requires { ReadReady text.now at builder × (n ≤ at) }
    ensures { UnitRead text.now at n (bld atoms.old entries.old path.old rings.old builder)
        (bld atoms.new entries.new path.new rings.new result.builder) result.at result.n }
{
    let l = read_lead(text, at);
    match l.value {
        Lead::Dot => line_atom(text, l.next, Lead::Dot, n, atoms, entries, path, builder),
        Lead::Bond(bond) => line_union(text, l.next, bond, n, atoms, entries, path, rings, builder),
    }
}

// The end of a branch whose line has n atoms, which are left at ")". Anything else is missing it.
#[tactic(auto, unfolding(crate::specs::Steps::reached_closed))]
fn leave_branch(text: &[u8], at: usize, n: usize, builder: Builder) -> Reached
    requires { (at ≤ length text.now) × (length text.now ≤ text_limit) }
    ensures { result ≡ reached_closed text.now at n builder }
{
    if peek(text, at) == Some(b')') {
        return Reached {
            at: at + 1,
            n: 0,
            builder: builder.pop(n),
        };
    }
    stopped(text, at, 0, builder)
}

// A branch, whose "(" is at `at`. `room` is how many more may be open. One that holds an atom alone is
// done without a call of the rest of a line, which calls this function in turn.
#[cycle(line_rest_read_branch)]
fn read_branch(
    text: &[u8],
    at: usize,
    room: usize,
    atoms: &mut [u32],
    entries: &mut [u32],
    path: &mut [u32],
    rings: &mut [u32],
    builder: Builder,
) -> Reached
    requires { ReadReady text.now at builder × (peek_at text.now at ≡ byte "(") }
    ensures { BranchRead text.now at room
        (bld atoms.old entries.old path.old rings.old builder)
        (bld atoms.new entries.new path.new rings.new result.builder) result.at }
{
    if room == 0 {
        let builder = builder.refused(NESTING, at);
        return Reached { at, n: 0, builder };
    }
    let l = read_lead(text, at + 1);
    let first = line_atom(text, l.next, l.value, 0, atoms, entries, path, builder);
    let f = first.builder;
    if f.refusal != 0 {
        return first;
    }
    if peek(text, first.at) == Some(b')') {
        return leave_branch(text, first.at, first.n, f);
    }
    let r = line_rest(
        text,
        first.at,
        first.n,
        room - 1,
        atoms,
        entries,
        path,
        rings,
        f,
    );
    let c = r.builder;
    if c.refusal != 0 {
        return r;
    }
    leave_branch(text, r.at, r.n, c)
}

// The rest of a line of so many atoms, from a place on: bodies along a loop.
#[cycle(line_rest_read_branch)]
fn line_rest(
    text: &[u8],
    at: usize,
    count: usize,
    room: usize,
    atoms: &mut [u32],
    entries: &mut [u32],
    path: &mut [u32],
    rings: &mut [u32],
    builder: Builder,
) -> Reached
    requires { ReadReady text.now at builder × (count ≤ at) }
    ensures { RestRead text.now room
        (bld atoms.old entries.old path.old rings.old builder) at count
        (bld atoms.new entries.new path.new rings.new result.builder) result.at result.n }
{
    let mut state = builder;
    let mut i = at;
    let mut n = count;
    // What comes next is seen where the last body ended, so there is nothing to iterate over.
    loop {
        let what = body_at(text, i);
        match what {
            Body::Ends => return Reached {
                at: i,
                n,
                builder: state,
            },
            Body::Branch => {
                let r = read_branch(text, i, room, atoms, entries, path, rings, state);
                let s = r.builder;
                if s.refusal != 0 {
                    return r;
                }
                i = r.at;
                state = s;
            }
            Body::Unit => {
                let r = line_unit(text, i, n, atoms, entries, path, rings, state);
                let s = r.builder;
                if s.refusal != 0 {
                    return r;
                }
                i = r.at;
                n = r.n;
                state = s;
            }
        }
    }
}

// A line: an atom, and the rest.
pub fn read_line(
    text: &[u8],
    at: usize,
    lead: Lead,
    room: usize,
    atoms: &mut [u32],
    entries: &mut [u32],
    path: &mut [u32],
    rings: &mut [u32],
    builder: Builder,
) -> Reached
    requires { ReadReady text.now at builder }
    ensures { LineRead text.now at lead room
        (bld atoms.old entries.old path.old rings.old builder)
        (bld atoms.new entries.new path.new rings.new result.builder) result.at result.n }
{
    let first = line_atom(text, at, lead, 0, atoms, entries, path, builder);
    let f = first.builder;
    if f.refusal != 0 {
        return first;
    }
    line_rest(
        text, first.at, first.n, room, atoms, entries, path, rings, f,
    )
}
