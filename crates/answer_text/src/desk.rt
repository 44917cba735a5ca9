// What the desk says, as text: a number, and what it carries. Where it refuses, the number has a name.
use desk_numbers::Said;
use std::fmt;

// The name of a refusal, `?` for a number that is none.
fn name(no: u32) -> &'static str {
    match no {
        desk_numbers::END_OF_LINE => "EndOfLine",
        desk_numbers::CHARACTER => "Character",
        desk_numbers::JOIN => "Join",
        desk_numbers::RNUM => "Rnum",
        desk_numbers::UNKNOWN_TARGET => "UnknownTarget",
        desk_numbers::LOOP => "Loop",
        desk_numbers::HALF_BOND => "HalfBond",
        desk_numbers::DUPLICATE_BOND => "DuplicateBond",
        desk_numbers::INCOMPATIBLE_BOND => "IncompatibleBond",
        desk_numbers::INVERSION => "Inversion",
        desk_numbers::RING_NUMBERS => "RingNumbers",
        desk_numbers::TEXT_TOO_LONG => "TextTooLong",
        desk_numbers::ATOM_ROOM => "AtomRoom",
        desk_numbers::BOND_ROOM => "BondRoom",
        desk_numbers::NESTING => "Nesting",
        desk_numbers::OUT_ROOM => "OutRoom",
        desk_numbers::BAD_TABLE => "BadTable",
        desk_numbers::NO_ATOM => "NoAtom",
        desk_numbers::OVERPOP => "Overpop",
        _ => "?",
    }
}

// What is carried, each number after a blank.
#[derive(Clone, Copy)]
pub struct Carried(pub Said);

impl fmt::Display for Carried {
    fn fmt<W: fmt::Write>(&self, f: &mut fmt::Formatter<W>) -> fmt::Result {
        let Carried(said) = *self;
        match said.carries {
            0 => Ok(()),
            1 => write!(f, " {}", said.first),
            _ => write!(f, " {} {}", said.first, said.second),
        }
    }
}

// A refusal's name and what it carries.
#[derive(Clone, Copy)]
pub struct Named(pub Said);

impl fmt::Display for Named {
    fn fmt<W: fmt::Write>(&self, f: &mut fmt::Formatter<W>) -> fmt::Result {
        let Named(said) = *self;
        write!(f, "{}{}", name(said.no), Carried(said))
    }
}

// The number and what it carries, without a name.
#[derive(Clone, Copy)]
pub struct Numbered(pub Said);

impl fmt::Display for Numbered {
    fn fmt<W: fmt::Write>(&self, f: &mut fmt::Formatter<W>) -> fmt::Result {
        let Numbered(said) = *self;
        write!(f, "{}{}", said.no, Carried(said))
    }
}

// A refusal: its number, a tab, its name and what it carries.
#[derive(Clone, Copy)]
pub struct Refusal(pub Said);

impl fmt::Display for Refusal {
    fn fmt<W: fmt::Write>(&self, f: &mut fmt::Formatter<W>) -> fmt::Result {
        let Refusal(said) = *self;
        write!(f, "{}\t{}", said.no, Named(said))
    }
}
