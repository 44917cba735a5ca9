// A bond's kind: its reverse, its number, and what the two ends of a ring bond agree on.
ghost use Rattle.std.specs.Prelude.{◌≡◌};
ghost use Rattle.feature.specs.Bonds.{reverse_of, is_directional, NumberOf, kind_of, reconcile_of, sure_kind};

#[derive(Clone, Copy, Debug, PartialEq, Eq)]
pub enum BondKind {
    Elided,
    Single,
    Double,
    Triple,
    Quadruple,
    Aromatic,
    Up,
    Down,
}

// The kind as seen from the other end.
#[tactic(auto, unfolding(crate::specs::Bonds::reverse_of))]
pub fn reverse(k: BondKind) -> BondKind
    ensures { result ≡ reverse_of k }
{
    match k {
        BondKind::Elided => BondKind::Elided,
        BondKind::Single => BondKind::Single,
        BondKind::Double => BondKind::Double,
        BondKind::Triple => BondKind::Triple,
        BondKind::Quadruple => BondKind::Quadruple,
        BondKind::Aromatic => BondKind::Aromatic,
        BondKind::Up => BondKind::Down,
        BondKind::Down => BondKind::Up,
    }
}

// A kind's number in a table, from 1: a table of zeros holds no bond. Two functions and not From and TryFrom: whoever stores a kind
// has to know that its number is 1 to 8, which `NumberOf` says, and whoever looks has none where the number is no kind's.
#[tactic(auto, unfolding(crate::specs::Bonds::code_of))]
pub fn code(k: BondKind) -> u32
    ensures { NumberOf k result }
{
    match k {
        BondKind::Elided => 1,
        BondKind::Single => 2,
        BondKind::Double => 3,
        BondKind::Triple => 4,
        BondKind::Quadruple => 5,
        BondKind::Aromatic => 6,
        BondKind::Up => 7,
        BondKind::Down => 8,
    }
}

// The kind that a number stands for, if it stands for one.
#[tactic(auto, unfolding(crate::specs::Bonds::kind_of))]
pub fn decode(n: u32) -> Option<BondKind>
    ensures { result ≡ kind_of n }
{
    match n {
        1 => Some(BondKind::Elided),
        2 => Some(BondKind::Single),
        3 => Some(BondKind::Double),
        4 => Some(BondKind::Triple),
        5 => Some(BondKind::Quadruple),
        6 => Some(BondKind::Aromatic),
        7 => Some(BondKind::Up),
        8 => Some(BondKind::Down),
        _ => None,
    }
}

// The kind, and an elided bond for none.
#[tactic(auto, unfolding(crate::specs::Bonds::sure_kind))]
pub fn sure_kind(n: u32) -> BondKind
    ensures { result ≡ sure_kind (kind_of n) }
{
    decode(n).unwrap_or(BondKind::Elided)
}

#[tactic(auto, unfolding(crate::specs::Bonds::is_directional))]
fn is_directional(k: BondKind) -> bool
    ensures { result ≡ is_directional k }
{
    matches!(k, BondKind::Up | BondKind::Down)
}

// What the kinds at the two ends of a ring bond come to, the opening end first, or none where the two do not agree.
#[tactic(auto, using(crate::proofs::Bonds::alike, crate::proofs::Bonds::apart), unfolding(crate::specs::Bonds::reconcile_of))]
pub fn reconcile(left: BondKind, right: BondKind) -> Option<(BondKind, BondKind)>
    ensures { result ≡ reconcile_of left right }
{
    let back = reverse(right);
    if left == right {
        if is_directional(left) {
            return None;
        }
        return Some((left, right));
    }
    if left == back {
        return Some((left, right));
    }
    if left == BondKind::Elided {
        return Some((back, right));
    }
    if right == BondKind::Elided {
        return Some((left, reverse(left)));
    }
    None
}
