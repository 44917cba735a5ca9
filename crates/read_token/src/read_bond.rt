// A bond's mark, or the elided bond where there is none.
ghost use Rattle.std.specs.Prelude.{◌≡◌};
ghost use Rattle.read_token.specs.Scan.{bond_at};

use crate::scanner::{Part, peek};
use feature::bond_kind::BondKind;

#[tactic(auto, unfolding(crate::specs::Scan::bond_at, crate::specs::Scan::sign_kind, crate::specs::Scan::mark_width))]
pub fn read_bond(s: &[u8], at: usize) -> Part<BondKind>
    ensures { result ≡ bond_at s.now at }
{
    let value = match peek(s, at) {
        Some(b'-') => BondKind::Single,
        Some(b'=') => BondKind::Double,
        Some(b'#') => BondKind::Triple,
        Some(b'$') => BondKind::Quadruple,
        Some(b':') => BondKind::Aromatic,
        Some(b'/') => BondKind::Up,
        Some(b'\\') => BondKind::Down,
        _ => {
            return Part {
                value: BondKind::Elided,
                next: at,
            };
        }
    };
    Part {
        value,
        next: at + 1,
    }
}
