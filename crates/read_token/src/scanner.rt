// The byte, the digit and the number at a place, and what it means that something is missing there.
ghost use Rattle.std.specs.Prelude.{◌≡◌, ◌+◌, ◌*◌, ◌≤◌};
ghost use Rattle.read_token.specs.Scan.{Peeked, DigitRead, Sized, digit_step, number_at, missing_at};

use feature::atom_kind::AtomKind;

// What a reader that cannot fail found, and the place after it.
#[derive(Clone, Copy, Debug, PartialEq, Eq)]
pub struct Part<T> {
    pub value: T,
    pub next: usize,
}

// What is missing: 1 and 2 of the desk's numbers.
#[derive(Clone, Copy, Debug, PartialEq, Eq)]
pub enum Missing {
    EndOfLine,
    Character(usize),
}

// What a reader within brackets found and the place after it, or the place at which something is missing.
pub type Step = Result<(u32, usize), usize>;

// An atom and the place after it, no atom, or what is missing of one.
pub type Found = Result<Option<(AtomKind, usize)>, Missing>;

// The byte at a place, and none past the end.
#[tactic(auto, unfolding(crate::specs::Scan::peek_at))]
pub fn peek(s: &[u8], at: usize) -> Option<u8>
    ensures { Peeked s.now at result }
{
    s.get(at).copied()
}

// The digit at a place, if one is there.
#[tactic(auto, unfolding(crate::specs::Scan::digit_at, crate::specs::Scan::digit_of))]
pub fn digit(s: &[u8], at: usize) -> Option<u32>
    ensures { DigitRead s.now at result }
{
    match peek(s, at)? {
        b @ b'0'..=b'9' => Some(u32::from(b - b'0')),
        _ => None,
    }
}

// One digit more, if there is one.
#[tactic(auto, unfolding(crate::specs::Scan::digit_step))]
fn more(s: &[u8], p: Part<u32>) -> Part<u32>
    requires { p.value ≤ 99 }
    ensures { Sized result (digit_step s.now p) (p.value * 10 + 9) }
{
    let Some(d) = digit(s, p.next) else {
        return p;
    };
    Part {
        value: p.value * 10 + d,
        next: p.next + 1,
    }
}

// At most three digits. That there is none shows by the place, which is then where it was.
#[tactic(auto, unfolding(crate::specs::Scan::number_at))]
pub fn number(s: &[u8], at: usize) -> Part<u32>
    ensures { Sized result (number_at s.now at) 999 }
{
    let a = more(s, Part { value: 0, next: at });
    let b = more(s, a);
    more(s, b)
}

// Something is missing at a place: a character, unless the line has ended.
#[tactic(auto, unfolding(crate::specs::Scan::missing_at))]
pub fn missing_character(s: &[u8], at: usize) -> Missing
    ensures { result ≡ missing_at s.now at }
{
    if at < s.len() {
        Missing::Character(at)
    } else {
        Missing::EndOfLine
    }
}
