// An atom, a bond and a ring number as text: purr's Display, slips included, but for ring number 73.
//
// Each call lays its bytes into the output that it is lent, from the first byte on. A byte that finds no room is not laid
// and is still counted, so the answer is the text's length whatever was lent. So a place beside the output is no part of it that is
// left, and no struct holds the two.
#![tactic(auto)]

ghost use Rattle.std.specs.Prelude.{◌≡◌, [], ◌∷◌, ◌+◌, ◌-◌, ◌^◌, ◌<◌, ◌≤◌, ◌/◌, ◌%◌, get_or};
ghost use Rattle.feature.specs.Kinds.{no_number, no_hydrogens, no_charge, configurations, sp};
ghost use Rattle.feature.specs.Steps.{GoodKind, Within};
ghost use Rattle.feature.specs.Names.{symbols};
ghost use Rattle.spell.specs.Spell.{Laid, digits, name_text, symbol_text, number_text, template_text, marked_text, configuration_text, hydrogens_text, charge_text, map_text, bracket_text, organic_symbols, kind_text, atom_text, bond_text, rnum_text};

use feature::atom_kind::{
    AL, ALIPHATICS, AtomKind, BracketAtom, NEUTRAL, NO_CHARGE, NO_CONFIGURATION, NO_HYDROGENS,
    NO_NUMBER, OH, SP, TB, TH2,
};
use feature::bond_kind::BondKind;
use feature::element;

// A byte at a place, where there is room; the place after it.
pub fn put(out: &mut [u8], at: usize, b: u8) -> usize
    requires { at < 2 ^ 62 }
    ensures { Laid 1 out.old at (b ∷ []) out.new result }
{
    if at < out.len() {
        out[at] = b;
    }
    at + 1
}

fn put_digit(out: &mut [u8], at: usize, d: u32) -> usize
    requires { (at ≤ 1000) × (d < 10) }
    ensures { Laid 1 out.old at ((48 + d) ∷ []) out.new result }
{
    put(out, at, (48 + d) as u8)
}

// A number below 100, with no zero in front.
#[tactic(auto, unfolding(crate::specs::Spell::digits))]
fn put_pair(out: &mut [u8], at: usize, n: u32) -> usize
    requires { (at ≤ 900) × (n < 100) }
    ensures { Laid 2 out.old at (digits n) out.new result }
{
    if n < 10 {
        return put_digit(out, at, n);
    }
    let a = put_digit(out, at, n / 10);
    put_digit(out, a, n % 10)
}

// A number below 1,000, with no zeros in front.
#[tactic(auto, unfolding(crate::specs::Spell::digits))]
fn put_digits(out: &mut [u8], at: usize, n: u32) -> usize
    requires { (at ≤ 900) × (n < 1000) }
    ensures { Laid 3 out.old at (digits n) out.new result }
{
    if n < 100 {
        return put_pair(out, at, n);
    }
    let a = put_digit(out, at, n / 100);
    let b = put_digit(out, a, n / 10 % 10);
    put_digit(out, b, n % 10)
}

#[tactic(auto, unfolding(crate::specs::Spell::number_text))]
fn put_isotope(out: &mut [u8], at: usize, isotope: u32) -> usize
    requires { (at ≤ 900) × (isotope ≤ no_number) }
    ensures { Laid 3 out.old at (number_text isotope) out.new result }
{
    if isotope == NO_NUMBER {
        return at;
    }
    put_digits(out, at, isotope)
}

// A symbol's name as the table has it.
#[tactic(auto, using(feature::proofs::Names::first_small, feature::proofs::Names::second_small), unfolding(crate::specs::Spell::name_text))]
fn put_name(out: &mut [u8], at: usize, symbol: u32) -> usize
    requires { (at ≤ 900) × (symbol < symbols) }
    ensures { Laid 2 out.old at (name_text symbol) out.new result }
{
    let name = element::name(symbol);
    let first = name / element::LETTER;
    let second = name % element::LETTER;
    let a = put(out, at, first as u8);
    if second == 0 {
        return a;
    }
    put(out, a, (second - 1) as u8)
}

// Caesium is written as actinium, a slip of the Rust.
#[tactic(auto, unfolding(crate::specs::Spell::symbol_text))]
fn put_symbol(out: &mut [u8], at: usize, symbol: u32) -> usize
    requires { (at ≤ 900) × (symbol < symbols) }
    ensures { Laid 2 out.old at (symbol_text symbol) out.new result }
{
    if symbol == element::CS {
        return put_name(out, at, element::AC);
    }
    put_name(out, at, symbol)
}

// "@", two letters and a number.
#[tactic(auto, unfolding(crate::specs::Spell::template_text))]
fn put_template(out: &mut [u8], at: usize, first: u8, second: u8, n: u32) -> usize
    requires { (at ≤ 800) × (n < 100) }
    ensures { Laid 5 out.old at (template_text first second n) out.new result }
{
    let a = put(out, at, b'@');
    let b = put(out, a, first);
    let c = put(out, b, second);
    put_pair(out, c, n)
}

// Five templates are not written as their own: AL1, AL2, TB20, OH3 and OH14, slips of the Rust.
#[tactic(auto, unfolding(crate::specs::Spell::marked_text))]
fn put_marked(out: &mut [u8], at: usize, c: u32) -> usize
    requires { (at ≤ 800) × (c < configurations) × (sp < c) }
    ensures { Laid 5 out.old at (marked_text c) out.new result }
{
    if c <= TB {
        return put_template(out, at, b'S', b'P', c - SP);
    }
    if c == TB + 20 || c == OH + 3 {
        return put_template(out, at, b'T', b'H', 1);
    }
    if c <= OH {
        return put_template(out, at, b'T', b'B', c - TB);
    }
    if c == OH + 14 {
        return put_template(out, at, b'O', b'H', 6);
    }
    put_template(out, at, b'O', b'H', c - OH)
}

#[tactic(auto, unfolding(crate::specs::Spell::configuration_text))]
fn put_configuration(out: &mut [u8], at: usize, c: u32) -> usize
    requires { (at ≤ 800) × (c < configurations) }
    ensures { Laid 5 out.old at (configuration_text c) out.new result }
{
    if c == NO_CONFIGURATION {
        return at;
    }
    if SP < c {
        return put_marked(out, at, c);
    }
    let a = put(out, at, b'@');
    if c == TH2 || c == AL + 2 {
        return put(out, a, b'@');
    }
    a
}

// H0 is written as nothing, a slip of the Rust.
#[tactic(auto, unfolding(crate::specs::Spell::hydrogens_text))]
fn put_hydrogens(out: &mut [u8], at: usize, h: u32) -> usize
    requires { (at ≤ 900) × (h ≤ no_hydrogens) }
    ensures { Laid 2 out.old at (hydrogens_text h) out.new result }
{
    if h == NO_HYDROGENS || h == 0 {
        return at;
    }
    let a = put(out, at, b'H');
    if h == 1 {
        return a;
    }
    put_digit(out, a, h)
}

// A sign and a number; the number 1 is not written. A charge of 0 is written as nothing, and before a charge of 5 comes
// a blank: slips of the Rust.
#[tactic(auto, unfolding(crate::specs::Spell::charge_text))]
fn put_charge(out: &mut [u8], at: usize, q: u32) -> usize
    requires { (at ≤ 800) × (q ≤ no_charge) }
    ensures { Laid 3 out.old at (charge_text q) out.new result }
{
    if q == NO_CHARGE || q == NEUTRAL {
        return at;
    }
    if q == NEUTRAL + 1 {
        return put(out, at, b'+');
    }
    if q == NEUTRAL - 1 {
        return put(out, at, b'-');
    }
    if q == NEUTRAL + 5 {
        let a = put(out, at, b' ');
        let b = put(out, a, b'+');
        return put_digit(out, b, 5);
    }
    if NEUTRAL < q {
        let a = put(out, at, b'+');
        return put_pair(out, a, q - NEUTRAL);
    }
    let a = put(out, at, b'-');
    put_pair(out, a, NEUTRAL - q)
}

#[tactic(auto, unfolding(crate::specs::Spell::map_text))]
fn put_map(out: &mut [u8], at: usize, map: u32) -> usize
    requires { (at ≤ 800) × (map ≤ no_number) }
    ensures { Laid 4 out.old at (map_text map) out.new result }
{
    if map == NO_NUMBER {
        return at;
    }
    let a = put(out, at, b':');
    put_digits(out, a, map)
}

fn put_bracket(out: &mut [u8], b: BracketAtom) -> usize
    requires { Within b }
    ensures { Laid 21 out.old 0 (bracket_text b) out.new result }
{
    let a = put(out, 0, b'[');
    let i = put_isotope(out, a, b.isotope);
    let y = put_symbol(out, i, b.symbol);
    let c = put_configuration(out, y, b.configuration);
    let h = put_hydrogens(out, c, b.hydrogens);
    let q = put_charge(out, h, b.charge);
    let m = put_map(out, q, b.map);
    put(out, m, b']')
}

// An organic symbol's place in the table of names: B C N O S P F Cl Br I At Ts, then b c n o p s.
#[tactic(auto, unfolding(crate::specs::Spell::organic_symbols))]
fn organic_symbol(n: u32) -> u32
    requires { n < 18 }
    ensures { (result ≡ get_or organic_symbols n 0) × (result < symbols) }
{
    match n {
        0 => 9, // B
        1 => 16, // C
        2 => 64, // N
        3 => 73, // O
        4 => 93, // S
        5 => 76, // P
        6 => 34, // F
        7 => 21, // Cl
        8 => 15, // Br
        9 => 48, // I
        10 => 7, // At
        11 => 110, // Ts
        12 => 120, // b
        13 => 121, // c
        14 => 122, // n
        15 => 123, // o
        16 => 124, // p
        17 => 125, // s
        _ => 0,
    }
}

#[tactic(auto, unfolding(crate::specs::Spell::kind_text))]
fn put_kind(out: &mut [u8], k: AtomKind) -> usize
    requires { GoodKind k }
    ensures { Laid 21 out.old 0 (kind_text k) out.new result }
{
    match k {
        AtomKind::Star => put(out, 0, b'*'),
        AtomKind::Aliphatic(n) => put_name(out, 0, organic_symbol(n)),
        AtomKind::Aromatic(n) => put_name(out, 0, organic_symbol(ALIPHATICS + n)),
        AtomKind::Bracket(b) => put_bracket(out, b),
    }
}

// An atom's text. Numbers that stand for no atom have none, whose length is 0.
#[tactic(auto, using(feature::proofs::Ranges::good), unfolding(crate::specs::Spell::atom_text))]
pub fn spell_atom(out: &mut [u8], k: AtomKind) -> usize
    ensures { Laid 21 out.old 0 (atom_text k) out.new result }
{
    if feature::atom_kind::in_range(k) {
        return put_kind(out, k);
    }
    0
}

// A bond's text: nothing where it is elided.
#[tactic(auto, unfolding(crate::specs::Spell::bond_text))]
pub fn spell_bond(out: &mut [u8], k: BondKind) -> usize
    ensures { Laid 1 out.old 0 (bond_text k) out.new result }
{
    match k {
        BondKind::Elided => 0,
        BondKind::Single => put(out, 0, b'-'),
        BondKind::Double => put(out, 0, b'='),
        BondKind::Triple => put(out, 0, b'#'),
        BondKind::Quadruple => put(out, 0, b'$'),
        BondKind::Aromatic => put(out, 0, b':'),
        BondKind::Up => put(out, 0, b'/'),
        BondKind::Down => put(out, 0, b'\\'),
    }
}

// A ring number's text: a digit, or "%" and two. A number above 99 has none, whose length is 0.
#[tactic(auto, unfolding(crate::specs::Spell::rnum_text))]
pub fn spell_rnum(out: &mut [u8], n: u32) -> usize
    ensures { Laid 3 out.old 0 (rnum_text n) out.new result }
{
    if n < 10 {
        return put_digit(out, 0, n);
    }
    if n < 100 {
        let a = put(out, 0, b'%');
        return put_pair(out, a, n);
    }
    0
}
