// The names that a bracket atom can have: the star, the 118 elements and the eight aromatic ones, in one ordered table.
ghost use Rattle.std.specs.Prelude.{◌≡◌, ◌/◌, ◌≤◌, get_or, unwrap_or};
ghost use Rattle.feature.specs.Names.{names, place_of, symbol_at, named_of};
ghost use Rattle.feature.specs.Steps.{head_of};
ghost use Rattle.feature.specs.Text.{letter_step, no_letter, two_letters};

// How many names there are. A symbol is the place of its name, from 0.
pub const SYMBOLS: u32 = 127;

// A name's number is this many times its first byte, and one more than its second byte where it has one. So names are
// in the order of a dictionary, and neither the byte 0 nor the end of a line after a first byte makes a name.
pub const LETTER: u32 = 512;

// Symbols that rules name.
pub const AC: u32 = 1;

pub const AS: u32 = 6;

pub const B: u32 = 9;

pub const C: u32 = 16;

pub const CS: u32 = 26;

pub const F: u32 = 34;

pub const N: u32 = 64;

pub const O: u32 = 73;

pub const P: u32 = 76;

pub const S: u32 = 93;

pub const SE: u32 = 96;
// The aromatic ones: as b c n o p s se, the last eight of the table.
pub const AROMATIC: u32 = 119;

// What the names say of two bytes that follow each other.
#[derive(Clone, Copy, Debug, PartialEq, Eq)]
pub enum Named {
    // Both together are the name of this symbol.
    Two(u32),
    // They are no name, and the first alone is that of this symbol.
    One(u32),
    // Neither is a name, and some name begins with the first.
    Begins,
    // No name begins with the first.
    Nothing,
}

// A symbol's name, or 0 where the number is no symbol, as the definition has it: whoever asks holds a symbol, and would test an
// Option in vain. The arms of the match become a constant table; the words of an array
// would be stored again at each call.
#[tactic(auto, unfolding(crate::specs::Names::names))]
pub fn name(symbol: u32) -> u32
    ensures { result ≡ get_or names symbol 0 }
{
    match symbol {
        0 => 21504, // *
        1 => 33380, // Ac
        2 => 33384, // Ag
        3 => 33389, // Al
        4 => 33390, // Am
        5 => 33395, // Ar
        6 => 33396, // As
        7 => 33397, // At
        8 => 33398, // Au
        9 => 33792, // B
        10 => 33890, // Ba
        11 => 33894, // Be
        12 => 33897, // Bh
        13 => 33898, // Bi
        14 => 33900, // Bk
        15 => 33907, // Br
        16 => 34304, // C
        17 => 34402, // Ca
        18 => 34405, // Cd
        19 => 34406, // Ce
        20 => 34407, // Cf
        21 => 34413, // Cl
        22 => 34414, // Cm
        23 => 34415, // Cn
        24 => 34416, // Co
        25 => 34419, // Cr
        26 => 34420, // Cs
        27 => 34422, // Cu
        28 => 34915, // Db
        29 => 34932, // Ds
        30 => 34938, // Dy
        31 => 35443, // Er
        32 => 35444, // Es
        33 => 35446, // Eu
        34 => 35840, // F
        35 => 35942, // Fe
        36 => 35949, // Fl
        37 => 35950, // Fm
        38 => 35955, // Fr
        39 => 36450, // Ga
        40 => 36453, // Gd
        41 => 36454, // Ge
        42 => 36864, // H
        43 => 36966, // He
        44 => 36967, // Hf
        45 => 36968, // Hg
        46 => 36976, // Ho
        47 => 36980, // Hs
        48 => 37376, // I
        49 => 37487, // In
        50 => 37491, // Ir
        51 => 38400, // K
        52 => 38515, // Kr
        53 => 39010, // La
        54 => 39018, // Li
        55 => 39027, // Lr
        56 => 39030, // Lu
        57 => 39031, // Lv
        58 => 39524, // Mc
        59 => 39525, // Md
        60 => 39528, // Mg
        61 => 39535, // Mn
        62 => 39536, // Mo
        63 => 39541, // Mt
        64 => 39936, // N
        65 => 40034, // Na
        66 => 40035, // Nb
        67 => 40037, // Nd
        68 => 40038, // Ne
        69 => 40041, // Nh
        70 => 40042, // Ni
        71 => 40048, // No
        72 => 40049, // Np
        73 => 40448, // O
        74 => 40552, // Og
        75 => 40564, // Os
        76 => 40960, // P
        77 => 41058, // Pa
        78 => 41059, // Pb
        79 => 41061, // Pd
        80 => 41070, // Pm
        81 => 41072, // Po
        82 => 41075, // Pr
        83 => 41077, // Pt
        84 => 41078, // Pu
        85 => 42082, // Ra
        86 => 42083, // Rb
        87 => 42086, // Re
        88 => 42087, // Rf
        89 => 42088, // Rg
        90 => 42089, // Rh
        91 => 42095, // Rn
        92 => 42102, // Ru
        93 => 42496, // S
        94 => 42595, // Sb
        95 => 42596, // Sc
        96 => 42598, // Se
        97 => 42600, // Sg
        98 => 42602, // Si
        99 => 42606, // Sm
        100 => 42607, // Sn
        101 => 42611, // Sr
        102 => 43106, // Ta
        103 => 43107, // Tb
        104 => 43108, // Tc
        105 => 43110, // Te
        106 => 43113, // Th
        107 => 43114, // Ti
        108 => 43117, // Tl
        109 => 43118, // Tm
        110 => 43124, // Ts
        111 => 43520, // U
        112 => 44032, // V
        113 => 44544, // W
        114 => 45158, // Xe
        115 => 45568, // Y
        116 => 45667, // Yb
        117 => 46191, // Zn
        118 => 46195, // Zr
        119 => 49780, // as
        120 => 50176, // b
        121 => 50688, // c
        122 => 56320, // n
        123 => 56832, // o
        124 => 57344, // p
        125 => 58880, // s
        126 => 58982, // se
        _ => 0,
    }
}

// The first of the names that begin with a byte, or the star where none does: an index into the table, for speed.
#[tactic(auto, unfolding(crate::specs::Names::names, crate::specs::Names::place_of, crate::specs::Steps::first_bytes, crate::specs::Steps::head_of))]
fn first_of(byte: u32) -> u32
    ensures { result ≡ head_of byte }
{
    match byte {
        65 => 1, // A
        66 => 9, // B
        67 => 16, // C
        68 => 28, // D
        69 => 31, // E
        70 => 34, // F
        71 => 39, // G
        72 => 42, // H
        73 => 48, // I
        75 => 51, // K
        76 => 53, // L
        77 => 58, // M
        78 => 64, // N
        79 => 73, // O
        80 => 76, // P
        82 => 85, // R
        83 => 93, // S
        84 => 102, // T
        85 => 111, // U
        86 => 112, // V
        87 => 113, // W
        88 => 114, // X
        89 => 115, // Y
        90 => 117, // Z
        97 => 119, // a
        98 => 120, // b
        99 => 121, // c
        110 => 122, // n
        111 => 123, // o
        112 => 124, // p
        115 => 125, // s
        _ => 0,
    }
}

// The symbol that has a name's number, if one has: a pass from the first name with its first byte on. The names are in order, so
// it ends at one that is beyond the number.
fn find_from(head: u32, key: u32) -> Option<u32>
    requires { head ≡ head_of (key / letter_step) }
    ensures { result ≡ symbol_at (place_of key names) }
{
    for place in head..SYMBOLS {
        let here = name(place);
        if here == key {
            return Some(place);
        }
        if key < here {
            return None;
        }
    }
    None
}

// The symbol that has a name's number, if one has.
pub fn find(key: u32) -> Option<u32>
    ensures { result ≡ symbol_at (place_of key names) }
{
    find_from(first_of(key / LETTER), key)
}

// The symbol whose name these two letters are, if one has it. No name has a second letter below "a", so there is no pass then.
#[tactic(auto, using(crate::proofs::Names::no_second, crate::proofs::Names::no_end))]
fn two_letters(head: u32, first: u32, second: Option<u8>) -> Option<u32>
    requires { (head ≡ head_of first) × (first ≤ 255) }
    ensures { result ≡ symbol_at (place_of (two_letters first (unwrap_or second no_letter)) names) }
{
    let second = second?;
    if second < b'a' {
        return None;
    }
    find_from(head, first * LETTER + u32::from(second) + 1)
}

// What the names say of a byte and the one after it, of which there is none at the end of a line: one pass over the names that
// begin with the byte. Of these its own name, where it has one, is the first.
#[tactic(auto, using(crate::proofs::Names::head_byte, crate::proofs::Names::nothing_named, crate::proofs::Names::two_named, crate::proofs::Names::one_named, crate::proofs::Names::begins_named))]
pub fn look_up(first: u32, second: Option<u8>) -> Named
    ensures { result ≡ named_of first (unwrap_or second no_letter) }
{
    let head = first_of(first);
    if name(head) / LETTER != first {
        return Named::Nothing;
    }
    if let Some(two) = two_letters(head, first, second) {
        return Named::Two(two);
    }
    if name(head) == first * LETTER {
        return Named::One(head);
    }
    Named::Begins
}
