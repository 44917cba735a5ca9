// What is at a place of a line: purr's scanner.rs, missing_character.rs and read_*.rs.
//
// Each reader takes the line and a place and answers what it found with the place after it. The two are no struct, as purr's scanner
// is one (`read_atom::scanner`): a reader looks at places ahead of its own, and what it answers is a place of the whole line, so a
// struct would be made anew for each look. A reader that misses something answers the place; `missing_character` turns it into the
// desk's words. In the definitions the end of the line is 256, which is no byte.
// The readers of brackets are in `read_bracket`, those of atoms and the scanner in `read_atom`; what they answer is defined here.
//
// scanner: a byte, a digit, a number, and what is missing.
// read_bond: a bond's mark.
// read_rnum: a ring number.
#![tactic(auto)]

pub mod read_bond;
pub mod read_rnum;
pub mod scanner;
