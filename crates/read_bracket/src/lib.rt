// What is within the brackets of an atom, from purr's read_*.rs.
//
// Each reader takes the line and a place, as those of `read_token` do, and answers what it found with the place after it.
//
// read_symbol: a name of the table.
// read_configuration: a mark of a template.
// read_charge: a sign with its number.
// read_bracket: the whole from "[" to "]".
#![tactic(auto)]

pub mod read_bracket;
pub mod read_charge;
pub mod read_configuration;
pub mod read_symbol;
