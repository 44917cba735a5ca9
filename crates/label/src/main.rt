// `label`, the desk's command line. It answers each line of its inputs by a line of the standard output:
//
//     NUMBER TAB ANSWER TAB NAME
//
// A line is a SMILES text and, after the first blank or tab, the name of the vial, which is carried through as it is.
// The number is the desk's. Inputs, lines and names may be of any length: the memory that is needed does not grow.
//
// The commands:
//     rewrite: the line that the text is written as, once read, or why there is none. This is what no command means, too.
//     order: the order in which its atoms are then written, or the same refusal. For each, separated by `:`, its number in
//         the text, its number in that order, and its text as written; a `;` between them.
//     graph: the graph that the text means, or why it means none.
//     check: the same refusals in words for people, with the text and marks at the places; where there is none, counts.
//     smi: the lines themselves, each text as it is written, a refused line behind a `#`.
// A command more is a variant and a word in `command`, and an arm in `answer`.
//
// command: the commands, and what the arguments ask for.
// answer: the answer to a text; its words are in `label_text`.
// counts: what came of all lines.
// output: what is written, gathered in a room.
// line: a line, piece by piece.
// tray: all lines of all inputs.
#![tactic(auto)]

mod answer;
mod command;
mod counts;
mod line;
mod output;
mod tray;

use command::Status;

// Answers what is asked, and with which status the program is to end: 0 if all lines were done, 1 if some were refused, 2 if
// something was not read, not written or not understood. This main answers nothing, so it drops the status; where `./label`
// compiles the program, its start calls this and ends with the status, so it stays a function of this name and type.
fn run(rt: &HostRuntime) -> i32 {
    let status = match command::read_arguments(rt) {
        Some(asked) => tray::answer_all(rt, rt.stdout(), rt.stderr(), asked),
        None => {
            command::print_usage(rt.stderr());
            Status::NotDone
        }
    };
    status as i32
}

fn main(rt: HostRuntime) {
    run(&rt);
}
