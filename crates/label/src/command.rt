// What may be asked of the lines, and what the arguments ask for.
use program_io::arguments;
use program_io::arguments::{WORD, word};
use std::env::Env;
use std::io::Stderr;

// With which status the program is to end.
#[derive(Clone, Copy)]
pub enum Status {
    AllDone = 0,
    SomeRefused = 1,
    NotDone = 2,
}

#[derive(Clone, Copy)]
pub enum Command {
    Rewrite,
    Order,
    Graph,
    Check,
    Smi,
}

// What the arguments ask for.
#[derive(Clone, Copy)]
pub struct Asked {
    // If a word named it.
    pub command: Option<Command>,
    // Whether no word tells that the next one is a file, so that one that names none is a slip.
    pub is_guess: bool,
    // Whether a count is to be said from time to time.
    pub has_progress: bool,
    // The first file's number among the arguments.
    pub first: usize,
}

// What a word before the first file is.
#[derive(Clone, Copy)]
enum Word {
    Command(Command),
    Progress,
    // The words after it are files, whatever they look like.
    EndOfOptions,
    UnknownOption,
    Other,
}

// A `-` alone is no option, but the standard input.
fn word_of(word: &[u8]) -> Word {
    match word {
        b"rewrite" => Word::Command(Command::Rewrite),
        b"order" => Word::Command(Command::Order),
        b"graph" => Word::Command(Command::Graph),
        b"check" => Word::Command(Command::Check),
        b"smi" => Word::Command(Command::Smi),
        b"--progress" => Word::Progress,
        b"--" => Word::EndOfOptions,
        [b'-', _, ..] => Word::UnknownOption,
        _ => Word::Other,
    }
}

// The argument numbered i.
fn word_at(rt: &impl Env, i: usize) -> Word {
    let mut room = [0u8; WORD];
    let n = word(rt, i, &mut room);
    word_of(&room[..n])
}

// What all arguments before the first file ask for, or nothing where one is not understood.
pub fn read_arguments(rt: &impl Env) -> Option<Asked> {
    let count = arguments::count(rt);
    let mut asked = Asked {
        command: None,
        is_guess: true,
        has_progress: false,
        first: count,
    };
    for i in 1..count {
        match word_at(rt, i) {
            Word::Command(command) if asked.command.is_none() => {
                asked.command = Some(command);
                asked.is_guess = false;
            }
            Word::Progress => asked.has_progress = true,
            Word::EndOfOptions => {
                return Some(Asked {
                    is_guess: false,
                    first: i + 1,
                    ..asked
                });
            }
            Word::UnknownOption => return None,
            Word::Command(_) | Word::Other => return Some(Asked { first: i, ..asked }),
        }
    }
    Some(asked)
}

// How to ask, for one who did not.
pub fn print_usage(errors: Stderr) {
    let _ = eprintln!(errors;
        "usage: label [--proved] [--progress] [rewrite|order|graph|check|smi|help] [--] [FILE ..]"
    );
}
