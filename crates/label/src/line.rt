// A line, piece by piece: its text is held until it ends and is answered then; the name after it is passed on as it comes.
//
// A line's end is a return, a line feed, or a return and a line feed. A text ends there, or at the first blank or tab. What
// is between is one piece, as far as a block has it.
//
// The text and its tables are held until the next line, so that what is to be said below an answer can be.
ghost use Rattle.std.specs.Prelude.{◌≡◌, ◌≤◌, ◌<◌, length};

use crate::answer::{Tables, Text, Told, room_for, tell};
use crate::command::{Asked, Command};
use crate::counts::Counts;
use crate::output::Gathered;
use desk_answer::alone;
use desk_numbers::TEXT_TOO_LONG;
use label_text::counted::Counted;
use label_text::why::{SHOWN_BYTES, put_comment, put_marked};
use oracle_form::output::Output;
use std::fmt::Write;

const TAB: u8 = b'\t';

const LINE_END: u8 = b'\n';

const RETURN: u8 = b'\r';

const BLANK: u8 = b' ';
// A byte order mark, which may come before the first text of an input.
pub const ORDER_MARK: &[u8] = b"\xef\xbb\xbf";
// What is said below a line of the atoms that are not kept is no longer.
const LOST_BYTES: usize = 256;
// After so many lines a count is said.
const PROGRESS: usize = 100000;

// Room for a text, and how many bytes of one have come, whether or not there was room for them.
#[derive(Drop)]
struct Held<'a> {
    room: &'a mut [u8],
    size: usize,
}

impl Held<'_> {
    // Whether there is room for so many bytes more.
    fn has_room(&self, bytes: usize) -> bool {
        self.size.saturating_add(bytes) <= self.room.len()
    }

    // Holds what finds room, and counts all.
    fn add(&mut self, run: &[u8]) {
        let begin = self.size.min(self.room.len());
        let n = run.len().min(self.room.len() - begin);
        self.room[begin..begin + n].copy_from_slice(&run[..n]);
        self.size = self.size.saturating_add(run.len());
    }

    // The text, without a byte order mark where it is an input's first.
    fn text(&self, is_first: bool) -> Text<'_> {
        let held = &self.room[..self.size.min(self.room.len())];
        match held.strip_prefix(ORDER_MARK) {
            Some(rest) if is_first => Text {
                held: rest,
                size: self.size.saturating_sub(ORDER_MARK.len()),
            },
            _ => Text {
                held,
                size: self.size,
            },
        }
    }
}

// All that lines are answered with, how far a line has come, and what came of those before it.
#[derive(Drop)]
pub struct Desk<'a> {
    command: Command,
    has_progress: bool,
    tables: Tables<'a>,
    // The text of the line, and what was told of it once it has ended: then its name follows.
    held: Held<'a>,
    told: Option<Told>,
    // Whether the last byte was a return, so that a line feed ends nothing more.
    after_return: bool,
    // What is to be written.
    pub gathered: Gathered<'a>,
    // The lines of this input that have ended, and what came of those of all.
    number: usize,
    pub counts: Counts,
}

// The room for a text and its tables.
#[derive(Drop)]
pub struct Room<'a> {
    pub text: &'a mut [u8],
    pub tables: Tables<'a>,
}

impl<'a> Desk<'a> {
    // Before the first line of the first input.
    pub fn new(asked: Asked, room: Room<'a>, gathered: Gathered<'a>) -> Self
        ensures { result.gathered.out.end ≡ gathered.entry.out.end }
    {
        let Room { text, tables } = room;
        Desk {
            command: asked.command.unwrap_or(Command::Rewrite),
            has_progress: asked.has_progress,
            tables,
            held: Held {
                room: text,
                size: 0,
            },
            told: None,
            after_return: false,
            gathered,
            number: 0,
            counts: Counts::default(),
        }
    }

    // Whether the text has ended, so that what comes is the name.
    pub fn in_name(&self) -> bool {
        self.told.is_some()
    }

    // A line of which no byte has come.
    fn begin(&mut self)
        ensures { self.new.gathered.out.end ≡ self.old.gathered.out.end }
    {
        self.held.size = 0;
        self.told = None;
    }

    // The first line of another input. For people its name, if it has one, is above its lines.
    pub fn open(&mut self, name: &[u8]) {
        self.begin();
        self.number = 0;
        self.after_return = false;
        if let Command::Check = self.command {
            self.gathered.pass_on(name);
            self.gathered.pass_on(b":\n");
        }
    }

    // Answers the text, which has ended by a byte before a name or with the line, unless that was done.
    fn answer(&mut self, between: Option<u8>) {
        if self.in_name() {
            return;
        }
        // With that much room, no answer is cut short.
        self.gathered.make_room(room_for(self.held.size));
        let command = self.command;
        put_head(&mut self.gathered.out, command, self.number);
        let text = self.held.text(self.number == 0);
        let told = tell(
            &mut self.gathered.out,
            command,
            text,
            between.is_some(),
            &mut self.tables,
        );
        put_between(&mut self.gathered.out, command, between);
        self.answered(told);
    }

    // The text was answered.
    fn answered(&mut self, told: Told)
        ensures { self.new.gathered.out.end ≡ self.old.gathered.out.end }
    {
        self.counts.count(told);
        self.told = Some(told);
        if self.has_progress && self.counts.lines % PROGRESS == 0 {
            let lines = Counted(self.counts.lines, "line");
            let _ = eprintln!(self.gathered.errors; "label: {lines}");
        }
    }

    // A line of a tray whose text finds no room: it is refused as it comes, so that nothing of it is left out.
    fn spill(&mut self) {
        self.gathered.make_room(room_for(self.held.size));
        let text = self.held.text(self.number == 0);
        put_comment(&mut self.gathered.out, alone(TEXT_TOO_LONG), text.held);
        self.answered(Told::Refused {
            looks: None,
            places: None,
        });
    }

    // A run of the text is held. What finds no room only counts, but in a tray.
    fn hold(&mut self, run: &[u8]) {
        if matches!(self.command, Command::Smi) && !self.held.has_room(run.len()) {
            self.spill();
            self.gathered.pass_on(run);
        } else {
            self.held.add(run);
        }
    }

    // The text with its places marked, below the answer.
    fn show_places(&mut self) {
        if let Some(
            Told::Refused {
                places: Some(places),
                ..
            },
        ) = self.told
        {
            self.gathered.make_room(SHOWN_BYTES);
            let text = self.held.text(self.number == 0);
            put_marked(&mut self.gathered.out, text.held, places);
        }
    }

    // Which atoms are not kept: for people below the answer.
    fn show_lost(&mut self) {
        let Some(Told::Done(Some(lost))) = self.told else {
            return;
        };
        if let Command::Check = self.command {
            self.gathered.make_room(LOST_BYTES);
            let _ = write!(self.gathered.out, "    {lost}\n");
        } else {
            let lines = self.counts.lines;
            let _ = eprintln!(self.gathered.errors; "label: line {lines}, {lost}");
        }
    }

    // An answer and its name are over.
    pub fn cut(&mut self) {
        if self.in_name() {
            self.gathered.pass_on(b"\n");
        }
    }

    // The line's end, and what is to be said below. The next line begins.
    fn end(&mut self) {
        self.answer(None);
        self.cut();
        self.show_places();
        self.show_lost();
        self.begin();
        self.number = self.number.saturating_add(1);
    }

    // A byte that is no part of a run.
    fn take_mark(&mut self, b: u8) {
        let was_return = self.after_return;
        self.after_return = b == RETURN;
        match b {
            LINE_END if was_return => {}
            LINE_END | RETURN => self.end(),
            _ => self.answer(Some(b)),
        }
    }

    // The next piece, which has at least one byte.
    pub fn take_piece(&mut self, piece: &[u8]) {
        if let [b] = piece
            && is_mark(*b, self.in_name())
        {
            self.take_mark(*b);
            return;
        }
        self.after_return = false;
        if self.in_name() {
            self.gathered.pass_on(piece);
        } else {
            self.hold(piece);
        }
    }

    // The input's end, which ends a line of at least one byte, too.
    pub fn finish(&mut self) {
        if self.in_name() || self.held.text(self.number == 0).size > 0 {
            self.end();
        }
    }
}

// For people, the line's number comes before its answer.
fn put_head(out: &mut Output, command: Command, ended: usize) {
    if let Command::Check = command {
        let number = ended.saturating_add(1);
        let _ = write!(out, "line {number}: ");
    }
}

// What is between an answer and a name: in a tray the byte that was typed, otherwise a tab.
fn put_between(out: &mut Output, command: Command, between: Option<u8>) {
    match (command, between) {
        (Command::Smi, None) => {}
        (Command::Smi, Some(b)) => out.put(b),
        _ => out.put(TAB),
    }
}

// Whether a byte is no part of a run, in a text or in a name.
fn is_mark(b: u8, in_name: bool) -> bool {
    match b {
        LINE_END | RETURN => true,
        BLANK | TAB => !in_name,
        _ => false,
    }
}

// Where the piece ends that a block begins with: a byte that is no part of a run, or a run.
pub fn piece_end(block: &[u8], in_name: bool) -> usize
    requires { 0 < length block.now }
    ensures some { 0 < result }
    ensures bound { result ≤ length block.now }
{
    if is_mark(block[0], in_name) {
        return 1;
    }
    let rest = &block[1..];
    1 + rest
        .iter()
        .position(|b| is_mark(*b, in_name))
        .unwrap_or(rest.len())
}
