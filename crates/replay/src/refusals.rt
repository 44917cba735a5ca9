// What the desk says in an answer, and the first refused event of several.
use answer_text::desk::Numbered;
use desk_numbers::Said;
use oracle_form::output::Output;
use std::fmt::Write;

// A number of the desk's and what it carries.
pub fn put_said(out: &mut Output<'_>, said: Said) {
    let _ = write!(out, "{}", Numbered(said));
}

// A refused event by its index, from 0, and its refusal.
#[derive(Clone, Copy)]
pub struct Refused {
    pub event: usize,
    pub said: Said,
}

pub fn put_refused(out: &mut Output<'_>, refused: Refused) {
    out.put_all(b"refused ");
    out.number(refused.event);
    out.put(b' ');
    put_said(out, refused.said);
}
