// Our answer to a request, in the form that the oracle has for it.
use crate::{bonds, events, kinds, orders, pairs, pieces, reads, reasons, rings, texts, writes};
use oracle_form::output::Output;

// Lays the answer, or some bytes and `None` where there is none: the operation is unknown, or its arguments cannot be
// read. `room` is room to work in.
pub fn answer(request: &[u8], out: &mut Output<'_>, room: &mut [u8]) -> Option<()> {
    let end = request.iter().position(|&b| b == b' ')?;
    let arguments = &request[end + 1..];
    match &request[..end] {
        b"atom" => texts::answer_atom(arguments, out, room),
        b"rnum" => texts::answer_rnum(arguments, out, room),
        b"bond" => texts::answer_bond(arguments, out, room),
        b"spell" => kinds::answer_spelling(arguments, out),
        b"invert" => kinds::answer_inverted(arguments, out),
        b"targets" => kinds::answer_targets(arguments, out),
        b"aromatic" => kinds::answer_aromatic(arguments, out),
        b"spellbond" => bonds::answer_spelling(arguments, out),
        b"reverse" => bonds::answer_reversed(arguments, out),
        b"reconcile" => bonds::answer_reconciled(arguments, out),
        b"spellrnum" => rings::answer(arguments, out),
        b"read" | b"readbytes" => reads::answer(arguments, out, room),
        b"readin" => reads::answer_within(arguments, out, room),
        b"builder" => events::answer(arguments, out),
        b"write" => writes::answer_graph(arguments, out),
        b"writein" => writes::answer_within(arguments, out),
        b"writewords" => writes::answer_words(arguments, out),
        b"rewrite" => writes::answer_text(arguments, out, room),
        b"order" => orders::answer(arguments, out),
        b"writer" => pieces::answer(arguments, out),
        b"writerin" => pieces::answer_within(arguments, out),
        b"pool" => pairs::answer(arguments, out),
        b"why" => reasons::answer(arguments, out, room),
        _ => None,
    }
}
