use crate::lists_of_bytes::{are_same, listed, several, several_of};
use crate::lists_of_sentences::{called_laws, sentences};
use crate::parts::{cut_at, first, header, next, number, part, rest};
use crate::replies::NoAnswer;
use cases::{call_of, stands_for_itself, texts_of};
use std::alloc::{AllocError, Global};

/// The reply to a line.
pub fn reply(alloc: Global, line: &str) -> Result<String, AllocError> {
    if stands_for_itself(line) {
        return line.to_string(alloc);
    }
    let texts = texts_of(alloc, line)?;
    match answer(alloc, call_of(line), texts.as_slice()) {
        Ok(answer) => Ok(answer),
        Err(NoAnswer::NoSuchCall) => "no such call".to_string(alloc),
        Err(NoAnswer::Memory) => Err(AllocError),
    }
}

/// What the call answers on the texts, in words.
fn answer(alloc: Global, call: &str, texts: &[String]) -> Result<String, NoAnswer> {
    match (call, texts) {
        ("listed", [start, changes @ ..]) => listed(alloc, start, changes),
        ("is", [list, bytes]) => are_same(alloc, list, bytes),
        ("several", [items]) => several(alloc, items),
        ("several_of", [items]) => several_of(alloc, items),
        ("read_sentences", [text, most]) => sentences(alloc, text, most),
        ("laws", []) => called_laws(alloc),
        _ => on_text(alloc, call, texts),
    }
}

/// What the call answers on parts of a text.
fn on_text(alloc: Global, call: &str, texts: &[String]) -> Result<String, NoAnswer> {
    match (call, texts) {
        ("next_line", [text]) => next(alloc, text),
        ("cut", [text, at]) => cut_at(alloc, text, at),
        ("after_prefix", [text, prefix]) => rest(alloc, text, prefix),
        ("counting_number", [text]) => number(alloc, text),
        ("first_line", [text]) => first(alloc, text),
        ("after_header", [text, header_line]) => header(alloc, text, header_line),
        (_, [text]) => part(alloc, call, text),
        _ => Err(NoAnswer::NoSuchCall),
    }
}
