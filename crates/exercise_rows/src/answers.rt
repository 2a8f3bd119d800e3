use crate::fields::{any_text_list, document, flag_list, kind, number, room, text_list, text_of};
use crate::replies::NoAnswer;
use cases::{call_of, stands_for_itself, texts_of};
use std::alloc::{AllocError, Global};

/// The reply to a line.
pub fn reply(alloc: Global, line: &str) -> Result<String, AllocError> {
    if stands_for_itself(line) {
        return line.to_string(alloc);
    }
    let texts = texts_of(alloc, line)?;
    match answer(alloc, call_of(line), texts.as_slice()) {
        Ok(answer) => Ok(answer),
        Err(NoAnswer::NoSuchCall) => "no such call".to_string(alloc),
        Err(NoAnswer::Memory) => Err(AllocError),
    }
}

/// What the call answers on the texts, in words.
fn answer(alloc: Global, call: &str, texts: &[String]) -> Result<String, NoAnswer> {
    match (call, texts) {
        ("read_document", [text]) => document(alloc, text),
        ("read_kind", [text]) => kind(alloc, text),
        ("whole", [key, text]) => number(alloc, key, text),
        ("text", [key, text]) => text_of(alloc, key, text),
        ("texts", [key, text]) => text_list(alloc, key, text),
        ("any_texts", [key, text]) => any_text_list(alloc, key, text),
        ("has_room", [key, size]) => room(alloc, key, size),
        ("flags", [count, text]) => flag_list(alloc, count, text),
        _ => Err(NoAnswer::NoSuchCall),
    }
}
