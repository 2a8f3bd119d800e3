use crate::replies::{NoAnswer, said};
use fol_core::Sents;
use fol_text::print_sentence;
use sentence_lists::{ListFault, read_sentences, sentence_list_laws};
use std::alloc::{AllocError, Global};

/// No text of a case has more bytes.
const LONGEST: usize = 1_000_000;

/// The sentences that the text lists, or the line with its fault.
pub fn sentences(alloc: Global, text: &str, most: &str) -> Result<String, NoAnswer> {
    match most.parse() {
        Ok(most) if text.len() <= LONGEST => list(alloc, text, most),
        _ => Err(NoAnswer::NoSuchCall),
    }
}

fn list(alloc: Global, text: &str, most: usize) -> Result<String, NoAnswer> {
    if text.len() > LONGEST {
        return Err(NoAnswer::NoSuchCall);
    }
    match read_sentences(alloc, text.as_bytes(), most) {
        Ok(sentences) => Ok(printed(alloc, &sentences)?),
        Err((_, ListFault::Memory)) => Err(NoAnswer::Memory),
        Err((place, fault)) => Ok(format!(in alloc; "line {place}: {fault:?}")?),
    }
}

/// The sentences with their number, and commas between them.
fn printed(alloc: Global, sentences: &Sents) -> Result<String, AllocError> {
    let length = sentences.len();
    let mut list = format!(in alloc; "{length}")?;
    let mut is_first = true;
    for sentence in sentences.as_slice() {
        let text = print_sentence(alloc, sentence)?;
        list.push_str(if is_first { ": " } else { ", " })?;
        list.push_str(String::from_utf8_lossy(alloc, text.as_slice())?.as_str())?;
        is_first = false;
    }
    Ok(list)
}

/// Calls the laws, which do nothing.
pub fn called_laws(alloc: Global) -> Result<String, NoAnswer> {
    sentence_list_laws();
    said(alloc, "called")
}
