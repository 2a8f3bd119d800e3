use crate::branches::grown;
use crate::replies::{NoAnswer, printed, said};
use cases::{call_of, stands_for_itself, texts_of};
use fol_core::Sent;
use fol_text::read_sentence;
use std::alloc::{AllocError, Global};
use tableau_laws::{Literal, class_laws, clause_laws, tableau_laws};

/// The reply to a line.
pub fn reply(alloc: Global, line: &str) -> Result<String, AllocError> {
    if stands_for_itself(line) {
        return line.to_string(alloc);
    }
    let texts = texts_of(alloc, line)?;
    match answer(alloc, call_of(line), texts.as_slice()) {
        Ok(answer) => Ok(answer),
        Err(NoAnswer::Fault(fault)) => format!(in alloc; "{fault:?}"),
        Err(NoAnswer::NoSuchCall) => "no such call".to_string(alloc),
        Err(NoAnswer::Memory) => Err(AllocError),
    }
}

/// What the call answers on the texts.
fn answer(alloc: Global, call: &str, texts: &[String]) -> Result<String, NoAnswer> {
    match call {
        "branch" => grown(alloc, texts),
        "laws" => laws(alloc),
        _ => Err(NoAnswer::NoSuchCall),
    }
}

fn laws(alloc: Global) -> Result<String, NoAnswer> {
    tableau_laws();
    class_laws();
    clause_laws();
    said(alloc, "called")
}

pub fn sentence_of(alloc: Global, text: &str) -> Result<Sent, NoAnswer> {
    if text.len() > 1_000_000 {
        return Err(NoAnswer::NoSuchCall);
    }
    Ok(read_sentence(alloc, text.as_bytes())?)
}

/// Signed sentences, each with a blank and its sign in front of it.
pub fn listed(alloc: Global, items: &[Literal]) -> Result<String, NoAnswer> {
    let mut list = String::new(alloc);
    for item in items {
        list.push_str(if item.holds { " +" } else { " -" })?;
        list.push_str(printed(alloc, &item.sentence)?.as_str())?;
    }
    Ok(list)
}
