use fol_core::{Sent, SentFault, Term, copy_term};
use fol_text::{ReadFault, print_sentence};
use std::alloc::{AllocError, Global};
use std::fmt::Debug;

/// Why a case has no answer of its call.
#[derive(Debug, Drop)]
pub enum NoAnswer {
    /// One of its texts is no sentence.
    Fault(ReadFault),
    /// There is no such call with such texts.
    NoSuchCall,
    Memory,
}

impl From<AllocError> for NoAnswer {
    fn from(_refused: AllocError) -> NoAnswer {
        NoAnswer::Memory
    }
}

impl From<ReadFault> for NoAnswer {
    fn from(fault: ReadFault) -> NoAnswer {
        match fault {
            ReadFault::Memory => NoAnswer::Memory,
            fault => NoAnswer::Fault(fault),
        }
    }
}

pub fn said(alloc: Global, words: &str) -> Result<String, NoAnswer> {
    Ok(words.to_string(alloc)?)
}

pub fn shown(alloc: Global, answer: &impl Debug) -> Result<String, NoAnswer> {
    Ok(format!(in alloc; "{answer:?}")?)
}

/// The name of the fault, which is want of memory where it says so.
pub fn refused(alloc: Global, fault: SentFault) -> Result<String, NoAnswer> {
    match fault {
        SentFault::Memory => Err(NoAnswer::Memory),
        fault => shown(alloc, &fault),
    }
}

pub fn printed(alloc: Global, sentence: &Sent) -> Result<String, NoAnswer> {
    let text = print_sentence(alloc, sentence)?;
    Ok(String::from_utf8_lossy(alloc, text.as_slice())?)
}

/// The term as it is printed in an equation with itself.
pub fn printed_term(alloc: Global, term: &Term) -> Result<String, NoAnswer> {
    let equation = Sent::Eq(copy_term(alloc, term)?, copy_term(alloc, term)?);
    let text = printed(alloc, &equation)?;
    match text.split_once(" = ") {
        Some((front, _)) => said(alloc, front),
        None => said(alloc, text.as_str()),
    }
}

/// The sentences with commas between them, or that there are none.
pub fn listed(alloc: Global, sentences: &[Sent]) -> Result<String, NoAnswer> {
    if sentences.is_empty() {
        return said(alloc, "nothing");
    }
    let mut list = String::new(alloc);
    for sentence in sentences {
        if !list.is_empty() {
            list.push_str(", ")?;
        }
        list.push_str(printed(alloc, sentence)?.as_str())?;
    }
    Ok(list)
}
