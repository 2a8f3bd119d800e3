use deriv_laws::StepFault;
use fol_core::Ident;
use proof_check::{LineFault, Verdict};
use std::alloc::{AllocError, Global};
use std::fmt::Debug;

/// Why a case has no answer of its call.
#[derive(Debug, Drop)]
pub enum NoAnswer {
    /// One of its texts is refused: where, and why.
    Refused(String),
    /// There is no such call with such texts.
    NoSuchCall,
    Memory,
}

impl From<AllocError> for NoAnswer {
    fn from(_refused: AllocError) -> NoAnswer {
        NoAnswer::Memory
    }
}

/// No answer, since this line of a text has this fault.
pub fn refused(alloc: Global, place: u32, fault: &impl Debug) -> NoAnswer {
    match format!(in alloc; "line {place}: {fault:?}") {
        Ok(words) => NoAnswer::Refused(words),
        Err(_) => NoAnswer::Memory,
    }
}

pub fn said(alloc: Global, words: &str) -> Result<String, NoAnswer> {
    Ok(words.to_string(alloc)?)
}

pub fn shown(alloc: Global, answer: &impl Debug) -> Result<String, NoAnswer> {
    Ok(format!(in alloc; "{answer:?}")?)
}

/// What is printed, in one line; or that it is the text that was given.
pub fn reprinted(alloc: Global, printed: &[u8], given: &[u8]) -> Result<String, NoAnswer> {
    if printed == given {
        return said(alloc, "the same text");
    }
    Ok(String::from_utf8_lossy(alloc, printed)?.replace(alloc, "\n", "\\n")?)
}

/// What the test of a step says.
pub fn tested(alloc: Global, answer: Result<(), StepFault>) -> Result<String, NoAnswer> {
    match answer {
        Ok(()) => said(alloc, "Ok"),
        Err(StepFault::Memory) => Err(NoAnswer::Memory),
        Err(fault) => Ok(step(alloc, &fault)?),
    }
}

/// The verdict in short: what is wrong, and where.
pub fn verdict(alloc: Global, verdict: &Verdict) -> Result<String, AllocError> {
    match verdict {
        Verdict::Correct => "Correct".to_string(alloc),
        Verdict::Unreadable(place, fault) => format!(in alloc; "unreadable {place}: {fault:?}"),
        Verdict::Wrong(number, fault) => wrong(alloc, *number, fault),
    }
}

fn wrong(alloc: Global, number: u32, fault: &LineFault) -> Result<String, AllocError> {
    match fault {
        LineFault::Step(fault) => {
            let fault = step(alloc, fault)?;
            format!(in alloc; "line {number}: {fault}")
        }
        fault => format!(in alloc; "line {number}: {fault:?}"),
    }
}

fn step(alloc: Global, fault: &StepFault) -> Result<String, AllocError> {
    match fault {
        StepFault::NotFresh(constant) => not_fresh(alloc, constant),
        fault => format!(in alloc; "{fault:?}"),
    }
}

fn not_fresh(alloc: Global, constant: &Ident) -> Result<String, AllocError> {
    let name = String::from_utf8_lossy(alloc, constant.as_slice())?;
    format!(in alloc; "NotFresh({name})")
}
