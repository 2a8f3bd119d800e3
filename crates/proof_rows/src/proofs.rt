use crate::faults::{NoAnswer, refused, reprinted, verdict};
use crate::page::Page;
use crate::tasks::task_of;
use fitch_file::{Lines, Task, TextFault, print_proof, read_proof};
use proof_check::check_proof;
use std::alloc::Global;

/// No text of a case has more bytes.
pub const LONGEST: usize = 1_000_000;

/// The proof that the text spells.
fn lines(alloc: Global, text: &[u8]) -> Result<Lines, NoAnswer> {
    if text.len() > LONGEST {
        return Err(NoAnswer::NoSuchCall);
    }
    match read_proof(alloc, text) {
        Ok(lines) => Ok(lines),
        Err((_, TextFault::Memory)) => Err(NoAnswer::Memory),
        Err((place, fault)) => Err(refused(alloc, place, &fault)),
    }
}

/// The proof that the page spells with the texts behind it.
pub fn lines_of(alloc: Global, page: &Page, behind: &[String]) -> Result<Lines, NoAnswer> {
    let text = page.text(alloc, behind)?;
    lines(alloc, text.as_slice())
}

/// Of how many lines the proof is.
pub fn read(alloc: Global, page: &Page, behind: &[String]) -> Result<String, NoAnswer> {
    let lines = lines_of(alloc, page, behind)?;
    Ok(format!(in alloc; "a proof of {} lines", lines.len())?)
}

/// What is printed of the proof.
pub fn printed(alloc: Global, page: &Page, behind: &[String]) -> Result<String, NoAnswer> {
    let text = page.text(alloc, behind)?;
    let lines = lines(alloc, text.as_slice())?;
    let printed = print_proof(alloc, &lines)?;
    reprinted(alloc, printed.as_slice(), text.as_slice())
}

/// The verdict on the page, for the task with these lines.
pub fn checked(alloc: Global, page: &Page, task: &[String]) -> Result<String, NoAnswer> {
    let task = task_of(alloc, task)?;
    let text = page.text(alloc, &[])?;
    judged(alloc, &task, text.as_slice())
}

fn judged(alloc: Global, task: &Task, text: &[u8]) -> Result<String, NoAnswer> {
    if text.len() > LONGEST {
        return Err(NoAnswer::NoSuchCall);
    }
    let found = check_proof(alloc, task, text)?;
    Ok(verdict(alloc, &found)?)
}
