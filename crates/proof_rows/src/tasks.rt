use crate::faults::{NoAnswer, refused};
use crate::page::Page;
use crate::proofs::LONGEST;
use fitch_file::{Allowed, Task, TaskFault, TaskText, read_task};
use fol_core::Sent;
use fol_text::print_sentence;
use std::alloc::{AllocError, Global};

/// The task that the text spells.
fn task_text(alloc: Global, text: &[u8]) -> Result<TaskText, NoAnswer> {
    if text.len() > LONGEST {
        return Err(NoAnswer::NoSuchCall);
    }
    match read_task(alloc, text) {
        Ok(found) => Ok(found),
        Err((_, TaskFault::Memory)) => Err(NoAnswer::Memory),
        Err((place, fault)) => Err(refused(alloc, place, &fault)),
    }
}

/// The task with these lines behind its header.
pub fn task_of(alloc: Global, lines: &[String]) -> Result<Task, NoAnswer> {
    let mut text = "task 1\n".to_string(alloc)?;
    for line in lines {
        text.push_str(line.as_str())?;
        text.push('\n')?;
    }
    let TaskText { task, .. } = task_text(alloc, text.as_bytes())?;
    Ok(task)
}

/// The task of the page, and where its text ends.
pub fn task(alloc: Global, page: &Page, behind: &[String]) -> Result<String, NoAnswer> {
    let text = page.text(alloc, behind)?;
    let found = task_text(alloc, text.as_slice())?;
    Ok(told(alloc, &found)?)
}

fn told(alloc: Global, found: &TaskText) -> Result<String, AllocError> {
    let mut words = "premises [".to_string(alloc)?;
    add_listed(alloc, found.task.premises.as_slice(), &mut words)?;
    words.push_str("], goal ")?;
    add_sentence(alloc, &found.task.goal, &mut words)?;
    add_allowed(found.task.allowed, &mut words)?;
    let end = format!(in alloc; ", lines {}, bytes {}", found.lines, found.rest)?;
    words.push_str(end.as_str())?;
    Ok(words)
}

/// Puts the sentences last, with commas between them.
fn add_listed(alloc: Global, sentences: &[Sent], words: &mut String) -> Result<(), AllocError> {
    let mut is_first = true;
    for sentence in sentences {
        if !is_first {
            words.push_str(", ")?;
        }
        is_first = false;
        add_sentence(alloc, sentence, words)?;
    }
    Ok(())
}

fn add_sentence(alloc: Global, sentence: &Sent, words: &mut String) -> Result<(), AllocError> {
    let printed = print_sentence(alloc, sentence)?;
    let text = String::from_utf8_lossy(alloc, printed.as_slice())?;
    words.push_str(text.as_str())
}

/// Puts the consequence rules last that are allowed.
fn add_allowed(allowed: Allowed, words: &mut String) -> Result<(), AllocError> {
    words.push_str(if allowed.taut { ", Taut" } else { "" })?;
    words.push_str(if allowed.fo { ", FO" } else { "" })?;
    words.push_str(if allowed.ana { ", Ana" } else { "" })
}
