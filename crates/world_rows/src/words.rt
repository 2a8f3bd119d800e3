use crate::no_answer::NoAnswer;
use std::alloc::{AllocError, Global};
use std::fmt::Debug;

/// No text of a case has more bytes.
pub const LONGEST: usize = 1_000_000;

pub fn said(alloc: Global, words: &str) -> Result<String, NoAnswer> {
    Ok(words.to_string(alloc)?)
}

pub fn shown(alloc: Global, answer: &impl Debug) -> Result<String, NoAnswer> {
    Ok(format!(in alloc; "{answer:?}")?)
}

/// Adds what is shown of the answer to the list, in which blanks stand between the answers.
pub fn put(alloc: Global, list: &mut String, answer: &impl Debug) -> Result<(), AllocError> {
    if !list.is_empty() {
        list.push_str(" ")?;
    }
    list.push_str(format!(in alloc; "{answer:?}")?.as_str())
}

/// The text in one line, with `\n` for each line feed.
pub fn in_one_line(alloc: Global, text: &[u8]) -> Result<String, AllocError> {
    String::from_utf8_lossy(alloc, text)?.replace(alloc, "\n", "\\n")
}

/// The truth value of the word.
pub fn truth_value(word: &str) -> Result<bool, NoAnswer> {
    match word {
        "true" => Ok(true),
        "false" => Ok(false),
        _ => Err(NoAnswer::NoSuchCall),
    }
}

pub fn number(word: &str) -> Result<u32, NoAnswer> {
    match word.parse() {
        Ok(number) => Ok(number),
        Err(_) => Err(NoAnswer::NoSuchCall),
    }
}

/// The numbers of the text, which has blanks between them.
pub fn numbers(alloc: Global, text: &str) -> Result<Vec<u32>, NoAnswer> {
    let mut numbers = Vec::new(alloc);
    for word in text.split(' ') {
        if !word.is_empty() {
            push(&mut numbers, number(word)?)?;
        }
    }
    Ok(numbers)
}

fn push(numbers: &mut Vec<u32>, number: u32) -> Result<(), AllocError> {
    Ok(numbers.push(number)?)
}
