use crate::faults::NoAnswer;
use boole_table::{Question, Questions};
use lists::Listed;
use std::alloc::{AllocError, Global};

/// The questions of the text, with commas between them.
pub fn questions_of(alloc: Global, text: &str) -> Result<Questions, NoAnswer> {
    let mut questions: Questions = Listed::new(alloc);
    for part in text.split(',') {
        add(&mut questions, part)?;
    }
    Ok(questions)
}

/// Adds the question that the text asks; blanks ask none.
fn add(questions: &mut Questions, text: &str) -> Result<(), NoAnswer> {
    if text.trim().is_empty() {
        return Ok(());
    }
    match question(text) {
        Some(question) => Ok(questions.add(question)?),
        None => Err(NoAnswer::NoSuchCall),
    }
}

/// The question that the text asks: its name, and the numbers of its sentences.
fn question(text: &str) -> Option<Question> {
    let mut words = text.split_whitespace();
    let name = words.next()?;
    let first = words.next()?.parse().ok()?;
    match (name, words.next()) {
        ("Tautology", None) => Some(Question::Tautology(first)),
        ("Possible", None) => Some(Question::Possible(first)),
        ("Consequence", None) => Some(Question::Consequence(first)),
        ("Equivalent", Some(second)) => Some(Question::Equivalent(first, second.parse().ok()?)),
        _ => None,
    }
}
