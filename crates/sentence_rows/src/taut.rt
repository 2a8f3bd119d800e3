ghost use Rattle.std.specs.Prelude.{◌≤◌, ◌<◌, ◌+◌, ◌++◌, ◌∷◌, [], IfOk, OnOk, map};
ghost use Rattle.fol_core.specs.Size.{total, nodes};

use crate::notation::sentence_of;
use crate::replies::{NoAnswer, listed, shown};
use fol_core::{Sent, Sents, within};
use lists::Listed;
use std::alloc::{AllocError, Global};
use taut_con::{letter_in_row, letters_of, taut_con, truth_value};

/// No case has more sentences.
const MOST: usize = 1_000;

/// The sentences that the texts are read as, each of them within the limits.
fn read_all(alloc: Global, texts: &[String]) -> Result<Sents, NoAnswer>
    ensures small { IfOk result (λ ss. total (map nodes ss) ≤ 400000) }
{
    if texts.len() > MOST {
        return Err(NoAnswer::NoSuchCall);
    }
    let mut sentences: Sents = Listed::new(alloc);
    for text in texts {
        add(alloc, &mut sentences, text)?;
    }
    Ok(sentences)
}

#[tactic(auto, using(crate::proofs::Small::one_more))]
fn add(alloc: Global, sentences: &mut Sents, text: &str) -> Result<(), NoAnswer>
    ensures small { OnOk result (total (map nodes sentences.new) ≤ total (map nodes sentences.old) + 400) }
{
    let sentence = small(sentence_of(alloc, text)?)?;
    Ok(sentences.add(sentence)?)
}

fn small(sentence: Sent) -> Result<Sent, NoAnswer>
    ensures small { IfOk result (λ s. nodes s ≤ 400) }
{
    match within(&sentence) {
        Ok(()) => Ok(sentence),
        Err(_) => Err(NoAnswer::NoSuchCall),
    }
}

/// Whether the last sentence is a tautological consequence of those before it.
pub fn follows(alloc: Global, texts: &[String]) -> Result<String, NoAnswer> {
    let mut premises = read_all(alloc, texts)?.into_vec();
    match premises.pop() {
        Some(goal) => follows_from(alloc, &Listed::from_vec(premises), &goal),
        None => Err(NoAnswer::NoSuchCall),
    }
}

fn follows_from(alloc: Global, premises: &Sents, goal: &Sent) -> Result<String, NoAnswer>
    requires small { total (map nodes (premises.now ++ goal.now ∷ [])) < 4294967296 }
{
    shown(alloc, &taut_con(alloc, premises, goal)?)
}

/// The letters of the sentences, with commas between them.
pub fn letters(alloc: Global, sentences: &Sents) -> Result<String, NoAnswer> {
    let letters = letters_of(alloc, sentences)?;
    listed(alloc, letters.as_slice())
}

/// The value of the first sentence, where the letters behind it have the values `T` and `F` of the signs.
pub fn value(alloc: Global, texts: &[String], signs: &str) -> Result<String, NoAnswer> {
    let sentences = read_all(alloc, texts)?;
    value_beside(alloc, sentences.as_slice(), signs)
}

fn value_beside(alloc: Global, sentences: &[Sent], signs: &str) -> Result<String, NoAnswer> {
    let values = values_of(alloc, signs)?;
    match sentences {
        [sentence, letters @ ..] => shown(
            alloc,
            &truth_value(sentence, letters, values.as_slice()),
        ),
        [] => Err(NoAnswer::NoSuchCall),
    }
}

fn values_of(alloc: Global, signs: &str) -> Result<Vec<bool>, AllocError> {
    let mut values = Vec::new(alloc);
    for sign in signs.as_bytes() {
        values.push(*sign == b'T')?;
    }
    Ok(values)
}

/// The value of a letter in a row of a table.
pub fn is_true_in_row(
    alloc: Global,
    letters: &str,
    row: &str,
    letter: &str,
) -> Result<String, NoAnswer> {
    match (letters.parse(), row.parse(), letter.parse()) {
        (Ok(letters), Ok(row), Ok(letter)) => shown(alloc, &letter_in_row(letters, row, letter)),
        _ => Err(NoAnswer::NoSuchCall),
    }
}
