ghost use Rattle.std.specs.Prelude.{◌≡◌, ◌≢◌, ◌↔◌, ◌<◌, ◌≤◌, length, IsTrue, Contains};
ghost use Rattle.std.specs.List.{AllByRecursion};
ghost use Rattle.boole_table.specs.Asked.{Differ, SuitLetters, SuitSentences, SuitsQuestion};
ghost use Rattle.boole_table.specs.Readers.{asked_by};

use fol_core::{Sent, contains, same};

/// What a table text must be about.
#[derive(Clone, Copy)]
pub enum Asked<'a> {
    /// Any table.
    Any,
    /// The table of an exercise with these letters, these sentences and so many questions.
    Exercise(&'a [Sent], &'a [Sent], u32),
}

/// Whether a text may have these letters.
pub(crate) fn suit_letters(asked: Asked<'_>, found: &[Sent]) -> bool
    ensures { IsTrue result ↔ SuitLetters (asked_by asked.entry) found.now }
{
    match asked {
        Asked::Any => differ(found),
        Asked::Exercise(letters, _, _) => {
            are_among(letters, found) && are_among(found, letters) && differ(found)
        }
    }
}

/// Whether a text may have these sentences.
pub(crate) fn suit_sentences(asked: Asked<'_>, found: &[Sent]) -> bool
    ensures { IsTrue result ↔ SuitSentences (asked_by asked.entry) found.now }
{
    match asked {
        Asked::Any => true,
        Asked::Exercise(_, sentences, _) => are_same(found, sentences),
    }
}

/// Whether a text may answer the question with this number.
pub(crate) fn suits_question(asked: Asked<'_>, number: u32) -> bool
    ensures { IsTrue result ↔ SuitsQuestion (asked_by asked.entry) number }
{
    match asked {
        Asked::Any => 1 <= number,
        Asked::Exercise(_, _, questions) => 1 <= number && number <= questions,
    }
}

/// Whether each of the sentences is one of these.
fn are_among(these: &[Sent], sentences: &[Sent]) -> bool
    ensures { IsTrue result ↔ AllByRecursion (Contains these.now) sentences.now }
{
    for sentence in sentences {
        if !contains(these, sentence) {
            return false;
        }
    }
    true
}

/// Whether no two of the sentences are one.
fn differ(sentences: &[Sent]) -> bool
    ensures { IsTrue result ↔ Differ sentences.now }
{
    for place in 0..sentences.len() {
        if contains(&sentences[..place], &sentences[place]) {
            return false;
        }
    }
    true
}

/// Whether the two lists have the same sentences in the same order.
fn are_same(a: &[Sent], b: &[Sent]) -> bool
    ensures { IsTrue result ↔ (a.now ≡ b.now) }
{
    if a.len() != b.len() {
        return false;
    }
    for place in 0..a.len() {
        if !same(&a[place], &b[place]) {
            return false;
        }
    }
    true
}
