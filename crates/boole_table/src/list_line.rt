ghost use Rattle.std.specs.Prelude.{◌≡◌, ◌<◌, ℕ, List, length, None, IfOk, MatchOption};
ghost use Rattle.fol_core.specs.declared.sent.Sent.{Sent as Sentence};
ghost use Rattle.fol_text.specs.Readable.{IsReadable};
ghost use Rattle.texts.specs.Blanks.{trimmed};
ghost use Rattle.fitch_file.specs.Words.{ends_word as ends_word_of};
ghost use Rattle.fitch_file.specs.Declarations.{IsBehind};
ghost use Rattle.boole_table.specs.ListLines.{AreSentences, AreLetters, ListsLetters, ListsSentences};
ghost use Rattle.boole_table.specs.Readers.{asked_by};

use crate::asked::{Asked, suit_letters, suit_sentences};
use crate::row_line::is_blank;
use fol_core::{Sent, Sents};
use fol_text::{ReadFault, read_sentence};
use lists::Listed;
use std::alloc::{AllocError, Global};
use texts::{after_prefix, cut, trim};

/// The letters that the line lists, where they suit what is asked; none where it lists none that do.
pub(crate) fn letters_line(
    alloc: Global,
    asked: Asked<'_>,
    line: &[u8],
) -> Result<Option<Sents>, AllocError>
    requires { length line.now < 4294967296 }
    ensures { IfOk result (λ found. MatchOption found ((ls : List Sentence) → ListsLetters (asked_by asked.entry) line.now ls → ⊥) (ListsLetters (asked_by asked.entry) line.now)) }
{
    let Some(text) = text_behind(line, b"letters") else {
        return Ok(None);
    };
    match read_letters(alloc, text)? {
        Some(letters) => {
            if suit_letters(asked, letters.as_slice()) {
                Ok(Some(letters))
            } else {
                Ok(None)
            }
        }
        None => Ok(None),
    }
}

/// The sentences that the line lists, where they suit what is asked; none where it lists none that do.
pub(crate) fn sentences_line(
    alloc: Global,
    asked: Asked<'_>,
    line: &[u8],
) -> Result<Option<Sents>, AllocError>
    requires { length line.now < 4294967296 }
    ensures { IfOk result (λ found. MatchOption found ((ss : List Sentence) → ListsSentences (asked_by asked.entry) line.now ss → ⊥) (ListsSentences (asked_by asked.entry) line.now)) }
{
    let Some(text) = text_behind(line, b"sentences") else {
        return Ok(None);
    };
    match read_sentences(alloc, text)? {
        Some(sentences) => {
            if suit_sentences(asked, sentences.as_slice()) {
                Ok(Some(sentences))
            } else {
                Ok(None)
            }
        }
        None => Ok(None),
    }
}

/// The text behind the keyword and a blank, without the blanks at its ends. The keyword may also end the line.
pub(crate) fn text_behind<'a>(line: &'a [u8], keyword: &[u8]) -> Option<&'a [u8]>
    ensures value { MatchOption result ((text : List ℕ) → IsBehind keyword.now line.now text → ⊥) (λ text. IsBehind keyword.now line.now text.now) }
{
    match after_prefix(line, keyword) {
        Some(tail) => {
            if ends_word(tail) {
                Some(trim(tail))
            } else {
                None
            }
        }
        None => None,
    }
}

/// Whether the text is over or a blank is next.
fn ends_word(text: &[u8]) -> bool
    ensures { result ≡ ends_word_of text.now }
{
    match text {
        [] => true,
        [first, ..] => is_blank(*first),
    }
}

/// The letters that the text lists, which may be none.
fn read_letters(alloc: Global, text: &[u8]) -> Result<Option<Sents>, AllocError>
    requires { length text.now < 4294967296 }
    ensures { IfOk result (λ found. MatchOption found ((ls : List Sentence) → AreLetters text.now ls → ⊥) (AreLetters text.now)) }
{
    if text.is_empty() {
        Ok(Some(Listed::new(alloc)))
    } else {
        read_sentences(alloc, text)
    }
}

/// The sentences that the text lists; none where one of them isn't readable.
fn read_sentences(alloc: Global, text: &[u8]) -> Result<Option<Sents>, AllocError>
    requires { length text.now < 4294967296 }
    ensures { IfOk result (λ found. MatchOption found ((ss : List Sentence) → AreSentences text.now ss → ⊥) (AreSentences text.now)) }
{
    let mut sentences: Sents = Listed::new(alloc);
    let mut rest = text;
    while let Some((front, after)) = cut(rest, b';') {
        match read_one(alloc, front)? {
            Some(sentence) => sentences.add(sentence)?,
            None => return Ok(None),
        }
        rest = after;
    }
    match read_one(alloc, rest)? {
        Some(sentence) => {
            sentences.add(sentence)?;
            Ok(Some(sentences))
        }
        None => Ok(None),
    }
}

/// The sentence that the text is, without the blanks at its ends; none where it isn't readable.
fn read_one(alloc: Global, text: &[u8]) -> Result<Option<Sent>, AllocError>
    requires { length text.now < 4294967296 }
    ensures { IfOk result (λ found. MatchOption found ((s : Sentence) → IsReadable (trimmed text.now) s → ⊥) (IsReadable (trimmed text.now))) }
{
    match read_sentence(alloc, trim(text)) {
        Ok(sentence) => Ok(Some(sentence)),
        Err(fault) => none_unless_memory(fault),
    }
}

/// No sentence, where the text was refused; but want of memory is no refusal.
fn none_unless_memory(fault: ReadFault) -> Result<Option<Sent>, AllocError>
    ensures { IfOk result (λ found. (found ≡ None) × (fault ≡ ReadFault.Memory → ⊥)) }
{
    match fault {
        ReadFault::Memory => Err(AllocError),
        _ => Ok(None),
    }
}
