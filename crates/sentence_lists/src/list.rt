ghost use Rattle.std.specs.Prelude.{◌≡◌, ◌⊎◌, ◌<◌, ℕ, List, length, Ok, IfOk, IfErr, OnOk, IsErrAnd};
ghost use Rattle.std.specs.Str.Lines.{lines as lines_of};
ghost use Rattle.fol_core.specs.declared.sent.Sent.{Sent as Sentence};
ghost use Rattle.sentence_lists.specs.SentenceLines.{SpellAtMost, ListFails};
ghost use Rattle.sentence_lists.specs.Readers.{PutsLine, LineFails};

use fol_core::Sents;
use fol_text::{ReadFault, read_sentence};
use lists::Listed;
use physical_lines::is_blank;
use std::alloc::{AllocError, Global};
use texts::{next_line, trim};
use thiserror::Error;

/// Why a list of sentences wasn't read: the fault of its least faulty physical line.
#[derive(Clone, Copy, Debug, PartialEq, Eq, Error)]
pub enum ListFault {
    /// The line is refused as a sentence. Places are counted in the line without the blanks at its ends.
    #[error("{0}")]
    Sentence(ReadFault),
    /// The line is one sentence more than there may be.
    #[error("there are too many sentences")]
    TooManySentences,
    /// Memory ran out.
    #[error("memory ran out")]
    Memory,
}

/// Reads a list of at most so many sentences: a sentence a line, with blank lines anywhere. A refusal has the number of the
/// least faulty physical line, counted from 1, and its fault. `Memory` says only that memory was refused.
///
/// # Requirements
///
/// The text has fewer than 2^32 bytes, so that the number of a line is a `u32`.
pub fn read_sentences(alloc: Global, text: &[u8], most: usize) -> Result<Sents, (u32, ListFault)>
    requires { length text.now < 4294967296 }

    // What is read is what the text spells.
    ensures read { IfOk result (λ ss. SpellAtMost most (lines_of text.now) ss) }

    // What the text spells is read, unless memory is refused.
    ensures exact { (ss : List Sentence) → SpellAtMost most (lines_of text.now) ss → (result ≡ Ok ss) ⊎ IsErrAnd result (λ e. e.1 ≡ ListFault.Memory) }

    // Else the line is the least faulty one, and this is its fault.
    ensures refused { IfErr result (λ e. (e.1 ≡ ListFault.Memory) ⊎ ListFails most 1 (lines_of text.now) e.0 e.1) }
{
    let mut sentences: Sents = Listed::new(alloc);
    let mut place = 0;
    let mut rest = text;
    while let Some((line, after)) = next_line(rest) {
        place += 1;
        rest = after;
        match put_line(alloc, &mut sentences, line, most) {
            Ok(()) => {}
            Err(fault) => return Err((place, fault)),
        }
    }
    Ok(sentences)
}

/// Puts the sentence that the line is last, where the line isn't blank.
fn put_line(alloc: Global, sentences: &mut Sents, line: &[u8], most: usize) -> Result<(), ListFault>
    requires { length line.now < 4294967296 }
    ensures put { OnOk result (PutsLine most line.now sentences.old sentences.new) }
    ensures refused { IfErr result (λ fault. (fault ≡ ListFault.Memory) ⊎ LineFails most line.now sentences.old fault) }
{
    if is_blank(line) {
        return Ok(());
    }
    let sentence = match read_sentence(alloc, trim(line)) {
        Ok(sentence) => sentence,
        Err(ReadFault::Memory) => return Err(ListFault::Memory),
        Err(fault) => return Err(ListFault::Sentence(fault)),
    };
    if sentences.len() >= most {
        return Err(ListFault::TooManySentences);
    }
    match sentences.add(sentence) {
        Ok(()) => Ok(()),
        Err(AllocError) => Err(ListFault::Memory),
    }
}
