ghost use Rattle.std.specs.Prelude.{◌≡◌, ◌<◌, ◌⊎◌, ℕ, List, length, IfOk, IfErr, OnOk};
ghost use Rattle.fol_text.specs.Readable.{IsReadable};
ghost use Rattle.play_text.specs.PlayLines.{IsSentenceLine, IsCommitLine, IsChoicesLine, IsChoices};
ghost use Rattle.play_text.specs.PlayFaults.{IsRefusedText, SentenceFails, CommitFails, ChoicesFails};
ghost use Rattle.play_text.specs.Readers.{said_fault, PutsNumber, NumberFails};

use crate::play::{Choices, PlayFault};
use crate::words::{next_word, number_of, text_behind};
use fol_core::Sent;
use fol_text::{ReadFault, read_sentence};
use lists::Listed;
use std::alloc::{AllocError, Global};

/// The most choices that a play may have.
const MOST_CHOICES: usize = 60;

/// Reads the line `sentence` with its sentence.
pub(crate) fn said_sentence(alloc: Global, line: &[u8]) -> Result<Sent, PlayFault>
    requires { length line.now < 4294967296 }
    ensures read { IfOk result (λ s. IsSentenceLine s line.now) }
    ensures refused { IfErr result (λ fault. (fault ≡ PlayFault.Memory) ⊎ SentenceFails line.now fault) }
{
    match text_behind(line, b"sentence") {
        Some(text) => read_said(alloc, text),
        None => Err(PlayFault::Form),
    }
}

/// Reads the sentence that the text is.
fn read_said(alloc: Global, text: &[u8]) -> Result<Sent, PlayFault>
    requires { length text.now < 4294967296 }
    ensures read { IfOk result (IsReadable text.now) }
    ensures refused { IfErr result (λ fault. (fault ≡ PlayFault.Memory) ⊎ (fault ≡ PlayFault.Sentence) × IsRefusedText text.now) }
{
    match read_sentence(alloc, text) {
        Ok(sentence) => Ok(sentence),
        Err(fault) => Err(fault_of(fault)),
    }
}

/// The fault of a line whose sentence is refused. Want of memory is no fault of the sentence.
fn fault_of(fault: ReadFault) -> PlayFault
    ensures value { result ≡ said_fault fault }
{
    match fault {
        ReadFault::Memory => PlayFault::Memory,
        _ => PlayFault::Sentence,
    }
}

/// Reads the line `commit` with its truth value.
pub(crate) fn said_commitment(line: &[u8]) -> Result<bool, PlayFault>
    ensures read { IfOk result (λ b. IsCommitLine b line.now) }
    ensures refused { IfErr result (CommitFails line.now) }
{
    let Some(text) = text_behind(line, b"commit") else {
        return Err(PlayFault::Form);
    };
    if text == b"true".as_slice() {
        Ok(true)
    } else if text == b"false".as_slice() {
        Ok(false)
    } else {
        Err(PlayFault::Form)
    }
}

/// Reads the line `choices` with its numbers.
pub(crate) fn said_choices(alloc: Global, line: &[u8]) -> Result<Choices, PlayFault>
    ensures read { IfOk result (λ ns. IsChoicesLine ns line.now) }
    ensures refused { IfErr result (λ fault. (fault ≡ PlayFault.Memory) ⊎ ChoicesFails line.now fault) }
{
    match text_behind(line, b"choices") {
        Some(text) => numbers_in(alloc, text),
        None => Err(PlayFault::Form),
    }
}

/// Reads the numbers of which the text consists, with blanks between them.
fn numbers_in(alloc: Global, text: &[u8]) -> Result<Choices, PlayFault>
    ensures read { IfOk result (IsChoices text.now) }
    ensures refused { IfErr result (λ fault. (fault ≡ PlayFault.Memory) ⊎ (fault ≡ PlayFault.Form) × ((ns : List ℕ) → IsChoices text.now ns → ⊥)) }
{
    let mut choices: Choices = Listed::new(alloc);
    let mut rest = text;
    while let Some((word, after)) = next_word(rest) {
        rest = after;
        match put_number(&mut choices, word) {
            Ok(()) => {}
            Err(fault) => return Err(fault),
        }
    }
    Ok(choices)
}

/// Puts the number that the word writes last, where there are fewer than 60.
fn put_number(choices: &mut Choices, word: &[u8]) -> Result<(), PlayFault>
    ensures put { OnOk result (PutsNumber word.now choices.old choices.new) }
    ensures refused { IfErr result (λ fault. (fault ≡ PlayFault.Memory) ⊎ (fault ≡ PlayFault.Form) × NumberFails word.now choices.old) }
{
    let Some(number) = number_of(word) else {
        return Err(PlayFault::Form);
    };
    if choices.len() >= MOST_CHOICES {
        return Err(PlayFault::Form);
    }
    match choices.add(number) {
        Ok(()) => Ok(()),
        Err(AllocError) => Err(PlayFault::Memory),
    }
}
