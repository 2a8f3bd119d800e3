ghost use Rattle.std.specs.Prelude.{◌≡◌, ◌++◌, IfOk, codes};
ghost use Rattle.fault_words.specs.SentenceFaults as spec;

use crate::numbered::with_number;
use fol_text::ReadFault;
use lists::Listed;
use sentence_lists::ListFault;
use std::alloc::{AllocError, Global};

/// The refusal of a sentence, with its place in bytes from 0; of one that is too long, with its length.
pub fn refusal_text(alloc: Global, refusal: ReadFault) -> Result<Listed<u8>, AllocError>
    ensures text { IfOk result (λ text. text ≡ spec.refusal_text refusal) }
{
    match refusal {
        ReadFault::BadByte(place) => with_number(alloc, b"BadByte", place),
        ReadFault::Unexpected(place) => with_number(alloc, b"Unexpected", place),
        ReadFault::Ambiguous(place) => with_number(alloc, b"Ambiguous", place),
        ReadFault::FreeVariable(place) => with_number(alloc, b"FreeVariable", place),
        ReadFault::BlockArity(place) => with_number(alloc, b"BlockArity", place),
        ReadFault::TooDeep(place) => with_number(alloc, b"TooDeep", place),
        ReadFault::TooMany(place) => with_number(alloc, b"TooMany", place),
        ReadFault::TooLong(length) => with_number(alloc, b"TooLong", length),
        ReadFault::Memory => Listed::from_slice(alloc, b"Memory"),
    }
}

/// The fault of a line that has a refused sentence.
pub(crate) fn sentence_text(alloc: Global, refusal: ReadFault) -> Result<Listed<u8>, AllocError>
    ensures text { IfOk result (λ text. text ≡ spec.sentence_text refusal) }
{
    let mut text = Listed::from_slice(alloc, b"Sentence ")?;
    text.append(refusal_text(alloc, refusal)?)?;
    Ok(text)
}

/// The fault of a list of sentences.
pub fn list_fault_text(alloc: Global, fault: ListFault) -> Result<Listed<u8>, AllocError>
    ensures text { IfOk result (λ text. text ≡ spec.list_fault_text fault) }
{
    match fault {
        ListFault::Sentence(refusal) => sentence_text(alloc, refusal),
        ListFault::TooManySentences => Listed::from_slice(alloc, b"TooManySentences"),
        ListFault::Memory => Listed::from_slice(alloc, b"Memory"),
    }
}
