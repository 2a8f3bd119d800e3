use fol_core::Sent;
use fol_text::{ReadFault, print_sentence};
use std::alloc::{AllocError, Global};

/// Why a case has no answer of its call.
#[derive(Debug, Drop)]
pub enum NoAnswer {
    /// One of its texts is no sentence.
    Fault(ReadFault),
    /// There is no such call with such texts.
    NoSuchCall,
    Memory,
}

impl From<AllocError> for NoAnswer {
    fn from(_refused: AllocError) -> NoAnswer {
        NoAnswer::Memory
    }
}

impl From<ReadFault> for NoAnswer {
    fn from(fault: ReadFault) -> NoAnswer {
        match fault {
            ReadFault::Memory => NoAnswer::Memory,
            fault => NoAnswer::Fault(fault),
        }
    }
}

pub fn said(alloc: Global, words: &str) -> Result<String, NoAnswer> {
    Ok(words.to_string(alloc)?)
}

pub fn printed(alloc: Global, sentence: &Sent) -> Result<String, NoAnswer> {
    let text = print_sentence(alloc, sentence)?;
    Ok(String::from_utf8_lossy(alloc, text.as_slice())?)
}
