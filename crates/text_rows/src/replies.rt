use std::alloc::{AllocError, Global};
use std::fmt::Debug;

/// Why a case has no answer of its call.
#[derive(Debug, Drop)]
pub enum NoAnswer {
    /// There is no such call with such texts.
    NoSuchCall,
    Memory,
}

impl From<AllocError> for NoAnswer {
    fn from(_refused: AllocError) -> NoAnswer {
        NoAnswer::Memory
    }
}

pub fn said(alloc: Global, words: &str) -> Result<String, NoAnswer> {
    Ok(words.to_string(alloc)?)
}

pub fn shown(alloc: Global, answer: &impl Debug) -> Result<String, NoAnswer> {
    Ok(format!(in alloc; "{answer:?}")?)
}

/// The bytes as a text between quotes.
pub fn quoted(alloc: Global, bytes: &[u8]) -> Result<String, NoAnswer> {
    let text = String::from_utf8_lossy(alloc, bytes)?;
    Ok(format!(in alloc; "{text:?}")?)
}

/// The bytes as a text between quotes, or that there are none.
pub fn quoted_if(alloc: Global, bytes: Option<&[u8]>) -> Result<String, NoAnswer> {
    match bytes {
        Some(bytes) => quoted(alloc, bytes),
        None => said(alloc, "none"),
    }
}

/// The two texts between quotes, or that there are none.
pub fn both_quoted(alloc: Global, found: Option<(&[u8], &[u8])>) -> Result<String, NoAnswer> {
    let Some((one, other)) = found else {
        return said(alloc, "none");
    };
    let one = quoted(alloc, one)?;
    let other = quoted(alloc, other)?;
    Ok(format!(in alloc; "{one} and {other}")?)
}
