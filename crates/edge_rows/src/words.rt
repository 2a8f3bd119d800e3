use edge_io::{Bytes, ShelfFault};
use std::alloc::{AllocError, Global};

/// A longer text isn't written out in a reply.
const SHORT: usize = 60;

/// The numbers of the text.
pub fn numbers(alloc: Global, text: &str) -> Result<Vec<u32>, AllocError> {
    let mut numbers = Vec::new(alloc);
    for word in text.split_whitespace() {
        numbers.push(word.parse().unwrap_or(0))?;
    }
    Ok(numbers)
}

/// The bytes between quotes, or their number where they are many.
pub fn quoted(alloc: Global, bytes: &[u8]) -> Result<String, AllocError> {
    if bytes.len() > SHORT {
        let length = bytes.len();
        return format!(in alloc; "{length} bytes");
    }
    let text = String::from_utf8_lossy(alloc, bytes)?;
    format!(in alloc; "{text:?}")
}

/// What a shelf answered, and how often it has failed.
pub fn found(
    alloc: Global,
    answer: &Result<Option<Bytes>, ShelfFault>,
    failed: u64,
) -> Result<String, AllocError> {
    let said = match answer {
        Ok(Some(text)) => quoted(alloc, text.as_slice())?,
        Ok(None) => "none".to_string(alloc)?,
        Err(fault) => format!(in alloc; "{fault:?}")?,
    };
    format!(in alloc; "{said} {failed}")
}

/// Puts what was said behind what was told, where it is anything.
pub fn join(told: &mut String, said: &str) -> Result<(), AllocError> {
    if !told.is_empty() && !said.is_empty() {
        told.push_str("; ")?;
    }
    told.push_str(said)
}
