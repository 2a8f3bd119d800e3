use std::alloc::{AllocError, Global};

/// The bytes of a text in which `\xff` stands for the byte with these two hexadecimal digits.
pub fn bytes_of(alloc: Global, text: &str) -> Result<Vec<u8>, AllocError> {
    let mut bytes = Vec::new(alloc);
    let mut is_first = true;
    for part in text.split("\\x") {
        let rest = if is_first {
            part
        } else {
            after_byte(&mut bytes, part)?
        };
        bytes.extend_from_slice(rest.as_bytes())?;
        is_first = false;
    }
    Ok(bytes)
}

/// Adds the byte that the first two digits of the part say, and gives what stands behind them; a part without them is
/// left as it is.
fn after_byte<'a>(bytes: &mut Vec<u8>, part: &'a str) -> Result<&'a str, AllocError> {
    let Some((digits, rest)) = part.split_at_checked(2) else {
        return Ok(part);
    };
    match u8::from_str_radix(digits, 16) {
        Ok(byte) => {
            bytes.push(byte)?;
            Ok(rest)
        }
        Err(_) => Ok(part),
    }
}
