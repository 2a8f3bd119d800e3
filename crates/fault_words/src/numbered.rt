ghost use Rattle.std.specs.Prelude.{◌≡◌, IfOk};
ghost use Rattle.fault_words.specs.Numbered as spec;

use lists::Listed;
use std::alloc::{AllocError, Global};

/// The name, a blank, and the number in decimal digits.
pub fn with_number(alloc: Global, name: &[u8], number: u32) -> Result<Listed<u8>, AllocError>
    ensures text { IfOk result (λ text. text ≡ spec.with_number name.now number) }
{
    let mut text = Listed::from_slice(alloc, name)?;
    text.extend(format!(in alloc; " {number}")?.as_bytes())?;
    Ok(text)
}
