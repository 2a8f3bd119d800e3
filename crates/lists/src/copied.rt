ghost use Rattle.std.specs.Prelude.{◌≡◌, IfOk};

use crate::listed::Listed;
use std::alloc::{AllocError, Global};

/// A type whose values can be copied, where memory is there.
pub trait Copied: Drop {
    /// The same value anew.
    fn copied(&self, alloc: Global) -> Result<Self, AllocError>
        ensures value { IfOk result (λ copy. copy ≡ self.now) };
}

impl Copied for Listed<u8> {
    fn copied(&self, alloc: Global) -> Result<Listed<u8>, AllocError> {
        Listed::from_slice(alloc, self.as_slice())
    }
}

impl<T: Copied> Listed<T> {
    /// A list of the same items.
    pub fn copy_items(&self, alloc: Global) -> Result<Listed<T>, AllocError>
        ensures value { IfOk result (λ list. list ≡ self.now) }
    {
        let mut copies = Listed::new(alloc);
        for item in self.as_slice() {
            copies.add(item.copied(alloc)?)?;
        }
        Ok(copies)
    }
}
