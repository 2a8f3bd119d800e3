ghost use Rattle.std.specs.Prelude.{◌≡◌, ◌↔◌, ◌++◌, IsTrue, IfOk, OnOk, OnErr};

use crate::listed::Listed;
use std::alloc::{AllocError, Global};

impl Listed<u8> {
    /// A list of the same bytes.
    pub fn from_slice(alloc: Global, bytes: &[u8]) -> Result<Listed<u8>, AllocError>
        ensures value { IfOk result (λ list. list ≡ bytes.now) }
    {
        Ok(Listed::from_vec(Vec::from_slice(alloc, bytes)?))
    }

    /// Puts the bytes last. Where memory is refused, the list stays as it was.
    pub fn extend(&mut self, bytes: &[u8]) -> Result<(), AllocError>
        ensures ok { OnOk result (self.new ≡ self.old ++ bytes.now) }
        ensures err { OnErr result (self.new ≡ self.old) }
    {
        self.items.extend_from_slice(bytes)
    }

    /// Whether the list has just these bytes, in this order.
    pub fn is(&self, bytes: &[u8]) -> bool
        ensures same { IsTrue result ↔ (self.now ≡ bytes.now) }
    {
        self.as_slice() == bytes
    }
}
