ghost use Rattle.std.specs.Prelude.{◌≡◌};
ghost use Rattle.exercise_fields.specs.declared.fault.FieldFault.TheVariants.{Memory as WantsMemory};

use std::alloc::AllocError;
use thiserror::Error;

/// Why an exercise's text is refused.
#[derive(Clone, Copy, Debug, PartialEq, Eq, Error)]
pub enum FieldFault {
    /// The code of the refusal, and the number of the field that it is about, or 0 where it is about the text as a whole.
    #[error("refused with code {0} at field {1}")]
    Refused(u16, u32),
    /// Memory was refused.
    #[error("out of memory")]
    Memory,
}

impl From<AllocError> for FieldFault {
    ghost from_gives = { λ _ fault. fault ≡ WantsMemory };

    fn from(_refused: AllocError) -> FieldFault {
        FieldFault::Memory
    }
}
