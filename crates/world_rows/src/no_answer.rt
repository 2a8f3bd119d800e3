use fol_text::ReadFault;
use std::alloc::AllocError;

/// Why a case has no answer of its call.
#[derive(Debug, Drop)]
pub enum NoAnswer {
    /// A text is no sentence.
    Fault(ReadFault),
    /// No world was read so far.
    NoWorld,
    /// There is no such call with such texts.
    NoSuchCall,
    Memory,
}

impl From<AllocError> for NoAnswer {
    fn from(_refused: AllocError) -> NoAnswer {
        NoAnswer::Memory
    }
}

impl From<ReadFault> for NoAnswer {
    fn from(fault: ReadFault) -> NoAnswer {
        match fault {
            ReadFault::Memory => NoAnswer::Memory,
            fault => NoAnswer::Fault(fault),
        }
    }
}
