use exercise_fields::FieldFault;
use std::alloc::{AllocError, Global};
use std::fmt::Debug;

/// Why a case has no answer of its call.
#[derive(Debug, Drop)]
pub enum NoAnswer {
    /// There is no such call with such texts.
    NoSuchCall,
    Memory,
}

impl From<AllocError> for NoAnswer {
    fn from(_refused: AllocError) -> NoAnswer {
        NoAnswer::Memory
    }
}

/// The fault in words.
pub fn refused(alloc: Global, fault: FieldFault) -> Result<String, NoAnswer> {
    match fault {
        FieldFault::Refused(code, field) => Ok(format!(in alloc; "refused {code} {field}")?),
        FieldFault::Memory => Err(NoAnswer::Memory),
    }
}

pub fn shown(alloc: Global, answer: &impl Debug) -> Result<String, NoAnswer> {
    Ok(format!(in alloc; "{answer:?}")?)
}
