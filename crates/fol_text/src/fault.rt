ghost use Rattle.std.specs.Prelude.{◌≡◌};
ghost use Rattle.fol_text.specs.declared.fault.ReadFault.TheVariants.{Memory};
ghost use Rattle.fol_text.specs.declared.fault.Refusal.TheVariants as refusal;
ghost use Rattle.fol_text.specs.Machine.{at_place};

use std::alloc::{AllocError, AllocFailed};
use thiserror::Error;

/// Why no sentence was read: the first refusal, in the order of length, bytes, tokens, depth, nodes, places of the block
/// predicates and free variables. A place is a byte offset from 0.
#[derive(Clone, Copy, Debug, PartialEq, Eq, Error)]
pub enum ReadFault {
    /// No token begins here.
    #[error("no token begins at byte {0}")]
    BadByte(u32),
    /// The tokens up to this one begin no sentence, or the text ends too early, and this is its length.
    #[error("this begins no sentence at byte {0}")]
    Unexpected(u32),
    /// This connective doesn't chain with another one in the same sentence.
    #[error("a connective at byte {0} needs parentheses")]
    Ambiguous(u32),
    /// No quantifier binds this variable.
    #[error("the variable at byte {0} is free")]
    FreeVariable(u32),
    /// This predicate of the blocks language has another number of places.
    #[error("the block predicate at byte {0} has another number of places")]
    BlockArity(u32),
    /// More than 120 parentheses, `~` and quantifiers are pending here, or, at 0, the depth is over 60.
    #[error("the sentence is too deep at byte {0}")]
    TooDeep(u32),
    /// The sentence has over 400 nodes. The place is 0.
    #[error("the sentence has more than 400 nodes")]
    TooMany(u32),
    /// The text has over 4,000 bytes. This is its length.
    #[error("the text has {0} bytes, and 4,000 is the limit")]
    TooLong(u32),
    /// Memory was refused.
    #[error("out of memory")]
    Memory,
}

impl From<AllocError> for ReadFault {
    ghost from_gives = { λ _ fault. fault ≡ Memory };

    fn from(_refused: AllocError) -> ReadFault {
        ReadFault::Memory
    }
}

/// Why a token was refused. Its place is known further out.
#[derive(Clone, Copy, Debug, PartialEq, Eq)]
pub(crate) enum Refusal {
    /// A connective that doesn't chain with the one that is there.
    Ambiguous,
    /// A token with which no sentence goes on.
    Unexpected,
    /// A token with which too many are pending.
    TooDeep,
    /// Memory was refused.
    Memory,
}

impl Refusal {
    /// The fault that the refusal is at a place.
    pub(crate) fn at(self, place: u32) -> ReadFault
        ensures value { result ≡ at_place self place }
    {
        match self {
            Refusal::Ambiguous => ReadFault::Ambiguous(place),
            Refusal::Unexpected => ReadFault::Unexpected(place),
            Refusal::TooDeep => ReadFault::TooDeep(place),
            Refusal::Memory => ReadFault::Memory,
        }
    }
}

impl From<AllocError> for Refusal {
    ghost from_gives = { λ _ given. given ≡ refusal.Memory };

    fn from(_refused: AllocError) -> Refusal {
        Refusal::Memory
    }
}
