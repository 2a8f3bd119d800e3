ghost use Rattle.std.specs.Prelude.{◌≡◌};
ghost use Rattle.boole_table.specs.declared.fault.TableFault.TheVariants as table_fault;
ghost use Rattle.boole_table.specs.declared.fault.TableTextFault.TheVariants.{Memory};

use std::alloc::AllocError;
use thiserror::Error;

/// Why no table was made.
#[derive(Clone, Copy, Debug, PartialEq, Eq, Error)]
pub enum TableFault {
    /// The sentences have so many letters, which are more than 12.
    #[error("a table of {0} letters is too large")]
    TooManyLetters(u32),
    /// Memory was refused.
    #[error("out of memory")]
    Memory,
}

impl From<AllocError> for TableFault {
    ghost from_gives = { λ _ fault. fault ≡ table_fault.Memory };

    fn from(_refused: AllocError) -> TableFault {
        TableFault::Memory
    }
}

/// Why a table text wasn't read: the fault of its least faulty physical line.
#[derive(Clone, Copy, Debug, PartialEq, Eq, Error)]
pub enum TableTextFault {
    /// The first line that isn't blank is another one than `table 1`, or there is none.
    #[error("the header `table 1` is missing")]
    Header,
    /// The second line doesn't name letters, or not those that it should, or there is none.
    #[error("the letters are missing or wrong")]
    Letters,
    /// The third line doesn't name sentences, or not those that it should, or there is none.
    #[error("the sentences are missing or wrong")]
    Sentences,
    /// The line is no row with a value for each letter and for each sentence, or it stands behind an answer.
    #[error("this line is no row that may stand here")]
    Row,
    /// The line begins as an answer, and isn't one, or its question can't be answered, or not again.
    #[error("this line is no answer that may stand here")]
    Answer,
    /// Memory was refused.
    #[error("out of memory")]
    Memory,
}

impl From<AllocError> for TableTextFault {
    ghost from_gives = { λ _ fault. fault ≡ Memory };

    fn from(_refused: AllocError) -> TableTextFault {
        TableTextFault::Memory
    }
}
