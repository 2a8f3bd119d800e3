ghost use Rattle.std.specs.Prelude.{◌≡◌};
ghost use Rattle.fitch_file.specs.declared.fault.TextFault.TheVariants.{Memory};
ghost use Rattle.fitch_file.specs.declared.fault.TaskFault.TheVariants as task_fault;

use fol_text::ReadFault;
use std::alloc::AllocError;
use thiserror::Error;

/// Why a proof text wasn't read: the first test that its least faulty physical line fails, in the order of too many lines,
/// number, bars, rule name, depth, sentence and cites.
#[derive(Clone, Copy, Debug, PartialEq, Eq, Error)]
pub enum TextFault {
    /// The first line that isn't blank is another one than `proof 1`, or there is none.
    #[error("the header `proof 1` is missing")]
    Header,
    /// The line doesn't begin with the next number.
    #[error("the number of this line is wrong")]
    Number,
    /// The line has no bar or more than 30, or its depth doesn't fit the line before.
    #[error("the depth of this line is wrong")]
    Depth,
    /// The sentence is refused. The fault is never `Memory`.
    #[error("this line has no sentence: {0}")]
    Sentence(ReadFault),
    /// The line names no rule behind a semicolon, or one that its box or its sentence doesn't suit.
    #[error("this line names no rule that suits it")]
    RuleName,
    /// The cites are out of form, or the line may not cite.
    #[error("the cites of this line are wrong")]
    Cite,
    /// This would be the 2,001st line of the proof.
    #[error("the proof has more than 2,000 lines")]
    TooManyLines,
    /// Memory was refused.
    #[error("out of memory")]
    Memory,
}

impl From<AllocError> for TextFault {
    ghost from_gives = { λ _ fault. fault ≡ Memory };

    fn from(_refused: AllocError) -> TextFault {
        TextFault::Memory
    }
}

/// Why a task text wasn't read: the fault of its least faulty physical line.
#[derive(Clone, Copy, Debug, PartialEq, Eq, Error)]
pub enum TaskFault {
    /// The first line that isn't blank is another one than `task 1`, or there is none.
    #[error("the header `task 1` is missing")]
    Header,
    /// The line declares no premise, no goal and no consequence rules, or it is a second line for the goal or for the
    /// consequence rules.
    #[error("this line declares nothing that a task may have here")]
    Form,
    /// The sentence is refused. The fault is never `Memory`.
    #[error("this line has no sentence: {0}")]
    Sentence(ReadFault),
    /// No line declares a goal.
    #[error("the task has no goal")]
    NoGoal,
    /// This would be the 33rd premise.
    #[error("the task has more than 32 premises")]
    TooManyPremises,
    /// Memory was refused.
    #[error("out of memory")]
    Memory,
}

impl From<AllocError> for TaskFault {
    ghost from_gives = { λ _ fault. fault ≡ task_fault.Memory };

    fn from(_refused: AllocError) -> TaskFault {
        TaskFault::Memory
    }
}
