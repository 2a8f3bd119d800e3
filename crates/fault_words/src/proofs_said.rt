ghost use Rattle.std.specs.Prelude.{◌≡◌, IfOk};
ghost use Rattle.fault_words.specs.ProofFaults as spec;

use crate::numbered::with_number;
use crate::sentences_said::sentence_text;
use deriv_laws::StepFault;
use fitch_file::{TaskFault, TextFault};
use lists::Listed;
use proof_check::LineFault;
use std::alloc::{AllocError, Global};

/// The fault of a proof line, with the row of the truth table or the number of letters.
pub fn line_fault_text(alloc: Global, fault: &LineFault) -> Result<Listed<u8>, AllocError>
    ensures text { IfOk result (λ text. text ≡ spec.line_fault_text fault.now) }
{
    match fault {
        LineFault::Step(fault) => step_fault_text(alloc, fault),
        LineFault::NotAPremise => Listed::from_slice(alloc, b"NotAPremise"),
        LineFault::RuleNotAllowed => Listed::from_slice(alloc, b"RuleNotAllowed"),
        LineFault::NotTaut(row) => with_number(alloc, b"NotTaut", *row),
        LineFault::Open => Listed::from_slice(alloc, b"Open"),
        LineFault::Spent => Listed::from_slice(alloc, b"Spent"),
        LineFault::Letters(count) => with_number(alloc, b"Letters", *count),
        LineFault::GoalNotReached => Listed::from_slice(alloc, b"GoalNotReached"),
    }
}

/// The fault of a step, with the place of the cite from 1, or the constant that isn't fresh.
pub fn step_fault_text(alloc: Global, fault: &StepFault) -> Result<Listed<u8>, AllocError>
    ensures text { IfOk result (λ text. text ≡ spec.step_fault_text fault.now) }
{
    match fault {
        StepFault::CiteCount => Listed::from_slice(alloc, b"CiteCount"),
        StepFault::NotVisible(cite) => with_number(alloc, b"NotVisible", *cite),
        StepFault::WrongKind(cite) => with_number(alloc, b"WrongKind", *cite),
        StepFault::NotFollows => Listed::from_slice(alloc, b"NotFollows"),
        StepFault::BoxMissing(cite) => with_number(alloc, b"BoxMissing", *cite),
        StepFault::BoxUnwanted(cite) => with_number(alloc, b"BoxUnwanted", *cite),
        StepFault::NotFresh(constant) => {
            let mut text = Listed::from_slice(alloc, b"NotFresh ")?;
            text.extend(constant.as_slice())?;
            Ok(text)
        }
        StepFault::Memory => Listed::from_slice(alloc, b"Memory"),
    }
}

/// The fault of a physical line of a proof text.
pub fn proof_fault_text(alloc: Global, fault: TextFault) -> Result<Listed<u8>, AllocError>
    ensures text { IfOk result (λ text. text ≡ spec.proof_fault_text fault) }
{
    match fault {
        TextFault::Header => Listed::from_slice(alloc, b"Header"),
        TextFault::Number => Listed::from_slice(alloc, b"Number"),
        TextFault::Depth => Listed::from_slice(alloc, b"Depth"),
        TextFault::Sentence(refusal) => sentence_text(alloc, refusal),
        TextFault::RuleName => Listed::from_slice(alloc, b"RuleName"),
        TextFault::Cite => Listed::from_slice(alloc, b"Cite"),
        TextFault::TooManyLines => Listed::from_slice(alloc, b"TooManyLines"),
        TextFault::Memory => Listed::from_slice(alloc, b"Memory"),
    }
}

/// The fault of a physical line of a task text.
pub fn task_fault_text(alloc: Global, fault: TaskFault) -> Result<Listed<u8>, AllocError>
    ensures text { IfOk result (λ text. text ≡ spec.task_fault_text fault) }
{
    match fault {
        TaskFault::Header => Listed::from_slice(alloc, b"Header"),
        TaskFault::Form => Listed::from_slice(alloc, b"Form"),
        TaskFault::Sentence(refusal) => sentence_text(alloc, refusal),
        TaskFault::NoGoal => Listed::from_slice(alloc, b"NoGoal"),
        TaskFault::TooManyPremises => Listed::from_slice(alloc, b"TooManyPremises"),
        TaskFault::Memory => Listed::from_slice(alloc, b"Memory"),
    }
}
