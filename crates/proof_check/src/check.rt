ghost use Rattle.std.specs.Prelude.{◌≡◌, ◌≢◌, ◌<◌, length, Ok, IfOk};
ghost use Rattle.std.specs.List.{AllByRecursion};
ghost use Rattle.deriv_laws.specs.Derivable.{Der};
ghost use Rattle.proof_check.specs.Judged.{IsVerdict, IsJudged, AllPass};
ghost use Rattle.proof_check.specs.Readers.{OfLines, IsFirstFound, StatesFit};

use crate::ending::{last_outside, reaches};
use crate::line::line_fault;
use crate::verdict::{LineFault, Verdict};
use fitch_file::{Lines, Task, TextFault, read_proof};
use std::alloc::{AllocError, Global};

/// The verdict on a proof text that is handed in for a task: what is wrong with the least faulty physical line, or else
/// with the least proof line that fails a test, or else that the goal isn't reached; or that the proof is correct. An error
/// says only that memory was refused.
///
/// # Requirements
///
/// The text has fewer than 2^32 bytes, so that the number of a line is a `u32`.
pub fn check_proof(alloc: Global, task: &Task, text: &[u8]) -> Result<Verdict, AllocError>
    requires { length text.now < 4294967296 }

    // What is said is to be said of the text.
    ensures verdict { IfOk result (λ v. IsVerdict task.now text.now v) }

    // Where it is Correct, the goal has a derivation from the premises.
    ensures sound { result ≡ Ok Verdict.Correct → Der task.now.premises task.now.goal }
{
    match read_proof(alloc, text) {
        Ok(lines) => judge(alloc, task, &lines),
        Err((place, fault)) => unreadable(place, fault),
    }
}

/// The verdict on a text whose physical line `place` has this fault.
fn unreadable(place: u32, fault: TextFault) -> Result<Verdict, AllocError>
    ensures value { IfOk result (λ v. (v ≡ Verdict.Unreadable place fault) × (fault ≢ TextFault.Memory)) }
{
    match fault {
        TextFault::Memory => Err(AllocError),
        fault => Ok(Verdict::Unreadable(place, fault)),
    }
}

/// The verdict on the lines of a proof, whose sentences are within the limits.
fn judge(alloc: Global, task: &Task, lines: &Lines) -> Result<Verdict, AllocError>
    requires fit { AllByRecursion StatesFit lines.now }
    ensures judged { IfOk result (λ v. OfLines lines.now (λ p. IsJudged task.now p v)) }
{
    match first_fault(alloc, task, lines)? {
        Some(found) => Ok(Verdict::Wrong(found.number, found.fault)),
        None => Ok(judge_end(task, lines)),
    }
}

/// A line that fails a test.
#[derive(Drop)]
struct Found {
    number: u32,
    fault: LineFault,
}

/// The least line that fails a test, and its first fault.
fn first_fault(alloc: Global, task: &Task, lines: &Lines) -> Result<Option<Found>, AllocError>
    requires fit { AllByRecursion StatesFit lines.now }
    ensures first { IfOk result (λ found. IsFirstFound task.now lines.now found) }
{
    for i in 0..lines.as_slice().len() {
        let number = i as u32 + 1;
        if let Some(fault) = line_fault(alloc, task, lines, number)? {
            return Ok(Some(Found { number, fault }));
        }
    }
    Ok(None)
}

/// The verdict on lines that pass their tests.
fn judge_end(task: &Task, lines: &Lines) -> Verdict
    ensures judged { OfLines lines.now (λ p. AllPass task.now p → IsJudged task.now p result) }
{
    let number = last_outside(lines.as_slice());
    if reaches(&task.goal, lines.as_slice(), number) {
        return Verdict::Correct;
    }
    Verdict::Wrong(number, LineFault::GoalNotReached)
}
