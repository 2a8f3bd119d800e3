use deriv_laws::StepFault;
use fitch_file::TextFault;
use thiserror::Error;

/// What is said of a proof text that is handed in for a task. It never carries a want of memory.
#[derive(Debug, Drop)]
pub enum Verdict {
    /// Each line stands, and the last one outside all subproofs states the goal.
    Correct,
    /// The number of a proof line, counted from 1, and why it is wrong: the least line that fails one of its tests. Where
    /// each line stands and the goal isn't reached, the number of the last line outside all subproofs, or 0.
    Wrong(u32, LineFault),
    /// The number of the least faulty physical line, counted from 1, and its first fault.
    Unreadable(u32, TextFault),
}

/// Why a line of a proof is wrong: the first of its tests that it fails.
#[derive(Debug, Drop, Error)]
pub enum LineFault {
    /// The step doesn't follow by its rule from what it cites, or its boxed constant isn't fresh.
    #[error("{0}")]
    Step(StepFault),
    /// The line's sentence is no premise of the task.
    #[error("this is no premise of the task")]
    NotAPremise,
    /// The task doesn't allow the rule.
    #[error("the rule is not allowed here")]
    RuleNotAllowed,
    /// The cited sentences don't have the sentence as a tautological consequence: in this row of the truth table they are
    /// true and it is false.
    #[error("no tautological consequence: see row {0}")]
    NotTaut(u32),
    /// The search for a refutation ended without one.
    #[error("no consequence was found: a branch stays open")]
    Open,
    /// The search for a refutation reached its limit.
    #[error("no consequence was found within the limit")]
    Spent,
    /// The sentences have this many letters, more than a truth table may have.
    #[error("{0} letters are too many for a truth table")]
    Letters(u32),
    /// The last line outside all subproofs isn't the goal, or there is none.
    #[error("the goal is not reached")]
    GoalNotReached,
}
