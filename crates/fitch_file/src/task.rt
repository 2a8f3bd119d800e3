use fol_core::{Sent, Sents};

/// The consequence rules that a task allows.
#[derive(Clone, Copy, Debug, PartialEq, Eq)]
pub struct Allowed {
    /// Whether `Taut Con` is allowed.
    pub taut: bool,
    /// Whether `FO Con` is allowed.
    pub fo: bool,
    /// Whether `Ana Con` is allowed.
    pub ana: bool,
}

/// What a proof is asked for: the goal from the premises, by F and by the consequence rules that are allowed.
#[derive(Debug, Drop)]
pub struct Task {
    /// At most 32 premises, in the order of their lines.
    pub premises: Sents,
    pub goal: Sent,
    pub allowed: Allowed,
}

/// A task, and where its text ends.
#[derive(Debug, Drop)]
pub struct TaskText {
    pub task: Task,
    /// How many physical lines stand before the proof text; where there is none, how many lead up to the last line that
    /// isn't blank.
    pub lines: u32,
    /// How many bytes stand before the proof text; where there is none, the length of the text.
    pub rest: u32,
}
