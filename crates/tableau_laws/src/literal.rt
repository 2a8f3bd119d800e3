use fol_core::Sent;
use lists::Listed;

/// A signed sentence: on a branch any sentence, in an answer an atomic sentence or an equation.
#[derive(Debug, Drop)]
pub struct Literal {
    /// Whether the sentence is held; else it is denied.
    pub holds: bool,
    /// What is held or denied.
    pub sentence: Sent,
}

/// Signed sentences in the order of a branch.
pub type Literals = Listed<Literal>;

/// What the ordered tableau says about a goal and premises.
#[derive(Debug, Drop)]
pub enum ConAnswer {
    /// Each branch is closed after this many applications: the goal follows.
    Closed(u32),
    /// The leftmost branch that isn't closed is finished, and these are its literals.
    Open(Literals),
    /// As many applications were made as there may be, and the branch at which work stands isn't finished.
    Spent,
}
