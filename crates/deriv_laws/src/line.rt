use crate::rule::Rule;
use fol_core::{Ident, Sent};
use lists::Listed;
use thiserror::Error;

/// What a line of a proof cites: a line, or the subproof from `first` to `last`.
#[derive(Clone, Copy, Debug, PartialEq, Eq)]
pub struct Cite {
    /// The number of the cited line, or of the subproof's first line. Lines are counted from 1.
    pub first: u32,
    /// The number of the subproof's last line; equal to `first` where a line is cited.
    pub last: u32,
    /// Whether a subproof is cited.
    pub sub: bool,
}

/// The cites of a line, in the order in which they are written.
pub type Cites = Listed<Cite>;

/// A line of a Fitch proof.
#[derive(Debug, Drop)]
pub struct FlatLine {
    /// How many subproofs the line stands in, and one more: 1 on the outermost level.
    pub depth: u8,
    /// The constant that the line boxes, where it opens a subproof with a box.
    pub boxed: Option<Ident>,
    /// The line's sentence; none where it opens a subproof by a box alone.
    pub sentence: Option<Sent>,
    /// The rule that the line names.
    pub rule: Rule,
    /// What it cites.
    pub cites: Cites,
}

/// Why a step of a proof doesn't follow by its rule. A number is the place of a cite in its line,
/// counted from 1.
#[derive(Debug, Drop, Error)]
pub enum StepFault {
    /// The rule takes another number of cites.
    #[error("wrong number of cites")]
    CiteCount,
    /// The cited line or subproof isn't visible at the line.
    #[error("cite {0} is not visible here")]
    NotVisible(u32),
    /// A subproof is cited where the rule takes a line, or a line where it takes a subproof.
    #[error("cite {0} is of the wrong kind")]
    WrongKind(u32),
    /// The sentence doesn't follow by the rule from what is cited.
    #[error("the sentence does not follow by this rule")]
    NotFollows,
    /// The cited subproof boxes no constant, where the rule takes one that does.
    #[error("the subproof of cite {0} has no boxed constant")]
    BoxMissing(u32),
    /// The cited subproof boxes a constant, where the rule takes one that doesn't.
    #[error("the subproof of cite {0} has a boxed constant")]
    BoxUnwanted(u32),
    /// The boxed constant isn't fresh.
    #[error("the boxed constant is not fresh")]
    NotFresh(Ident),
    /// Memory ran out.
    #[error("out of memory")]
    Memory,
}
