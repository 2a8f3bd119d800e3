/// Whether a goal is a tautological consequence of premises.
#[derive(Clone, Copy, Debug, PartialEq, Eq)]
pub enum TautAnswer {
    /// The goal is true in each row in which all premises are.
    Yes,
    /// The first row, from 1, in which all premises are true and the goal is false.
    No(u32),
    /// There are this many letters: more than 16, so that no table was made.
    TooManyLetters(u32),
}
