ghost use Rattle.std.specs.Prelude.{◌≡◌, [], IfOk};
ghost use Rattle.desk_machine.specs.Plans.{appends, says};

use crate::Answer;
use desk_keeper::{GradeRow, Row};
use lists::Listed;
use std::alloc::{AllocError, Global};

/// A job, and the worker that holds it.
#[derive(Clone, Copy)]
pub struct Held {
    pub worker: u64,
    pub ticket: u64,
    pub version: u32,
}

/// What becomes of the jobs that are held.
#[derive(Clone, Copy)]
pub enum Hold {
    /// They are as before.
    Stays,
    /// One more is held.
    Takes(Held),
    /// One is no longer held.
    Drops(Held),
}

pub type Rows = Listed<Row>;

/// What a call answers, and the rows that it appends.
#[derive(Drop)]
pub struct Planned<T> {
    pub answer: T,
    pub rows: Rows,
}

/// What a command answers and changes.
#[derive(Drop)]
pub struct Plan {
    pub answer: Answer,
    pub rows: Rows,
    pub hold: Hold,
}

/// Nothing changes.
pub(crate) fn says<T>(alloc: Global, answer: T) -> Planned<T>
    ensures value { result ≡ says answer }
{
    Planned {
        answer,
        rows: Rows::new(alloc),
    }
}

/// One row is appended.
pub(crate) fn appends<T: Drop>(alloc: Global, answer: T, row: Row) -> Result<Planned<T>, AllocError>
    ensures value { IfOk result (λ p. p ≡ appends answer row) }
{
    let mut rows = Rows::new(alloc);
    rows.add(row)?;
    Ok(Planned { answer, rows })
}
