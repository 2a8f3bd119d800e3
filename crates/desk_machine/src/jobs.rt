ghost use Rattle.std.specs.Prelude.{◌≡◌, None, Some, flat_map, IfOk, option_copied};
ghost use Rattle.std.specs.List.{find};
ghost use Rattle.desk_machine.specs.Jobs.{
  holds,
  is_graded,
  is_held,
  is_ready,
  next_job,
  offered,
  ordered_jobs,
  own_jobs,
  slip_by,
  submission_of,
};

use crate::exercises::text_of;
use crate::{Held, Slip};
use desk_keeper::{ExerciseRow, GradeRow, OrderRow, SubmissionRow, Tables};
use lists::Copied;
use std::alloc::{AllocError, Global};

/// A submission, by its ticket, that is to be graded by a version.
#[derive(Clone, Copy)]
pub struct Job {
    pub ticket: u64,
    pub version: u32,
}

/// What is offered to a worker: the first job that is open and isn't held.
pub fn offered(alloc: Global, tables: &Tables, held: &[Held]) -> Result<Option<Slip>, AllocError>
    ensures value { IfOk result (λ slip. slip ≡ offered tables.now held.now) }
{
    let Some(job) = next_job(tables, held) else {
        return Ok(None);
    };
    let row = submission_of(tables.submissions.as_slice(), job.ticket);
    slip_by(alloc, row, tables.exercises.as_slice(), job)
}

/// The submission with the ticket, which is its place from 1.
pub fn submission_of(rows: &[SubmissionRow], ticket: u64) -> Option<&SubmissionRow>
    ensures value { option_copied result ≡ submission_of rows.now ticket }
{
    if ticket == 0 {
        return None;
    }
    rows.get(ticket as usize - 1)
}

fn slip_by(
    alloc: Global,
    row: Option<&SubmissionRow>,
    exercises: &[ExerciseRow],
    job: Job,
) -> Result<Option<Slip>, AllocError>
    ensures value { IfOk result (λ slip. slip ≡ slip_by (option_copied row.entry) exercises.now job) }
{
    let Some(row) = row else {
        return Ok(None);
    };
    Ok(Some(Slip {
        ticket: job.ticket,
        version: job.version,
        text: text_of(alloc, exercises, &row.name, job.version)?,
        file: row.file.copied(alloc)?,
    }))
}

/// The first job that is open and isn't held.
#[tactic(auto, using(crate::proofs::Finding::found_in_first, crate::proofs::Finding::found_in_second))]
fn next_job(tables: &Tables, held: &[Held]) -> Option<Job>
    ensures value { result ≡ next_job tables.now held.now }
{
    let grades = tables.grades.as_slice();
    let rows = tables.submissions.as_slice();
    match next_own(rows, grades, held) {
        Some(job) => Some(job),
        None => next_in_orders(tables.orders.as_slice(), rows, grades, held),
    }
}

fn next_own(rows: &[SubmissionRow], grades: &[GradeRow], held: &[Held]) -> Option<Job>
    ensures value { result ≡ find (is_ready grades.now held.now) (own_jobs 1 rows.now) }
{
    for place in 0..rows.len() {
        let job = Job {
            ticket: place as u64 + 1,
            version: rows[place].version,
        };
        if is_ready(grades, held, job) {
            return Some(job);
        }
    }
    None
}

#[tactic(auto, using(crate::proofs::Finding::found_in_order, crate::proofs::Finding::not_in_order))]
fn next_in_orders(
    orders: &[OrderRow],
    rows: &[SubmissionRow],
    grades: &[GradeRow],
    held: &[Held],
) -> Option<Job>
    ensures value { result ≡ find (is_ready grades.now held.now) (flat_map (λ order. ordered_jobs order 1 rows.now) orders.now) }
{
    for order in orders {
        if let Some(job) = next_in_order(order, rows, grades, held) {
            return Some(job);
        }
    }
    None
}

fn next_in_order(
    order: &OrderRow,
    rows: &[SubmissionRow],
    grades: &[GradeRow],
    held: &[Held],
) -> Option<Job>
    ensures value { result ≡ find (is_ready grades.now held.now) (ordered_jobs order.now 1 rows.now) }
{
    for place in 0..rows.len() {
        let job = Job {
            ticket: place as u64 + 1,
            version: order.version,
        };
        let is_for = rows[place].name == order.name && job.ticket <= order.upto;
        if is_for && is_ready(grades, held, job) {
            return Some(job);
        }
    }
    None
}

fn is_ready(grades: &[GradeRow], held: &[Held], job: Job) -> bool
    ensures value { result ≡ is_ready grades.now held.now job }
{
    !is_graded(grades, job) && !is_held(held, job)
}

/// Whether a grade of the job is kept.
fn is_graded(grades: &[GradeRow], job: Job) -> bool
    ensures value { result ≡ is_graded grades.now job }
{
    grades.iter().any(|row| row.ticket == job.ticket && row.version == job.version)
}

/// Whether a worker holds the job.
fn is_held(held: &[Held], job: Job) -> bool
    ensures value { result ≡ is_held held.now job }
{
    held.iter().any(|one| one.ticket == job.ticket && one.version == job.version)
}

/// Whether this worker holds this job.
pub fn holds(held: &[Held], worker: u64, ticket: u64, version: u32) -> bool
    ensures value { result ≡ holds held.now worker ticket version }
{
    held.iter().any(|one| one.worker == worker && one.ticket == ticket && one.version == version)
}
