ghost use Rattle.std.specs.Prelude.{◌≡◌, ◌+◌, ◌==◌};
ghost use Rattle.desk_machine.specs.Submitting.{count_of};
ghost use Rattle.desk_legal.specs.Legal.{submission_may};
ghost use Rattle.desk_legal.specs.Prefixes.{first_bad};

use desk_forms::is_key;
use desk_keeper::{SubmissionRow, Tables};
use desk_machine::{count_of, has_student, kept_under, version_of};

/// The most submissions of a student.
const MOST_NUMBERS: usize = 9_999;

/// The first submission that may not stand behind those before it, by its place from 1, which is its ticket.
pub(crate) fn bad_submission(tables: &Tables) -> Option<u64>
    ensures value { result ≡ first_bad (submission_may tables.now) tables.now.submissions }
{
    let rows = tables.submissions.as_slice();
    for place in 0..rows.len() {
        if !submission_may(tables, &rows[..place], &rows[place]) {
            return Some(place as u64 + 1);
        }
    }
    None
}

#[tactic(auto, unfolding(crate::specs::Legal::submission_may))]
fn submission_may(tables: &Tables, before: &[SubmissionRow], row: &SubmissionRow) -> bool
    ensures value { result ≡ submission_may tables.now before.now row.now }
{
    has_student(tables.users.as_slice(), row.student)
        && version_of(tables.exercises.as_slice(), &row.name, row.version).is_some()
        && is_next_number(before, row)
        && is_key(row.key.as_slice())
        && kept_under(before, row.student, &row.key).is_none()
        && (row.file.len() as u64) < 4_294_967_296
        && count_of(before, row.student) < MOST_NUMBERS
}

fn is_next_number(before: &[SubmissionRow], row: &SubmissionRow) -> bool
    ensures value { result ≡ (row.now.number == count_of before.now row.now.student + 1) }
{
    row.number as u64 == count_of(before, row.student) as u64 + 1
}
