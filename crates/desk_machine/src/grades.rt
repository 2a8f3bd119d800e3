ghost use Rattle.std.specs.Prelude.{◌≡◌, Some, option_copied};
ghost use Rattle.desk_machine.specs.Grading.{credit_of, current, later_of};

use crate::exercises::version_of;
use course_marks::credit;
use desk_keeper::{ExerciseRow, GradeRow, SubmissionRow};

/// The current grade of the submission with this ticket: the one by the greatest version.
pub(crate) fn current(grades: &[GradeRow], ticket: u64) -> Option<&GradeRow>
    ensures value { option_copied result ≡ current grades.now ticket }
{
    let mut best: Option<&GradeRow> = None;
    for row in grades {
        if row.ticket == ticket {
            best = Some(later_of(best, row));
        }
    }
    best
}

/// Of two grades the one by the greater version, or else the first.
fn later_of<'a>(best: Option<&'a GradeRow>, row: &'a GradeRow) -> &'a GradeRow
    ensures value { Some result.now ≡ later_of (option_copied best.entry) row.now }
{
    match best {
        Some(best) if best.version >= row.version => best,
        _ => row,
    }
}

/// What the submission earns by the grade.
pub(crate) fn credit_of(exercises: &[ExerciseRow], row: &SubmissionRow, graded: &GradeRow) -> u32
    ensures value { result ≡ credit_of exercises.now row.now graded.now }
{
    match version_of(exercises, &row.name, graded.version) {
        Some(version) if graded.grade.code == 0 => credit(
            version.settings.points,
            version.settings.percent,
            row.late_days,
        ),
        _ => 0,
    }
}
