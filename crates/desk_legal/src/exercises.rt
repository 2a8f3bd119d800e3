ghost use Rattle.std.specs.Prelude.{◌≡◌, ◌+◌, ◌==◌, length};
ghost use Rattle.desk_machine.specs.Allowed.{allowed_settings, lies};
ghost use Rattle.desk_machine.specs.Exercises.{versions};
ghost use Rattle.desk_legal.specs.Legal.{exercise_may, extension_may};
ghost use Rattle.desk_legal.specs.Prefixes.{first_bad};

use course_marks::LAST_MOMENT;
use desk_forms::{is_exercise_name, is_text};
use desk_keeper::{ExerciseRow, ExtensionRow, Settings, Tables};
use desk_machine::{has_student, latest, version_count};

/// The most versions of exercises of a course.
const MOST_VERSIONS: usize = 10_000;

/// The most bytes of a prompt.
const MOST_PROMPT: usize = 4_000;

/// The first version that may not stand behind those before it, by its place from 1.
pub(crate) fn bad_exercise(rows: &[ExerciseRow]) -> Option<u64>
    ensures value { result ≡ first_bad exercise_may rows.now }
{
    for place in 0..rows.len() {
        if !exercise_may(&rows[..place], &rows[place]) {
            return Some(place as u64 + 1);
        }
    }
    None
}

fn exercise_may(before: &[ExerciseRow], row: &ExerciseRow) -> bool
    ensures value { result ≡ exercise_may before.now row.now }
{
    is_exercise_name(row.name.as_slice())
        && is_next_version(before, row)
        && allows_settings(&row.settings)
        && is_text(row.text.as_slice())
        && before.len() < MOST_VERSIONS
}

fn is_next_version(before: &[ExerciseRow], row: &ExerciseRow) -> bool
    ensures value { result ≡ (row.now.version == length (versions before.now row.now.name) + 1) }
{
    row.version as u64 == version_count(before, &row.name) as u64 + 1
}

/// Whether the settings are in their ranges, and the prompt is a text that isn't too long.
fn allows_settings(settings: &Settings) -> bool
    ensures value { result ≡ allowed_settings settings.now }
{
    settings.points <= 1_000
        && settings.percent <= 100
        && settings.due <= LAST_MOMENT
        && settings.close_days <= 365
        && lies(1, 1_000, settings.attempts)
        && settings.prompt.len() <= MOST_PROMPT
        && is_text(settings.prompt.as_slice())
}

/// Whether the number lies between the two.
pub(crate) fn lies(least: u32, most: u32, number: u32) -> bool
    ensures value { result ≡ lies least most number }
{
    least <= number && number <= most
}

/// The first extension that may not stand, by its place from 1.
pub(crate) fn bad_extension(tables: &Tables) -> Option<u64>
    ensures value { result ≡ first_bad (λ before row. extension_may tables.now row) tables.now.extensions }
{
    let rows = tables.extensions.as_slice();
    for place in 0..rows.len() {
        if !extension_may(tables, &rows[place]) {
            return Some(place as u64 + 1);
        }
    }
    None
}

fn extension_may(tables: &Tables, row: &ExtensionRow) -> bool
    ensures value { result ≡ extension_may tables.now row.now }
{
    has_student(tables.users.as_slice(), row.student)
        && latest(tables.exercises.as_slice(), &row.name).is_some()
        && row.due <= LAST_MOMENT
}
