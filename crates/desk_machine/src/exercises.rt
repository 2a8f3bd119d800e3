ghost use Rattle.std.specs.Prelude.{◌≡◌, ◌≤◌, IfOk, length, option_copied};
ghost use Rattle.desk_machine.specs.Exercises.{latest, text_of, version_of, versions};

use desk_keeper::ExerciseRow;
use edge_io::Bytes;
use lists::Copied;
use std::alloc::{AllocError, Global};

/// The latest version of the exercise.
pub fn latest<'a>(rows: &'a [ExerciseRow], name: &Bytes) -> Option<&'a ExerciseRow>
    ensures value { option_copied result ≡ latest rows.now name.now }
{
    rows.iter().rev().find(|row| row.name == *name)
}

/// How many versions the exercise has.
pub fn version_count(rows: &[ExerciseRow], name: &Bytes) -> usize
    ensures value { result ≡ length (versions rows.now name.now) }
    ensures few { result ≤ length rows.now }
{
    rows.iter().filter(|row| row.name == *name).count()
}

/// The version of the exercise with this number.
pub fn version_of<'a>(
    rows: &'a [ExerciseRow],
    name: &Bytes,
    version: u32,
) -> Option<&'a ExerciseRow>
    ensures value { option_copied result ≡ version_of rows.now name.now version }
{
    rows.iter()
        .find(|row| row.name == *name && row.version == version)
}

/// A copy of the text of the version with this number.
pub(crate) fn text_of(
    alloc: Global,
    rows: &[ExerciseRow],
    name: &Bytes,
    version: u32,
) -> Result<Bytes, AllocError>
    ensures value { IfOk result (λ text. text ≡ text_of rows.now name.now version) }
{
    match version_of(rows, name, version) {
        Some(row) => row.text.copied(alloc),
        None => Ok(Bytes::new(alloc)),
    }
}
