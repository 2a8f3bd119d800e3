ghost use Rattle.std.specs.Prelude.{◌≡◌, Ok, IfOk, option_copied};
ghost use Rattle.desk_machine.specs.Extending.{extends_to, is_due, last_extension, plan_extend};

use crate::exercises::latest;
use crate::plans::{appends, says};
use crate::users::{has_student, is_teacher};
use crate::{DueFault, ExtendFault, Grader, Known, Planned};
use desk_keeper::{ExtensionRow, Row, Tables};
use edge_io::Bytes;
use lists::Copied;
use std::alloc::{AllocError, Global};

/// A teacher sets another due moment for a student and an exercise. The moment of the last extension again is kept once.
pub fn plan_extend<G: Grader>(
    alloc: Global,
    grader: &G,
    zone: &Bytes,
    known: Option<Known>,
    tables: &Tables,
    name: &Bytes,
    student: u32,
    civil: &Bytes,
) -> Result<Planned<Result<u64, ExtendFault>>, AllocError>
    ensures value { IfOk result (λ p. p ≡ plan_extend G.rules zone.now known tables.now name.now student civil.now) }
{
    let Some(known) = known else {
        return Ok(says(alloc, Err(ExtendFault::UnknownToken)));
    };
    if !is_teacher(known.role) {
        return Ok(says(alloc, Err(ExtendFault::Role)));
    }
    if latest(tables.exercises.as_slice(), name).is_none() {
        return Ok(says(alloc, Err(ExtendFault::NoExercise)));
    }
    if !has_student(tables.users.as_slice(), student) {
        return Ok(says(alloc, Err(ExtendFault::NoStudent)));
    }
    match grader.due(alloc, zone, civil) {
        Ok(due) => extends_to(alloc, due, tables.extensions.as_slice(), name, student),
        Err(DueFault::Memory) => Err(AllocError),
        Err(DueFault::ZoneRefused | DueFault::DateRefused) => {
            Ok(says(alloc, Err(ExtendFault::BadDue)))
        }
    }
}

fn extends_to(
    alloc: Global,
    due: u64,
    rows: &[ExtensionRow],
    name: &Bytes,
    student: u32,
) -> Result<Planned<Result<u64, ExtendFault>>, AllocError>
    ensures value { IfOk result (λ p. p ≡ extends_to (Ok due) rows.now name.now student) }
{
    if is_due(due, last_extension(rows, name, student)) {
        return Ok(says(alloc, Ok(due)));
    }
    let row = ExtensionRow {
        name: name.copied(alloc)?,
        student,
        due,
    };
    appends(alloc, Ok(due), Row::Extension(row))
}

/// The student's last extension for the exercise.
pub(crate) fn last_extension<'a>(
    rows: &'a [ExtensionRow],
    name: &Bytes,
    student: u32,
) -> Option<&'a ExtensionRow>
    ensures value { option_copied result ≡ last_extension rows.now name.now student }
{
    rows.iter()
        .rev()
        .find(|row| row.name == *name && row.student == student)
}

fn is_due(due: u64, row: Option<&ExtensionRow>) -> bool
    ensures value { result ≡ is_due due (option_copied row.entry) }
{
    match row {
        Some(row) => row.due == due,
        None => false,
    }
}
