ghost use Rattle.std.specs.Prelude.{◌≡◌, IfOk};
ghost use Rattle.desk_machine.specs.Exercises.{latest};
ghost use Rattle.desk_machine.specs.Setting.{adds_unless_latest, adds_version, plan_set, sets};

use crate::exercises::{latest, version_count};
use crate::plans::{appends, says};
use crate::users::is_teacher;
use crate::{Grader, Known, Planned, SetFault, SettingsFault, Version};
use desk_forms::is_exercise_name;
use desk_keeper::{ExerciseRow, Row, Settings};
use edge_io::Bytes;
use lists::Copied;
use std::alloc::{AllocError, Global};

/// The most versions of exercises of a course.
const MOST_VERSIONS: usize = 10_000;

/// A teacher sets the exercise of this name. The text of the latest version again is no version more.
pub fn plan_set<G: Grader>(
    alloc: Global,
    grader: &G,
    zone: &Bytes,
    known: Option<Known>,
    rows: &[ExerciseRow],
    name: &Bytes,
    text: &Bytes,
) -> Result<Planned<Result<Version, SetFault>>, AllocError>
    ensures value { IfOk result (λ p. p ≡ plan_set G.rules zone.now known rows.now name.now text.now) }
{
    let Some(known) = known else {
        return Ok(says(alloc, Err(SetFault::UnknownToken)));
    };
    if !is_teacher(known.role) {
        return Ok(says(alloc, Err(SetFault::Role)));
    }
    if !is_exercise_name(name.as_slice()) {
        return Ok(says(alloc, Err(SetFault::BadName)));
    }
    match grader.settings(alloc, zone, text) {
        Ok(settings) => adds_unless_latest(alloc, rows, name, text, settings),
        Err(SettingsFault::Refused(code, field)) => {
            Ok(says(alloc, Err(SetFault::Text(code, field))))
        }
        Err(SettingsFault::Memory) => Err(AllocError),
    }
}

fn adds_unless_latest(
    alloc: Global,
    rows: &[ExerciseRow],
    name: &Bytes,
    text: &Bytes,
    settings: Settings,
) -> Result<Planned<Result<Version, SetFault>>, AllocError>
    ensures value { IfOk result (λ p. p ≡ adds_unless_latest (latest rows.now name.now) rows.now name.now text.now settings) }
{
    match latest(rows, name) {
        Some(last) if last.text == *text => {
            let number = last.version;
            Ok(says(
                alloc,
                Ok(Version {
                    number,
                    fresh: false,
                }),
            ))
        }
        _ => adds_version(alloc, rows, name, text, settings),
    }
}

fn adds_version(
    alloc: Global,
    rows: &[ExerciseRow],
    name: &Bytes,
    text: &Bytes,
    settings: Settings,
) -> Result<Planned<Result<Version, SetFault>>, AllocError>
    ensures value { IfOk result (λ p. p ≡ adds_version rows.now name.now text.now settings) }
{
    if rows.len() >= MOST_VERSIONS {
        return Ok(says(alloc, Err(SetFault::TooManyVersions(10_000))));
    }
    let number = version_count(rows, name) as u32 + 1;
    let row = ExerciseRow {
        name: name.copied(alloc)?,
        version: number,
        text: text.copied(alloc)?,
        settings,
    };
    appends(
        alloc,
        Ok(Version {
            number,
            fresh: true,
        }),
        Row::Exercise(row),
    )
}
