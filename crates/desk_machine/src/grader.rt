ghost use Rattle.desk_machine.specs.Rules.{Dues, Grades, Rules, Sets};

use desk_keeper::{Grade, Settings};
use edge_io::Bytes;
use std::alloc::{AllocError, Global};
use thiserror::Error;

/// Why a text sets no exercise: a code, and the field that it is about.
#[derive(Clone, Copy)]
pub struct Refusal {
    pub code: u16,
    pub field: u32,
}

/// Why a text's settings weren't told.
#[derive(Clone, Copy, Debug, Error)]
pub enum SettingsFault {
    /// The code, and the field that it is about.
    #[error("the text is refused with code {0} in field {1}")]
    Refused(u16, u32),
    #[error("out of memory")]
    Memory,
}

/// Why there is no due moment.
#[derive(Clone, Copy, Debug, Error)]
pub enum DueFault {
    #[error("this is no zone")]
    ZoneRefused,
    #[error("this is no date of a due moment")]
    DateRefused,
    #[error("out of memory")]
    Memory,
}

/// What a course's rules say of texts: an exercise's settings, a file's grade, a civil time's moment. Each is a function
/// of its two texts that belongs to the type.
pub trait Grader {
    /// The three functions.
    ghost rules: { Rules };

    /// The settings of an exercise's text in the zone.
    fn settings(&self, alloc: Global, zone: &Bytes, text: &Bytes) -> Result<Settings, SettingsFault>
        ensures answer { Sets (rules.settings zone.now text.now) result };

    /// The grade of a file by an exercise's text.
    fn grade(&self, alloc: Global, text: &Bytes, file: &Bytes) -> Result<Grade, AllocError>
        ensures answer { Grades (rules.grade text.now file.now) result };

    /// The moment of a civil time in the zone, in seconds since 1970.
    fn due(&self, alloc: Global, zone: &Bytes, civil: &Bytes) -> Result<u64, DueFault>
        ensures answer { Dues (rules.due zone.now civil.now) result };
}
