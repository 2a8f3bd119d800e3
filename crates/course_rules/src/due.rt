ghost use Rattle.std.specs.Prelude.{◌≡◌};
ghost use Rattle.jiff.specs.ZoneView.{plain_zone};
ghost use Rattle.course_rules.specs.inside.Placed.{within_course_at};
ghost use Rattle.course_rules.specs.Due.{due_of};

use crate::civil::civil_time;
use crate::zone::zone_of;
use jiff::civil::DateTime;
use jiff::tz::TimeZone;
use lists::Listed;
use std::alloc::Global;
use thiserror::Error;

/// Why there is no due instant.
#[derive(Clone, Copy, Debug, PartialEq, Eq, Error)]
pub enum DueFault {
    /// The text of the zone isn't of the form, or says nothing that jiff can read.
    #[error("this is no time zone")]
    ZoneRefused,
    /// The text of the date isn't of the form, names no date or time, or names one before 1970 or after 9999-01-01T00:00 at UTC.
    #[error("this is no date and time of a course")]
    DateRefused,
    /// Memory was refused.
    #[error("out of memory")]
    Memory,
}

/// The greatest due instant: 9999-01-01T00:00 at UTC.
const LATEST: i64 = 253_370_764_800;

/// The instant at which the zone's clock shows the time, in seconds since 1970, if a course can have it.
fn due_in(zone: TimeZone<'static>, civil: DateTime) -> Result<u64, DueFault>
    ensures value { result ≡ within_course_at (plain_zone zone.entry) civil }
{
    let zoned = match civil.to_zoned(zone) {
        Ok(zoned) => zoned,
        Err(_) => return Err(DueFault::DateRefused),
    };
    let seconds = zoned.timestamp().as_second();
    if seconds < 0 || seconds > LATEST {
        return Err(DueFault::DateRefused);
    }
    Ok(seconds as u64)
}

/// The instant at which the clock of the zone shows the civil time `YYYY-MM-DDTHH:MM`, in whole seconds since 1970. In a fold,
/// where the clock shows the time twice, it is the earlier instant; in a gap, where it skips the time, it goes by the offset
/// before the gap.
///
/// The zone's text is that of the variable `TZ` in POSIX, but only in its commonest form: `CET-1CEST,M3.5.0,M10.5.0/3`, or a
/// name and an offset alone. It takes no memory today, so it never answers `Memory`.
pub fn due_instant(_alloc: Global, zone: &Listed<u8>, civil: &Listed<u8>) -> Result<u64, DueFault>
    ensures value { result ≡ due_of zone.now civil.now }
{
    let Some(zone) = zone_of(zone.as_slice()) else {
        return Err(DueFault::ZoneRefused);
    };
    match civil_time(civil.as_slice()) {
        Some(civil) => due_in(zone, civil),
        None => Err(DueFault::DateRefused),
    }
}
