ghost use Rattle.std.specs.Prelude.{◌≡◌};
ghost use Rattle.course_marks.specs.Marks.{close_instant, course_mark, credit, late_days};

/// The greatest due moment, in seconds since 1970.
pub const LAST_MOMENT: u64 = 253_370_764_800;

/// The seconds of a day.
const DAY: u64 = 86_400;

/// How many days the moment is past the due one, begun days included. Both are in seconds since 1970.
pub fn late_days(due: u64, moment: u64) -> u64
    ensures value { result ≡ late_days due moment }
{
    if moment <= due {
        return 0;
    }
    let late = moment - due;
    let whole = late / DAY;
    if late % DAY == 0 { whole } else { whole + 1 }
}

/// The last moment at which a submission is accepted, so many days past the due moment, or the greatest
/// number of 64 bits.
pub fn close_instant(due: u64, close_days: u32) -> u64
    ensures value { result ≡ close_instant due close_days }
{
    due.saturating_add(DAY * u64::from(close_days))
}

/// What is left of the points where each late day costs so many hundredths of them, rounded down.
pub fn credit(points: u32, percent: u32, days: u64) -> u32
    ensures value { result ≡ credit points percent days }
{
    let lost = u64::from(percent).saturating_mul(days);
    let left = 100_u64.saturating_sub(lost);
    (u64::from(points) * left / 100) as u32
}

/// The mark in hundredths, at most 100: what was earned of the points that could be, rounded down. Where no points could
/// be earned it is 0.
pub fn course_mark(earned: u64, points: u64) -> u32
    ensures value { result ≡ course_mark earned points }
{
    if points == 0 {
        return 0;
    }
    (100 * u128::from(earned) / u128::from(points)).min(100) as u32
}
