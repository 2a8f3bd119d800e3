ghost use Rattle.std.specs.Prelude.{◌≡◌, option_map};
ghost use Rattle.course_rules.specs.RuleForm as form;

use crate::digits::two_digits;
use texts::cut;

/// What stands before the first such byte of the text and what stands behind it; none where the text has no such byte.
pub(crate) fn halves(text: &[u8], at: u8) -> Option<(&[u8], &[u8])>
    ensures value { option_map (λ p. (p.0.now, p.1.now)) result ≡ form.halves at text.now }
{
    cut(text, at)
}

/// Whether the text is one or two digits of hours, up to 24.
fn are_hours(text: &[u8]) -> bool
    ensures value { result ≡ form.are_hours text.now }
{
    match text {
        [ones] => ones.is_ascii_digit(),
        [tens, ones] => matches!(two_digits(*tens, *ones), Some(hours) if hours <= 24),
        _ => false,
    }
}

/// Whether the text is two digits of minutes, up to 59.
fn are_minutes(text: &[u8]) -> bool
    ensures value { result ≡ form.are_minutes text.now }
{
    match text {
        [tens, ones] => matches!(two_digits(*tens, *ones), Some(minutes) if minutes <= 59),
        _ => false,
    }
}

/// Whether the text is a time of day: hours, and optionally `:` and minutes.
pub(crate) fn is_time(text: &[u8]) -> bool
    ensures value { result ≡ form.is_time text.now }
{
    match halves(text, b':') {
        None => are_hours(text),
        Some((hours, minutes)) => are_hours(hours) && are_minutes(minutes),
    }
}

/// Whether the text is a month from 1 to 12, without a leading zero.
fn is_month(text: &[u8]) -> bool
    ensures value { result ≡ form.is_month text.now }
{
    match text {
        [month] => matches!(*month, b'1'..=b'9'),
        [tens, ones] => *tens == b'1' && matches!(*ones, b'0'..=b'2'),
        _ => false,
    }
}

/// Whether the text is a week from 1 to 5, `.` and a weekday from 0 to 6.
fn is_weekday(text: &[u8]) -> bool
    ensures value { result ≡ form.is_weekday text.now }
{
    match text {
        [week, dot, weekday] => {
            matches!(*week, b'1'..=b'5') && *dot == b'.' && matches!(*weekday, b'0'..=b'6')
        }
        _ => false,
    }
}

/// Whether the text is a day of each year: `M`, a month, `.`, a week, `.` and a weekday.
fn is_day(text: &[u8]) -> bool
    ensures value { result ≡ form.is_day text.now }
{
    match text {
        [letter, date @ ..] if *letter == b'M' => match halves(date, b'.') {
            None => false,
            Some((month, weekday)) => is_month(month) && is_weekday(weekday),
        },
        _ => false,
    }
}

/// Whether the text is a rule: a day, and optionally `/` and a time.
pub(crate) fn is_rule(text: &[u8]) -> bool
    ensures value { result ≡ form.is_rule text.now }
{
    match halves(text, b'/') {
        None => is_day(text),
        Some((day, time)) => is_day(day) && is_time(time),
    }
}
