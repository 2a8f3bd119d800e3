ghost use Rattle.std.specs.Prelude.{◌≡◌, ◌+◌, ◌<◌, ◌≤◌, length, slice_index, IfSome, pos};
ghost use Rattle.course_rules.specs.CivilText as written;
ghost use Rattle.course_rules.specs.CivilText.{civil_of, real, Shows, IsSmall};

use crate::digits::two_digits;
use jiff::civil::DateTime;

/// Whether the text has 16 bytes with the signs of `YYYY-MM-DDTHH:MM` at their places.
fn is_punctuated(text: &[u8]) -> bool
    ensures value { result ≡ written.is_punctuated text.now }
{
    text.len() == 16 && text[4] == b'-' && text[7] == b'-' && text[10] == b'T' && text[13] == b':'
}

/// The number that the digits at this place and the next one write.
fn number_at(text: &[u8], at: usize) -> Option<u8>
    requires within { at + 1 < length text.now }
    ensures value { result ≡ written.number_at text.now at }
    ensures small { IfSome result (λ n. n < 100) }
{
    two_digits(text[at], text[at + 1])
}

/// A date and a time of day to the minute, as numbers that the calendar and a clock may not have.
#[derive(Clone, Copy)]
pub(crate) struct CivilTime {
    pub(crate) year: u16,
    pub(crate) month: u8,
    pub(crate) day: u8,
    pub(crate) hour: u8,
    pub(crate) minute: u8,
}

/// The numbers at the places of `YYYY-MM-DDTHH:MM`; none where another byte than a digit stands there.
fn numbers(text: &[u8]) -> Option<CivilTime>
    requires whole { length text.now ≡ 16 }
    ensures value { result ≡ written.numbers_of text.now }
    ensures small { IfSome result IsSmall }
{
    let century = number_at(text, 0)?;
    let year = number_at(text, 2)?;
    Some(CivilTime {
        year: u16::from(century) * 100 + u16::from(year),
        month: number_at(text, 5)?,
        day: number_at(text, 8)?,
        hour: number_at(text, 11)?,
        minute: number_at(text, 14)?,
    })
}

/// A number of two digits as jiff takes it.
fn signed(number: u8) -> i8
    requires small { number < 100 }
    ensures value { result ≡ pos number }
{
    number as i8
}

/// A year of four digits as jiff takes it.
fn signed_year(year: u16) -> i16
    requires small { year < 10_000 }
    ensures value { result ≡ pos year }
{
    year as i16
}

/// The date and time as a value of jiff; none where the calendar or a clock doesn't have them.
fn on_calendar(numbers: CivilTime) -> Option<DateTime>
    requires small { IsSmall numbers }
    ensures value { Shows (real numbers) result }
{
    let CivilTime {
        year,
        month,
        day,
        hour,
        minute,
    } = numbers;
    match DateTime::new(
        signed_year(year),
        signed(month),
        signed(day),
        signed(hour),
        signed(minute),
        0,
        0,
    ) {
        Ok(time) => Some(time),
        Err(_) => None,
    }
}

/// The date and time that the text `YYYY-MM-DDTHH:MM` says; none where it isn't of this form, or the calendar or a clock
/// doesn't have them.
pub(crate) fn civil_time(text: &[u8]) -> Option<DateTime>
    ensures value { Shows (civil_of text.now) result }
{
    if !is_punctuated(text) {
        return None;
    }
    match numbers(text) {
        Some(numbers) => on_calendar(numbers),
        None => None,
    }
}
