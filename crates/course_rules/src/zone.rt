ghost use Rattle.std.specs.Prelude.{◌≡◌, ◌≤◌, length, option_map, MatchOption, None};
ghost use Rattle.std.specs.List.{list_all};
ghost use Rattle.jiff.specs.ZoneView.{plain_zone};
ghost use Rattle.course_rules.specs.ZoneForm as form;
ghost use Rattle.course_rules.specs.ZoneForm.{rule_of, IsZoneOf};

use crate::rule::{halves, is_rule, is_time};
use jiff::tz::TimeZone;

/// Whether a name may have so many bytes: three to six.
fn is_name_length(length: usize) -> bool
    ensures value { result ≡ form.is_name_length length }
{
    length >= 3 && length <= 6
}

/// How many letters the text begins with.
fn count_letters(text: &[u8]) -> usize
    ensures value { result ≡ form.count_letters text.now }
    ensures within { result ≤ length text.now }
{
    text.iter()
        .take_while(|byte| byte.is_ascii_alphabetic())
        .count()
}

/// Whether the text may stand between the angle brackets of a name: letters, digits and signs, three to six of them.
fn is_bracketed(text: &[u8]) -> bool
    ensures value { result ≡ form.is_bracketed text.now }
{
    is_name_length(text.len()) && are_bracketed(text)
}

/// Whether each byte is a letter, a digit or a sign.
fn are_bracketed(text: &[u8]) -> bool
    ensures value { result ≡ list_all form.is_of_bracketed text.now }
{
    text.iter().all(|byte| byte.is_ascii_alphanumeric() || *byte == b'+' || *byte == b'-')
}

/// What follows the name that the text begins with; none where it begins with none.
fn after_name(text: &[u8]) -> Option<&[u8]>
    ensures value { option_map (λ rest. rest.now) result ≡ form.after_name text.now }
{
    match text {
        [b'<', more @ ..] => after_bracketed(more),
        _ => after_letters(text),
    }
}

/// What follows the name whose opening bracket stands before the text.
fn after_bracketed(text: &[u8]) -> Option<&[u8]>
    ensures value { option_map (λ rest. rest.now) result ≡ form.after_bracketed text.now }
{
    match halves(text, b'>') {
        Some((name, rest)) if is_bracketed(name) => Some(rest),
        _ => None,
    }
}

/// What follows the letters that the text begins with, where they are a name.
fn after_letters(text: &[u8]) -> Option<&[u8]>
    ensures value { option_map (λ rest. rest.now) result ≡ form.after_letters text.now }
{
    let letters = count_letters(text);
    if is_name_length(letters) {
        Some(&text[letters..])
    } else {
        None
    }
}

/// Whether the byte may stand in an offset.
fn is_of_offset(byte: u8) -> bool
    ensures value { result ≡ form.is_of_offset byte }
{
    matches!(byte, b'0'..=b'9' | b'+' | b'-' | b':')
}

/// How many bytes of an offset the text begins with.
fn count_of_offset(text: &[u8]) -> usize
    ensures value { result ≡ form.count_of_offset text.now }
    ensures within { result ≤ length text.now }
{
    text.iter().take_while(|byte| is_of_offset(**byte)).count()
}

/// Whether the text is an offset: a time, before which a sign may stand.
fn is_offset(text: &[u8]) -> bool
    ensures value { result ≡ form.is_offset text.now }
{
    match text {
        [b'+' | b'-', time @ ..] => is_time(time),
        _ => is_time(text),
    }
}

/// What follows the offset that the text begins with; none where it begins with none.
fn after_offset(text: &[u8]) -> Option<&[u8]>
    ensures value { option_map (λ rest. rest.now) result ≡ form.after_offset text.now }
{
    let length = count_of_offset(text);
    if is_offset(&text[..length]) {
        Some(&text[length..])
    } else {
        None
    }
}

/// What follows the name and the offset that the text begins with; none where it begins with none.
fn after_standard(text: &[u8]) -> Option<&[u8]>
    ensures value { option_map (λ rest. rest.now) result ≡ form.after_standard text.now }
{
    match after_name(text) {
        Some(rest) => after_offset(rest),
        None => None,
    }
}

/// Whether the text says what stands before the rules: a name, an offset, a second name, and optionally a second offset.
fn names_summer(text: &[u8]) -> bool
    ensures value { result ≡ form.names_summer text.now }
{
    let Some(summer) = after_standard(text) else {
        return false;
    };
    match after_name(summer) {
        Some(rest) => rest.is_empty() || is_offset(rest),
        None => false,
    }
}

/// Whether the text is two rules with a comma between them.
fn are_rules(text: &[u8]) -> bool
    ensures value { result ≡ form.are_rules text.now }
{
    match halves(text, b',') {
        Some((start, end)) => is_rule(start) && is_rule(end),
        None => false,
    }
}

/// Whether the text is a name and an offset, with nothing behind them.
fn is_fixed(text: &[u8]) -> bool
    ensures value { result ≡ form.is_fixed text.now }
{
    matches!(after_standard(text), Some(rest) if rest.is_empty())
}

/// Whether each byte is of ASCII.
fn is_ascii(text: &[u8]) -> bool
    ensures value { result ≡ form.is_ascii_text text.now }
{
    text.iter().all(|byte| byte.is_ascii())
}

/// Whether the text has a zone's parts: a name and an offset, or these with a second name and two rules.
fn has_parts(text: &[u8]) -> bool
    ensures value { result ≡ form.has_parts text.now }
{
    match halves(text, b',') {
        Some((names, rules)) => names_summer(names) && are_rules(rules),
        None => is_fixed(text),
    }
}

/// Whether the text is of the form of a zone's text.
fn is_zone(text: &[u8]) -> bool
    ensures value { result ≡ form.is_zone text.now }
{
    is_ascii(text) && has_parts(text)
}

/// The zone that the text says; none where it isn't of the form, or jiff can't read it.
pub(crate) fn zone_of(text: &[u8]) -> Option<TimeZone<'static>>
    ensures value { MatchOption result (rule_of text.now ≡ None) (λ zone. IsZoneOf (rule_of text.now) (plain_zone zone)) }
{
    if !is_zone(text) {
        return None;
    }
    let Ok(zone) = str::from_utf8(text) else {
        return None;
    };
    match TimeZone::posix(zone) {
        Ok(zone) => Some(zone),
        Err(_) => None,
    }
}
