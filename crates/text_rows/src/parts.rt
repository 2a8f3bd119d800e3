use crate::replies::{NoAnswer, both_quoted, quoted, quoted_if, said, shown};
use cases::bytes_of;
use physical_lines::{Physical, after_header, first_line, is_blank};
use std::alloc::Global;
use texts::{
    after_blank, after_prefix, counting_number, cut, next_line, trim, trim_end, trim_start,
};

/// No text of a case has more bytes.
const LONGEST: usize = 1_000_000;

pub fn next(alloc: Global, text: &str) -> Result<String, NoAnswer> {
    let bytes = bytes_of(alloc, text)?;
    both_quoted(alloc, next_line(bytes.as_slice()))
}

pub fn cut_at(alloc: Global, text: &str, at: &str) -> Result<String, NoAnswer> {
    match at.as_bytes() {
        [byte] => both_quoted(alloc, cut(text.as_bytes(), *byte)),
        _ => Err(NoAnswer::NoSuchCall),
    }
}

pub fn rest(alloc: Global, text: &str, prefix: &str) -> Result<String, NoAnswer> {
    quoted_if(alloc, after_prefix(text.as_bytes(), prefix.as_bytes()))
}

pub fn number(alloc: Global, text: &str) -> Result<String, NoAnswer> {
    let bytes = bytes_of(alloc, text)?;
    match counting_number(bytes.as_slice()) {
        Some(number) => shown(alloc, &number),
        None => said(alloc, "none"),
    }
}

/// What the call of a text alone answers.
pub fn part(alloc: Global, call: &str, text: &str) -> Result<String, NoAnswer> {
    let bytes = bytes_of(alloc, text)?;
    part_of(alloc, call, bytes.as_slice())
}

fn part_of(alloc: Global, call: &str, bytes: &[u8]) -> Result<String, NoAnswer> {
    match call {
        "trim" => quoted(alloc, trim(bytes)),
        "trim_start" => quoted(alloc, trim_start(bytes)),
        "trim_end" => quoted(alloc, trim_end(bytes)),
        "after_blank" => quoted_if(alloc, after_blank(bytes)),
        "is_blank" => shown(alloc, &is_blank(bytes)),
        _ => Err(NoAnswer::NoSuchCall),
    }
}

pub fn first(alloc: Global, text: &str) -> Result<String, NoAnswer> {
    if text.len() > LONGEST {
        return Err(NoAnswer::NoSuchCall);
    }
    match first_line(text.as_bytes()) {
        Some(Physical { place, line, rest }) => {
            let line = quoted(alloc, line)?;
            let rest = quoted(alloc, rest)?;
            Ok(format!(in alloc; "line {place}: {line}, then {rest}")?)
        }
        None => said(alloc, "none"),
    }
}

pub fn header(alloc: Global, text: &str, header: &str) -> Result<String, NoAnswer> {
    if text.len() > LONGEST {
        return Err(NoAnswer::NoSuchCall);
    }
    match after_header(text.as_bytes(), header.as_bytes()) {
        Ok((place, rest)) => {
            let rest = quoted(alloc, rest)?;
            Ok(format!(in alloc; "line {place}, then {rest}")?)
        }
        Err(place) => Ok(format!(in alloc; "missing at line {place}")?),
    }
}
