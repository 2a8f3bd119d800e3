use crate::faults::{NoAnswer, shown, tested};
use crate::page::Page;
use crate::proofs::lines_of;
use crate::tables::listed;
use fol_core::Sents;
use nested_proofs::{Lines, MOST_LINES, cites_ok, fresh_at, line_visible, sub_visible};
use std::alloc::Global;

/// Whether the line may be cited at the other one, where both are numbers of lines.
pub fn line_seen(alloc: Global, page: &Page, line: &str, at: &str) -> Result<String, NoAnswer> {
    let lines = lines_of(alloc, page, &[])?;
    match (line.parse(), at.parse()) {
        (Ok(line), Ok(at)) => sees_line(alloc, &lines, line, at),
        _ => Err(NoAnswer::NoSuchCall),
    }
}

fn sees_line(alloc: Global, lines: &Lines, line: u32, at: u32) -> Result<String, NoAnswer> {
    if line == 0 || at as usize > lines.len() {
        return Err(NoAnswer::NoSuchCall);
    }
    shown(alloc, &line_visible(lines, line, at))
}

/// Whether the subproof between these lines may be cited at the line.
pub fn subproof_seen(
    alloc: Global,
    page: &Page,
    first: &str,
    last: &str,
    at: &str,
) -> Result<String, NoAnswer> {
    let lines = lines_of(alloc, page, &[])?;
    match (first.parse(), last.parse(), at.parse()) {
        (Ok(first), Ok(last), Ok(at)) => sees_subproof(alloc, &lines, first, last, at),
        _ => Err(NoAnswer::NoSuchCall),
    }
}

fn sees_subproof(
    alloc: Global,
    lines: &Lines,
    first: u32,
    last: u32,
    at: u32,
) -> Result<String, NoAnswer> {
    if first == 0 || at as usize > lines.len() {
        return Err(NoAnswer::NoSuchCall);
    }
    shown(alloc, &sub_visible(lines, first, last, at))
}

/// The first fault of the last line's cites.
pub fn cites(alloc: Global, page: &Page, behind: &[String]) -> Result<String, NoAnswer> {
    let lines = lines_of(alloc, page, behind)?;
    last_cites(alloc, &lines)
}

fn last_cites(alloc: Global, lines: &Lines) -> Result<String, NoAnswer> {
    let count = lines.len();
    if count == 0 || count > MOST_LINES {
        return Err(NoAnswer::NoSuchCall);
    }
    tested(alloc, cites_ok(alloc, lines, count as u32))
}

/// Whether the constant that the last line boxes is new there, under these premises.
pub fn fresh(
    alloc: Global,
    page: &Page,
    premises: &str,
    behind: &[String],
) -> Result<String, NoAnswer> {
    let premises = listed(alloc, premises.as_bytes())?;
    let lines = lines_of(alloc, page, behind)?;
    last_is_fresh(alloc, &premises, &lines)
}

fn last_is_fresh(alloc: Global, premises: &Sents, lines: &Lines) -> Result<String, NoAnswer> {
    let count = lines.len();
    if count == 0 || count > MOST_LINES {
        return Err(NoAnswer::NoSuchCall);
    }
    shown(alloc, &fresh_at(premises, lines, count as u32))
}
