use crate::faults::NoAnswer;
use crate::laws::laws;
use crate::lines::{cites, fresh, line_seen, subproof_seen};
use crate::page::Page;
use crate::proofs::{checked, printed, read};
use crate::rules::{propositional, quantified};
use crate::tables::{made, made_checked, table_checked, table_printed, table_read};
use crate::tasks::task;
use cases::{call_of, quoted_line, stands_for_itself, texts_of};
use std::alloc::{AllocError, Global};

/// The reply to a line. One that is empty, begins with `#` or is a line of a long text is its own reply.
pub fn reply(alloc: Global, page: &mut Page, line: &str) -> Result<String, AllocError> {
    if line.is_empty() {
        page.clear();
    }
    if stands_for_itself(line) {
        return line.to_string(alloc);
    }
    if let Some(quoted) = quoted_line(line) {
        page.add(quoted)?;
        return line.to_string(alloc);
    }
    reply_to_case(alloc, page, line)
}

fn reply_to_case(alloc: Global, page: &mut Page, case: &str) -> Result<String, AllocError> {
    let texts = texts_of(alloc, case)?;
    if let ("numbered", [first, last, behind]) = (call_of(case), texts.as_slice()) {
        return number(alloc, page, first, last, behind);
    }
    page.close();
    match answer(alloc, page, call_of(case), texts.as_slice()) {
        Ok(answer) => Ok(answer),
        Err(NoAnswer::Refused(words)) => Ok(words),
        Err(NoAnswer::NoSuchCall) => "no such call".to_string(alloc),
        Err(NoAnswer::Memory) => Err(AllocError),
    }
}

/// Puts numbered lines of a long text behind those that stand there.
fn number(
    alloc: Global,
    page: &mut Page,
    first: &str,
    last: &str,
    behind: &str,
) -> Result<String, AllocError> {
    match (first.parse(), last.parse()) {
        (Ok(first), Ok(last)) => {
            page.add_numbered(alloc, first, last, behind)?;
            "numbered".to_string(alloc)
        }
        _ => "no such call".to_string(alloc),
    }
}

/// What the call answers on the texts, in words.
fn answer(alloc: Global, page: &Page, call: &str, texts: &[String]) -> Result<String, NoAnswer> {
    match call {
        "read_task" => task(alloc, page, texts),
        "read_proof" => read(alloc, page, texts),
        "print_proof" => printed(alloc, page, texts),
        "check_proof" => checked(alloc, page, texts),
        "laws" => laws(alloc),
        _ => answer_on_lines(alloc, page, call, texts),
    }
}

/// What the call answers on lines of a proof.
fn answer_on_lines(
    alloc: Global,
    page: &Page,
    call: &str,
    texts: &[String],
) -> Result<String, NoAnswer> {
    match (call, texts) {
        ("line_visible", [line, at]) => line_seen(alloc, page, line, at),
        ("sub_visible", [first, last, at]) => subproof_seen(alloc, page, first, last, at),
        ("cites_ok", _) => cites(alloc, page, texts),
        ("fresh_at", [premises, behind @ ..]) => fresh(alloc, page, premises, behind),
        ("check_prop", _) => propositional(alloc, page, texts),
        ("check_quant", _) => quantified(alloc, page, texts),
        _ => answer_on_tables(alloc, page, call, texts),
    }
}

/// What the call answers on tables.
fn answer_on_tables(
    alloc: Global,
    page: &Page,
    call: &str,
    texts: &[String],
) -> Result<String, NoAnswer> {
    match (call, texts) {
        ("make_table", _) => made(alloc, page, texts),
        ("check_made_table", _) => made_checked(alloc, page, texts),
        ("read_table", _) => table_read(alloc, page, texts),
        ("print_table", _) => table_printed(alloc, page, texts),
        ("check_table", [sentences, questions, behind @ ..]) => {
            table_checked(alloc, page, sentences, questions, behind)
        }
        _ => Err(NoAnswer::NoSuchCall),
    }
}
