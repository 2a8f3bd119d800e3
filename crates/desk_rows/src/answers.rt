use crate::rows::{moment, number, row_of, tables_of};
use crate::submissions::submit;
use cases::{call_of, stands_for_itself, texts_of};
use course_marks::{close_instant, course_mark};
use desk_forms::{is_exercise_name, is_identifier, is_key, is_text, is_token, is_user_name};
use desk_keeper::{KeepFault, Keeper, MemKeeper};
use desk_legal::check_tables;
use std::alloc::{AllocError, Global};

/// The reply to a line.
pub fn reply(alloc: Global, line: &str) -> Result<String, AllocError> {
    if stands_for_itself(line) {
        return line.to_string(alloc);
    }
    let texts = texts_of(alloc, line)?;
    answer(alloc, call_of(line), texts.as_slice())
}

fn answer(alloc: Global, call: &str, texts: &[String]) -> Result<String, AllocError> {
    match (call, texts) {
        ("check_tables", rows) => checked(alloc, rows),
        ("keep", [failing, rows @ ..]) => kept(alloc, number(failing), rows),
        ("submit", [token, name, key, at, rows @ ..]) => {
            submit(alloc, token, [name, key, at], rows)
        }
        ("close_instant", [due, days]) => {
            let closes = close_instant(moment(due), number(days));
            format!(in alloc; "{closes}")
        }
        ("course_mark", [earned, points]) => {
            let mark = course_mark(moment(earned), moment(points));
            format!(in alloc; "{mark}")
        }
        (form, [text]) => has_form(alloc, form, text.as_bytes()),
        _ => "no such call".to_string(alloc),
    }
}

fn has_form(alloc: Global, form: &str, bytes: &[u8]) -> Result<String, AllocError> {
    let has = match form {
        "is_token" => is_token(bytes),
        "is_key" => is_key(bytes),
        "is_exercise_name" => is_exercise_name(bytes),
        "is_user_name" => is_user_name(bytes),
        "is_identifier" => is_identifier(bytes),
        "is_text" => is_text(bytes),
        _ => return "no such call".to_string(alloc),
    };
    format!(in alloc; "{has}")
}

/// The first row that breaks a rule.
fn checked(alloc: Global, texts: &[String]) -> Result<String, AllocError> {
    let tables = tables_of(alloc, texts)?;
    match check_tables(alloc, &tables)? {
        Some((table, row)) => format!(in alloc; "table {table}, row {row}"),
        None => "legal".to_string(alloc),
    }
}

/// How many rows a keeper keeps that fails at this call, where each row is a batch, and how often it failed.
fn kept(alloc: Global, failing: u32, texts: &[String]) -> Result<String, AllocError> {
    let mut keeper = MemKeeper::new(alloc, &[failing])?;
    for text in texts {
        let row = row_of(alloc, text)?;
        match keeper.append(&[row]) {
            Ok(()) | Err(KeepFault::Failed) => {}
            Err(KeepFault::Memory) => return Err(AllocError),
        }
    }
    loaded(alloc, &mut keeper)
}

fn loaded(alloc: Global, keeper: &mut MemKeeper) -> Result<String, AllocError> {
    match keeper.load(alloc) {
        Ok(tables) => {
            let sizes = tables.sizes();
            let users = sizes.users;
            let exercises = sizes.exercises;
            let faults = keeper.faults();
            format!(in alloc; "{users} users, {exercises} exercises, {faults} faults")
        }
        Err(KeepFault::Failed) => {
            let faults = keeper.faults();
            format!(in alloc; "failed, {faults} faults")
        }
        Err(KeepFault::Memory) => Err(AllocError),
    }
}
