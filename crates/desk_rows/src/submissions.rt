use crate::rows::{bytes, moment, tables_of};
use desk_keeper::Tables;
use desk_machine::{SubmitFault, plan_submit, user_of};
use std::alloc::{AllocError, Global};

/// What the submission of no bytes is answered over the tables with these rows.
pub fn submit(
    alloc: Global,
    token: &str,
    words: [&str; 3],
    rows: &[String],
) -> Result<String, AllocError> {
    let tables = tables_of(alloc, rows)?;
    answered(alloc, &tables, token, words)
}

fn answered(
    alloc: Global,
    tables: &Tables,
    token: &str,
    words: [&str; 3],
) -> Result<String, AllocError> {
    let [name, key, at] = words;
    let known = user_of(tables.users.as_slice(), &bytes(alloc, token)?);
    let name = bytes(alloc, name)?;
    let key = bytes(alloc, key)?;
    let file = bytes(alloc, "")?;
    let planned = plan_submit(alloc, known, tables, &name, &key, &file, moment(at))?;
    let count = planned.rows.len();
    match &planned.answer {
        Ok(kept) => {
            let number = kept.number;
            let days = kept.late_days;
            format!(in alloc; "number {number}, {days} late days, {count} rows")
        }
        Err(fault) => refused(alloc, fault),
    }
}

fn refused(alloc: Global, fault: &SubmitFault) -> Result<String, AllocError> {
    match fault {
        SubmitFault::UnknownToken => "UnknownToken".to_string(alloc),
        SubmitFault::Role => "Role".to_string(alloc),
        SubmitFault::NoExercise => "NoExercise".to_string(alloc),
        SubmitFault::BadKey => "BadKey".to_string(alloc),
        SubmitFault::KeyReused(_, number) => format!(in alloc; "KeyReused {number}"),
        SubmitFault::Closed(instant) => format!(in alloc; "Closed {instant}"),
        SubmitFault::AttemptsUsed(most) => format!(in alloc; "AttemptsUsed {most}"),
        SubmitFault::NumbersUsed(most) => format!(in alloc; "NumbersUsed {most}"),
        SubmitFault::Memory => "Memory".to_string(alloc),
        SubmitFault::KeeperFault => "KeeperFault".to_string(alloc),
    }
}
