use cases::{bytes_of, call_of, stands_for_itself, texts_of};
use course_rules::{DueFault, credit, due_instant, late_days};
use lists::Listed;
use std::alloc::{AllocError, Global};

/// The reply to a line.
pub fn reply(alloc: Global, line: &str) -> Result<String, AllocError> {
    if stands_for_itself(line) {
        return line.to_string(alloc);
    }
    let texts = texts_of(alloc, line)?;
    match (call_of(line), texts.as_slice()) {
        ("due_instant", [zone, civil]) => due(alloc, zone, civil),
        ("late_days", [due, moment]) => days(alloc, due, moment),
        ("credit", [points, percent, days]) => left(alloc, points, percent, days),
        _ => no_such_call(alloc),
    }
}

fn no_such_call(alloc: Global) -> Result<String, AllocError> {
    "no such call".to_string(alloc)
}

/// The due instant of the two texts, or why there is none.
fn due(alloc: Global, zone: &str, civil: &str) -> Result<String, AllocError> {
    let zone = Listed::from_vec(bytes_of(alloc, zone)?);
    let civil = Listed::from_vec(bytes_of(alloc, civil)?);
    match due_instant(alloc, &zone, &civil) {
        Ok(instant) => format!(in alloc; "{instant}"),
        Err(DueFault::Memory) => Err(AllocError),
        Err(fault) => format!(in alloc; "{fault:?}"),
    }
}

fn days(alloc: Global, due: &str, moment: &str) -> Result<String, AllocError> {
    match (due.parse::<u64>(), moment.parse::<u64>()) {
        (Ok(due), Ok(moment)) => {
            let days = late_days(due, moment);
            format!(in alloc; "{days}")
        }
        _ => no_such_call(alloc),
    }
}

fn left(alloc: Global, points: &str, percent: &str, days: &str) -> Result<String, AllocError> {
    match (
        points.parse::<u32>(),
        percent.parse::<u32>(),
        days.parse::<u64>(),
    ) {
        (Ok(points), Ok(percent), Ok(days)) if points <= 1000 && percent <= 100 => {
            let left = credit(points, percent, days);
            format!(in alloc; "{left}")
        }
        _ => no_such_call(alloc),
    }
}
