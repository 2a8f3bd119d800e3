use desk_keeper::{
    ExerciseRow, ExtensionRow, Grade, GradeRow, OrderRow, Role, Row, Settings, SubmissionRow,
    Tables, UserRow,
};
use edge_io::Bytes;
use lists::Listed;
use std::alloc::{AllocError, Global};

/// The words of a row: its kind, and four more, of which those that aren't there are empty.
#[derive(Clone, Copy)]
struct Words<'a> {
    kind: &'a str,
    first: &'a str,
    second: &'a str,
    third: &'a str,
    fourth: &'a str,
}

fn words_of(text: &str) -> Words<'_> {
    let mut words = text.split_whitespace();
    Words {
        kind: words.next().unwrap_or(""),
        first: words.next().unwrap_or(""),
        second: words.next().unwrap_or(""),
        third: words.next().unwrap_or(""),
        fourth: words.next().unwrap_or(""),
    }
}

pub fn bytes(alloc: Global, text: &str) -> Result<Bytes, AllocError> {
    Bytes::from_slice(alloc, text.as_bytes())
}

pub fn number(text: &str) -> u32 {
    text.parse().unwrap_or(0)
}

pub fn moment(text: &str) -> u64 {
    text.parse().unwrap_or(0)
}

fn user(alloc: Global, words: &Words<'_>) -> Result<Row, AllocError> {
    let role = if words.second == "teacher" {
        Role::Teacher
    } else {
        Role::Student
    };
    let token = bytes(alloc, words.first)?;
    let name = bytes(alloc, words.third)?;
    Ok(Row::User(UserRow { token, role, name }))
}

/// A version of an exercise: due at 1000, open for a day more, with two attempts.
fn exercise(alloc: Global, words: &Words<'_>) -> Result<Row, AllocError> {
    let settings = Settings {
        points: number(words.third),
        percent: 10,
        due: 1_000,
        close_days: 1,
        attempts: 2,
        prompt: Bytes::new(alloc),
    };
    let name = bytes(alloc, words.first)?;
    Ok(Row::Exercise(ExerciseRow {
        name,
        version: number(words.second),
        text: Bytes::new(alloc),
        settings,
    }))
}

fn extension(alloc: Global, words: &Words<'_>) -> Result<Row, AllocError> {
    Ok(Row::Extension(ExtensionRow {
        name: bytes(alloc, words.first)?,
        student: number(words.second),
        due: moment(words.third),
    }))
}

/// A submission of no bytes to version 1, in time.
fn submission(alloc: Global, words: &Words<'_>) -> Result<Row, AllocError> {
    let name = bytes(alloc, words.third)?;
    let key = bytes(alloc, words.fourth)?;
    Ok(Row::Submission(SubmissionRow {
        student: number(words.first),
        number: number(words.second),
        name,
        version: 1,
        key,
        file: Bytes::new(alloc),
        moment: 5,
        late_days: 0,
    }))
}

fn graded(alloc: Global, words: &Words<'_>) -> Result<Row, AllocError> {
    let grade = Grade {
        code: words.third.parse().unwrap_or(1),
        a: 0,
        b: 0,
        c: 0,
        note: bytes(alloc, words.fourth)?,
    };
    Ok(Row::Graded(GradeRow {
        ticket: moment(words.first),
        version: number(words.second),
        grade,
    }))
}

fn order(alloc: Global, words: &Words<'_>) -> Result<Row, AllocError> {
    Ok(Row::Order(OrderRow {
        name: bytes(alloc, words.first)?,
        version: number(words.second),
        upto: moment(words.third),
    }))
}

/// The row that the text says.
pub fn row_of(alloc: Global, text: &str) -> Result<Row, AllocError> {
    let words = words_of(text);
    match words.kind {
        "user" => user(alloc, &words),
        "exercise" => exercise(alloc, &words),
        "extension" => extension(alloc, &words),
        "submission" => submission(alloc, &words),
        "grade" => graded(alloc, &words),
        _ => order(alloc, &words),
    }
}

/// The tables with these rows.
pub fn tables_of(alloc: Global, texts: &[String]) -> Result<Tables, AllocError> {
    let mut rows: Listed<Row> = Listed::new(alloc);
    for text in texts {
        rows.add(row_of(alloc, text)?)?;
    }
    let mut tables = Tables::new(alloc);
    tables.put_all(alloc, rows.as_slice())?;
    Ok(tables)
}
