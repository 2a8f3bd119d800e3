use crate::replies::{NoAnswer, refused, shown};
use cases::bytes_of;
use exercise_fields::{
    Field, FieldFault, any_texts, flags, has_room, read_document, read_kind, text, texts, whole,
};
use lists::Listed;
use std::alloc::{AllocError, Global};
use toml::Table;

/// The table of a document that is one.
fn table(alloc: Global, document: &str) -> Result<Table, NoAnswer> {
    match read_document(alloc, document.as_bytes()) {
        Ok(table) => Ok(table),
        Err(FieldFault::Memory) => Err(NoAnswer::Memory),
        Err(_) => Err(NoAnswer::NoSuchCall),
    }
}

/// How many keys the document has.
pub fn document(alloc: Global, document: &str) -> Result<String, NoAnswer> {
    let bytes = bytes_of(alloc, document)?;
    match read_document(alloc, bytes.as_slice()) {
        Ok(table) => shown(alloc, &table.len()),
        Err(fault) => refused(alloc, fault),
    }
}

pub fn kind(alloc: Global, document: &str) -> Result<String, NoAnswer> {
    let table = table(alloc, document)?;
    match read_kind(&table) {
        Ok(kind) => shown(alloc, &kind),
        Err(fault) => refused(alloc, fault),
    }
}

/// The field of this name, of those that are read by it alone.
fn field_named(name: &str) -> Result<Field, NoAnswer> {
    match name {
        "prompt" => Ok(Field::PROMPT),
        "points" => Ok(Field::POINTS),
        "percent" => Ok(Field::PERCENT),
        "due" => Ok(Field::DUE),
        "close_days" => Ok(Field::CLOSE_DAYS),
        "attempts" => Ok(Field::ATTEMPTS),
        "premises" => Ok(Field::PREMISES),
        "goal" => Ok(Field::GOAL),
        "con" => Ok(Field::CONSEQUENCES),
        "sentences" => Ok(Field::SENTENCES),
        "sentences of a table" => Ok(Field::TABLE_SENTENCES),
        "worlds" => Ok(Field::WORLDS),
        "questions" => Ok(Field::QUESTIONS),
        _ => Err(NoAnswer::NoSuchCall),
    }
}

pub fn number(alloc: Global, name: &str, document: &str) -> Result<String, NoAnswer> {
    let field = field_named(name)?;
    let table = table(alloc, document)?;
    match whole(&table, field) {
        Ok(number) => shown(alloc, &number),
        Err(fault) => refused(alloc, fault),
    }
}

pub fn text_of(alloc: Global, name: &str, document: &str) -> Result<String, NoAnswer> {
    let field = field_named(name)?;
    let table = table(alloc, document)?;
    match text(&table, field) {
        Ok(found) => shown(alloc, &found),
        Err(fault) => refused(alloc, fault),
    }
}

pub fn text_list(alloc: Global, name: &str, document: &str) -> Result<String, NoAnswer> {
    let field = field_named(name)?;
    let table = table(alloc, document)?;
    match texts(alloc, &table, field) {
        Ok(found) => Ok(listed(alloc, found.as_slice())?),
        Err(fault) => refused(alloc, fault),
    }
}

pub fn any_text_list(alloc: Global, name: &str, document: &str) -> Result<String, NoAnswer> {
    let field = field_named(name)?;
    let table = table(alloc, document)?;
    match any_texts(alloc, &table, field) {
        Ok(found) => Ok(listed(alloc, found.as_slice())?),
        Err(fault) => refused(alloc, fault),
    }
}

pub fn room(alloc: Global, name: &str, size: &str) -> Result<String, NoAnswer> {
    let field = field_named(name)?;
    match size.parse::<usize>() {
        Ok(size) => shown(alloc, &has_room(field, size)),
        Err(_) => Err(NoAnswer::NoSuchCall),
    }
}

/// How many texts there are, and the texts.
fn listed(alloc: Global, texts: &[Listed<u8>]) -> Result<String, AllocError> {
    let count = texts.len();
    let mut list = format!(in alloc; "{count}:")?;
    for text in texts {
        list.push_str(" ")?;
        list.push_str(String::from_utf8_lossy(alloc, text.as_slice())?.as_str())?;
    }
    Ok(list)
}

pub fn flag_list(alloc: Global, count: &str, document: &str) -> Result<String, NoAnswer> {
    let table = table(alloc, document)?;
    match count.parse::<usize>() {
        Ok(count) => match flags(alloc, &table, Field::VALUES, count) {
            Ok(found) => shown(alloc, &found.as_slice()),
            Err(fault) => refused(alloc, fault),
        },
        Err(_) => Err(NoAnswer::NoSuchCall),
    }
}
