ghost use Rattle.std.specs.Prelude.{◌<◌, map, IfOk};
ghost use Rattle.fol_core.specs.Size.{total, nodes};

use crate::faults::{NoAnswer, refused, reprinted, shown};
use crate::page::Page;
use crate::proofs::LONGEST;
use crate::questions::questions_of;
use boole_table::{
    Questions, Table, TableFault, TableText, TableTextFault, check_table, make_table, print_table,
    read_table,
};
use fol_core::Sents;
use lists::Listed;
use sentence_lists::{ListFault, read_sentences};
use std::alloc::{AllocError, Global};
use taut_con::letters_of;

/// The most sentences of which a table is made.
const MOST_SENTENCES: usize = 8;

/// The most letters of an exercise.
const MOST_LETTERS: usize = 12;

/// The most rows of a table that is shown whole.
const MOST_ROWS: usize = 16;

/// The sentences that the text lists, one a line.
pub fn listed(alloc: Global, text: &[u8]) -> Result<Sents, NoAnswer>
    ensures small { IfOk result (λ ss. total (map nodes ss) < 4294967296) }
{
    if text.len() > LONGEST {
        return Err(NoAnswer::NoSuchCall);
    }
    match read_sentences(alloc, text, MOST_SENTENCES) {
        Ok(sentences) => Ok(sentences),
        Err((_, ListFault::Memory)) => Err(NoAnswer::Memory),
        Err((place, fault)) => Err(refused(alloc, place, &fault)),
    }
}

/// The table of the sentences that the text lists.
fn table_of(alloc: Global, text: &[u8]) -> Result<Table, NoAnswer> {
    let sentences = listed(alloc, text)?;
    match make_table(alloc, &sentences) {
        Ok(table) => Ok(table),
        Err(TableFault::Memory) => Err(NoAnswer::Memory),
        Err(fault) => Err(NoAnswer::Refused(format!(in alloc; "{fault:?}")?)),
    }
}

/// The table of the sentences that the page lists; of a large one only its size.
pub fn made(alloc: Global, page: &Page, behind: &[String]) -> Result<String, NoAnswer> {
    let text = page.text(alloc, behind)?;
    let table = table_of(alloc, text.as_slice())?;
    if table.rows.len() > MOST_ROWS {
        return Ok(size(alloc, &table)?);
    }
    let printed = print_table(alloc, &table)?;
    reprinted(alloc, printed.as_slice(), &[])
}

fn size(alloc: Global, table: &Table) -> Result<String, AllocError> {
    let letters = table.letters.len();
    let sentences = table.sentences.len();
    let rows = table.rows.len();
    format!(in alloc; "letters {letters}, sentences {sentences}, rows {rows}")
}

/// The verdict on the table of the sentences that the page lists, as it is printed, without questions.
pub fn made_checked(alloc: Global, page: &Page, behind: &[String]) -> Result<String, NoAnswer> {
    let text = page.text(alloc, behind)?;
    let table = table_of(alloc, text.as_slice())?;
    let printed = print_table(alloc, &table)?;
    let none = Listed::new(alloc);
    judged(alloc, &table.sentences, &none, printed.as_slice())
}

/// The table that the text spells.
fn table_text(alloc: Global, text: &[u8]) -> Result<TableText, NoAnswer> {
    if text.len() > LONGEST {
        return Err(NoAnswer::NoSuchCall);
    }
    match read_table(alloc, text) {
        Ok(found) => Ok(found),
        Err((_, TableTextFault::Memory)) => Err(NoAnswer::Memory),
        Err((place, fault)) => Err(refused(alloc, place, &fault)),
    }
}

/// The size of the page's table, and the answers behind it.
pub fn table_read(alloc: Global, page: &Page, behind: &[String]) -> Result<String, NoAnswer> {
    let text = page.text(alloc, behind)?;
    let found = table_text(alloc, text.as_slice())?;
    Ok(told(alloc, &found)?)
}

fn told(alloc: Global, found: &TableText) -> Result<String, AllocError> {
    let mut words = size(alloc, &found.table)?;
    for answer in found.answers.as_slice() {
        let says = if answer.yes { "yes" } else { "no" };
        let more = format!(in alloc; ", {} {says}", answer.question)?;
        words.push_str(more.as_str())?;
    }
    Ok(words)
}

/// What is printed of the page's table.
pub fn table_printed(alloc: Global, page: &Page, behind: &[String]) -> Result<String, NoAnswer> {
    let text = page.text(alloc, behind)?;
    let found = table_text(alloc, text.as_slice())?;
    let printed = print_table(alloc, &found.table)?;
    reprinted(alloc, printed.as_slice(), text.as_slice())
}

/// The verdict on the page, for the exercise with these sentences and questions.
pub fn table_checked(
    alloc: Global,
    page: &Page,
    sentences: &str,
    questions: &str,
    behind: &[String],
) -> Result<String, NoAnswer> {
    let sentences = listed(alloc, sentences.as_bytes())?;
    let questions = questions_of(alloc, questions)?;
    let text = page.text(alloc, behind)?;
    judged(alloc, &sentences, &questions, text.as_slice())
}

fn judged(
    alloc: Global,
    sentences: &Sents,
    questions: &Questions,
    text: &[u8],
) -> Result<String, NoAnswer> {
    let letters = letters_of(alloc, sentences)?;
    if letters.len() > MOST_LETTERS || text.len() > LONGEST {
        return Err(NoAnswer::NoSuchCall);
    }
    if sentences.len() > LONGEST || questions.len() > LONGEST {
        return Err(NoAnswer::NoSuchCall);
    }
    shown(alloc, &check_table(alloc, sentences, questions, text)?)
}
