use crate::fault::TableTextFault;
use fol_core::Sents;
use lists::Listed;

/// Truth values in their order.
pub type Flags = Listed<bool>;

/// One row of a table.
#[derive(Debug, Drop)]
pub struct TableRow {
    /// The values of the letters, in the order of the table's columns.
    pub letters: Flags,
    /// The values of the sentences, in their order.
    pub sentences: Flags,
}

/// The rows of a table in their order.
pub type TableRows = Listed<TableRow>;

/// A truth table: the reference columns, the sentences, and their values in each row.
#[derive(Debug, Drop)]
pub struct Table {
    pub letters: Sents,
    pub sentences: Sents,
    pub rows: TableRows,
}

/// What a student answers to one question of the exercise.
#[derive(Clone, Copy, Debug, PartialEq, Eq)]
pub struct TableAnswer {
    /// The number of the question, from 1.
    pub question: u32,
    pub yes: bool,
}

/// The answers in the order of their lines.
pub type TableAnswers = Listed<TableAnswer>;

/// A table, and the answers that stand behind it.
#[derive(Debug, Drop)]
pub struct TableText {
    pub table: Table,
    pub answers: TableAnswers,
}

/// What an exercise asks about its sentences, each of which is named by its number, from 1.
#[derive(Clone, Copy, Debug, PartialEq, Eq)]
pub enum Question {
    /// Whether the sentence is true in every row.
    Tautology(u32),
    /// Whether the sentence is true in some row.
    Possible(u32),
    /// Whether the two sentences have the same value in every row.
    Equivalent(u32, u32),
    /// Whether the sentence is true in every row in which all the other sentences are true.
    Consequence(u32),
}

/// The questions of an exercise in their order.
pub type Questions = Listed<Question>;

/// How a student's table is judged. Lines, rows, columns and questions are counted from 1.
#[derive(Clone, Copy, Debug, PartialEq, Eq)]
pub enum TableVerdict {
    Correct,
    /// The least faulty physical line, and its fault, which is never `Memory`.
    Unreadable(u32, TableTextFault),
    /// This row of the text has the same value for each letter as an earlier one, and the rows before it are right.
    RepeatedRow(u32),
    /// In this row of the text the value of the sentence in this column is wrong. The rows before it and the columns
    /// before this one are right.
    WrongCell(u32, u32),
    /// The text has no row for the letters' values in this row of the standard table, which is the least such row. Each
    /// row of the text is right.
    MissingRow(u32),
    /// The answer to this question is wrong or missing. The table and the answers to the questions before it are right.
    WrongAssessment(u32),
}
