use crate::{
    BookFault, Command, ExtendFault, FinishFault, MineFault, NamesFault, OneFault, RegradeFault,
    RollFault, SetFault, SheetFault, SubmitFault,
};
use desk_keeper::{ExerciseRow, Grade};
use edge_io::Bytes;
use lists::Listed;

/// The version that an exercise has now.
#[derive(Clone, Copy)]
pub struct Version {
    pub number: u32,
    /// Whether this call made it.
    pub fresh: bool,
}

/// A submission that is kept.
#[derive(Clone, Copy)]
pub struct Accepted {
    /// Counted from 1 for each student.
    pub number: u32,
    pub late_days: u64,
}

/// An order to grade submissions by the latest version of their exercise.
#[derive(Clone, Copy)]
pub struct Ordered {
    /// How many submissions weren't graded by this version, nor ordered to be.
    pub ordered: u32,
    pub version: u32,
}

/// A submission as its student sees it.
#[derive(Drop)]
pub struct MineRow {
    pub number: u32,
    /// The exercise's name.
    pub name: Bytes,
    /// The version by which it was graded; its own where it wasn't.
    pub version: u32,
    pub late_days: u64,
    pub graded: Option<MineGrade>,
}

/// A grade, and what it earns.
#[derive(Drop)]
pub struct MineGrade {
    pub grade: Grade,
    pub credit: u32,
}

/// The best credits and the marks of a course.
#[derive(Drop)]
pub struct Book {
    /// The exercises' names, in the order in which they were first set.
    pub names: Names,
    pub students: BookRows,
}

/// A student's line in the book.
#[derive(Drop)]
pub struct BookRow {
    pub number: u32,
    pub name: Bytes,
    /// The best credit for each of the names, where a submission was graded.
    pub best: Bests,
    /// In hundredths.
    pub mark: u32,
}

/// What a worker needs to grade a submission.
#[derive(Drop)]
pub struct Slip {
    pub ticket: u64,
    pub version: u32,
    /// The exercise's text in that version.
    pub text: Bytes,
    pub file: Bytes,
}

/// What the desk answers, by the command. No answer has want of memory or a keeper's fault inside.
#[derive(Drop)]
pub enum Answer {
    Roll(Result<u32, RollFault>),
    SetExercise(Result<Version, SetFault>),
    Extend(Result<u64, ExtendFault>),
    Submit(Result<Accepted, SubmitFault>),
    Mine(Result<MineRows, MineFault>),
    One(Result<MineRow, OneFault>),
    Names(Result<Names, NamesFault>),
    Sheet(Result<ExerciseRow, SheetFault>),
    Book(Result<Book, BookFault>),
    Regrade(Result<Ordered, RegradeFault>),
    Take(Option<Slip>),
    Finish(Result<(), FinishFault>),
    Release(bool),
    /// The keeper failed, and nothing was changed.
    Keeper,
}

/// A command and its answer.
#[derive(Drop)]
pub struct Entry {
    /// The number of the pass on which it was given.
    pub pass: u64,
    pub command: Command,
    pub answer: Answer,
}

pub type MineRows = Listed<MineRow>;

pub type Names = Listed<Bytes>;

pub type BookRows = Listed<BookRow>;

pub type Bests = Listed<Option<u32>>;

pub type Entries = Listed<Entry>;
