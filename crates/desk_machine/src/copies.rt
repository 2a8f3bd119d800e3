//! Answers are copied: one stands in the history, the other goes to the caller.

ghost use Rattle.std.specs.Prelude.{◌≡◌, IfOk};

use crate::{
    Accepted, Answer, Bests, Book, BookFault, BookRow, MineFault, MineGrade, MineRow, MineRows,
    Names, NamesFault, OneFault, SheetFault, Slip, SubmitFault,
};
use desk_keeper::ExerciseRow;
use lists::Copied;
use std::alloc::{AllocError, Global};

impl Copied for MineGrade {
    fn copied(&self, alloc: Global) -> Result<MineGrade, AllocError> {
        Ok(MineGrade {
            grade: self.grade.copied(alloc)?,
            credit: self.credit,
        })
    }
}

impl Copied for MineRow {
    fn copied(&self, alloc: Global) -> Result<MineRow, AllocError> {
        let name = self.name.copied(alloc)?;
        let graded = match &self.graded {
            Some(graded) => Some(graded.copied(alloc)?),
            None => None,
        };
        Ok(MineRow {
            number: self.number,
            name,
            version: self.version,
            late_days: self.late_days,
            graded,
        })
    }
}

impl Copied for BookRow {
    fn copied(&self, alloc: Global) -> Result<BookRow, AllocError> {
        Ok(BookRow {
            number: self.number,
            name: self.name.copied(alloc)?,
            best: Bests::from_vec(self.best.as_slice().to_vec(alloc)?),
            mark: self.mark,
        })
    }
}

impl Copied for Book {
    fn copied(&self, alloc: Global) -> Result<Book, AllocError> {
        Ok(Book {
            names: self.names.copy_items(alloc)?,
            students: self.students.copy_items(alloc)?,
        })
    }
}

impl Copied for Slip {
    fn copied(&self, alloc: Global) -> Result<Slip, AllocError> {
        Ok(Slip {
            ticket: self.ticket,
            version: self.version,
            text: self.text.copied(alloc)?,
            file: self.file.copied(alloc)?,
        })
    }
}

impl Copied for Answer {
    fn copied(&self, alloc: Global) -> Result<Answer, AllocError> {
        match self {
            Answer::Roll(result) => Ok(Answer::Roll(*result)),
            Answer::SetExercise(result) => Ok(Answer::SetExercise(*result)),
            Answer::Extend(result) => Ok(Answer::Extend(*result)),
            Answer::Submit(result) => Ok(Answer::Submit(submit_copied(alloc, result)?)),
            Answer::Mine(result) => Ok(Answer::Mine(mine_copied(alloc, result)?)),
            Answer::One(result) => Ok(Answer::One(one_copied(alloc, result)?)),
            Answer::Names(result) => Ok(Answer::Names(names_copied(alloc, result)?)),
            Answer::Sheet(result) => Ok(Answer::Sheet(sheet_copied(alloc, result)?)),
            Answer::Book(result) => Ok(Answer::Book(book_copied(alloc, result)?)),
            Answer::Regrade(result) => Ok(Answer::Regrade(*result)),
            Answer::Take(slip) => Ok(Answer::Take(slip_copied(alloc, slip)?)),
            Answer::Finish(result) => Ok(Answer::Finish(*result)),
            Answer::Release(held) => Ok(Answer::Release(*held)),
            Answer::Keeper => Ok(Answer::Keeper),
        }
    }
}

fn submit_copied(
    alloc: Global,
    told: &Result<Accepted, SubmitFault>,
) -> Result<Result<Accepted, SubmitFault>, AllocError>
    ensures value { IfOk result (λ copy. copy ≡ told.now) }
{
    match told {
        Ok(accepted) => Ok(Ok(*accepted)),
        Err(fault) => Ok(Err(fault.copied(alloc)?)),
    }
}

impl Copied for SubmitFault {
    fn copied(&self, alloc: Global) -> Result<SubmitFault, AllocError> {
        match self {
            SubmitFault::UnknownToken => Ok(SubmitFault::UnknownToken),
            SubmitFault::Role => Ok(SubmitFault::Role),
            SubmitFault::NoExercise => Ok(SubmitFault::NoExercise),
            SubmitFault::BadKey => Ok(SubmitFault::BadKey),
            SubmitFault::KeyReused(name, number) => {
                Ok(SubmitFault::KeyReused(name.copied(alloc)?, *number))
            }
            SubmitFault::Closed(moment) => Ok(SubmitFault::Closed(*moment)),
            SubmitFault::AttemptsUsed(limit) => Ok(SubmitFault::AttemptsUsed(*limit)),
            SubmitFault::NumbersUsed(limit) => Ok(SubmitFault::NumbersUsed(*limit)),
            SubmitFault::Memory => Ok(SubmitFault::Memory),
            SubmitFault::KeeperFault => Ok(SubmitFault::KeeperFault),
        }
    }
}

fn mine_copied(
    alloc: Global,
    told: &Result<MineRows, MineFault>,
) -> Result<Result<MineRows, MineFault>, AllocError>
    ensures value { IfOk result (λ copy. copy ≡ told.now) }
{
    match told {
        Ok(value) => Ok(Ok(value.copy_items(alloc)?)),
        Err(fault) => Ok(Err(*fault)),
    }
}

fn one_copied(
    alloc: Global,
    told: &Result<MineRow, OneFault>,
) -> Result<Result<MineRow, OneFault>, AllocError>
    ensures value { IfOk result (λ copy. copy ≡ told.now) }
{
    match told {
        Ok(value) => Ok(Ok(value.copied(alloc)?)),
        Err(fault) => Ok(Err(*fault)),
    }
}

fn names_copied(
    alloc: Global,
    told: &Result<Names, NamesFault>,
) -> Result<Result<Names, NamesFault>, AllocError>
    ensures value { IfOk result (λ copy. copy ≡ told.now) }
{
    match told {
        Ok(value) => Ok(Ok(value.copy_items(alloc)?)),
        Err(fault) => Ok(Err(*fault)),
    }
}

fn sheet_copied(
    alloc: Global,
    told: &Result<ExerciseRow, SheetFault>,
) -> Result<Result<ExerciseRow, SheetFault>, AllocError>
    ensures value { IfOk result (λ copy. copy ≡ told.now) }
{
    match told {
        Ok(value) => Ok(Ok(value.copied(alloc)?)),
        Err(fault) => Ok(Err(*fault)),
    }
}

fn book_copied(
    alloc: Global,
    told: &Result<Book, BookFault>,
) -> Result<Result<Book, BookFault>, AllocError>
    ensures value { IfOk result (λ copy. copy ≡ told.now) }
{
    match told {
        Ok(value) => Ok(Ok(value.copied(alloc)?)),
        Err(fault) => Ok(Err(*fault)),
    }
}

fn slip_copied(alloc: Global, slip: &Option<Slip>) -> Result<Option<Slip>, AllocError>
    ensures value { IfOk result (λ copy. copy ≡ slip.now) }
{
    match slip {
        Some(slip) => Ok(Some(slip.copied(alloc)?)),
        None => Ok(None),
    }
}
