//! Rows are copied field by field.

use crate::{
    ExerciseRow, ExtensionRow, Grade, GradeRow, OrderRow, Settings, SubmissionRow, UserRow,
};
use lists::Copied;
use std::alloc::{AllocError, Global};

impl Copied for UserRow {
    fn copied(&self, alloc: Global) -> Result<UserRow, AllocError> {
        Ok(UserRow {
            token: self.token.copied(alloc)?,
            role: self.role,
            name: self.name.copied(alloc)?,
        })
    }
}

impl Copied for Settings {
    fn copied(&self, alloc: Global) -> Result<Settings, AllocError> {
        Ok(Settings {
            points: self.points,
            percent: self.percent,
            due: self.due,
            close_days: self.close_days,
            attempts: self.attempts,
            prompt: self.prompt.copied(alloc)?,
        })
    }
}

impl Copied for ExerciseRow {
    fn copied(&self, alloc: Global) -> Result<ExerciseRow, AllocError> {
        Ok(ExerciseRow {
            name: self.name.copied(alloc)?,
            version: self.version,
            text: self.text.copied(alloc)?,
            settings: self.settings.copied(alloc)?,
        })
    }
}

impl Copied for ExtensionRow {
    fn copied(&self, alloc: Global) -> Result<ExtensionRow, AllocError> {
        Ok(ExtensionRow {
            name: self.name.copied(alloc)?,
            student: self.student,
            due: self.due,
        })
    }
}

impl Copied for SubmissionRow {
    fn copied(&self, alloc: Global) -> Result<SubmissionRow, AllocError> {
        Ok(SubmissionRow {
            student: self.student,
            number: self.number,
            name: self.name.copied(alloc)?,
            version: self.version,
            key: self.key.copied(alloc)?,
            file: self.file.copied(alloc)?,
            moment: self.moment,
            late_days: self.late_days,
        })
    }
}

impl Copied for Grade {
    fn copied(&self, alloc: Global) -> Result<Grade, AllocError> {
        Ok(Grade {
            code: self.code,
            a: self.a,
            b: self.b,
            c: self.c,
            note: self.note.copied(alloc)?,
        })
    }
}

impl Copied for GradeRow {
    fn copied(&self, alloc: Global) -> Result<GradeRow, AllocError> {
        Ok(GradeRow {
            ticket: self.ticket,
            version: self.version,
            grade: self.grade.copied(alloc)?,
        })
    }
}

impl Copied for OrderRow {
    fn copied(&self, alloc: Global) -> Result<OrderRow, AllocError> {
        Ok(OrderRow {
            name: self.name.copied(alloc)?,
            version: self.version,
            upto: self.upto,
        })
    }
}
