ghost use Rattle.std.specs.Prelude.{◌≡◌, IfOk, OnOk, OnErr};
ghost use Rattle.desk_keeper.specs.Rows.{cut, no_rows, sizes_of, with_row, with_rows};

use crate::{Exercises, Extensions, Grades, Orders, Row, Submissions, Users};
use lists::Copied;
use std::alloc::{AllocError, Global};

/// The six tables of a course.
#[derive(Drop)]
pub struct Tables {
    pub users: Users,
    pub exercises: Exercises,
    pub extensions: Extensions,
    pub submissions: Submissions,
    pub grades: Grades,
    pub orders: Orders,
}

/// How many rows each table has.
#[derive(Clone, Copy)]
pub struct Sizes {
    pub users: usize,
    pub exercises: usize,
    pub extensions: usize,
    pub submissions: usize,
    pub grades: usize,
    pub orders: usize,
}

impl Tables {
    /// Tables without rows.
    pub fn new(alloc: Global) -> Tables
        ensures empty { result ≡ no_rows }
    {
        Tables {
            users: Users::new(alloc),
            exercises: Exercises::new(alloc),
            extensions: Extensions::new(alloc),
            submissions: Submissions::new(alloc),
            grades: Grades::new(alloc),
            orders: Orders::new(alloc),
        }
    }

    /// The same rows anew.
    pub fn copied(&self, alloc: Global) -> Result<Tables, AllocError>
        ensures value { IfOk result (λ tables. tables ≡ self.now) }
    {
        Ok(Tables {
            users: self.users.copy_items(alloc)?,
            exercises: self.exercises.copy_items(alloc)?,
            extensions: self.extensions.copy_items(alloc)?,
            submissions: self.submissions.copy_items(alloc)?,
            grades: self.grades.copy_items(alloc)?,
            orders: self.orders.copy_items(alloc)?,
        })
    }

    /// How many rows each table has.
    pub fn sizes(&self) -> Sizes
        ensures value { result ≡ sizes_of self.now }
    {
        Sizes {
            users: self.users.len(),
            exercises: self.exercises.len(),
            extensions: self.extensions.len(),
            submissions: self.submissions.len(),
            grades: self.grades.len(),
            orders: self.orders.len(),
        }
    }

    /// Keeps the first rows of each table, so many of them.
    pub fn cut(&mut self, sizes: Sizes)
        ensures value { self.new ≡ cut sizes self.old }
    {
        self.users.truncate(sizes.users);
        self.exercises.truncate(sizes.exercises);
        self.extensions.truncate(sizes.extensions);
        self.submissions.truncate(sizes.submissions);
        self.grades.truncate(sizes.grades);
        self.orders.truncate(sizes.orders);
    }

    /// Puts copies of the rows last in their tables, all of them or none.
    pub fn put_all(&mut self, alloc: Global, rows: &[Row]) -> Result<(), AllocError>
        ensures ok { OnOk result (self.new ≡ with_rows self.old rows.now) }
        ensures err { OnErr result (self.new ≡ self.old) }
    {
        let sizes = self.sizes();
        for row in rows {
            match self.put(alloc, row) {
                Ok(()) => {}
                Err(refused) => {
                    self.cut(sizes);
                    return Err(refused);
                }
            }
        }
        Ok(())
    }

    /// Puts a copy of the row last in its table, or changes nothing.
    fn put(&mut self, alloc: Global, row: &Row) -> Result<(), AllocError>
        ensures ok { OnOk result (self.new ≡ with_row self.old row.now) }
        ensures err { OnErr result (self.new ≡ self.old) }
    {
        match row {
            Row::User(row) => self.users.add(row.copied(alloc)?),
            Row::Exercise(row) => self.exercises.add(row.copied(alloc)?),
            Row::Extension(row) => self.extensions.add(row.copied(alloc)?),
            Row::Submission(row) => self.submissions.add(row.copied(alloc)?),
            Row::Graded(row) => self.grades.add(row.copied(alloc)?),
            Row::Order(row) => self.orders.add(row.copied(alloc)?),
        }
    }
}
