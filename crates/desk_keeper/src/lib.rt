//! The rows that a course keeps, and where they are kept.
#![tactic(auto)]

mod copies;
mod keeper;
mod mem_keeper;
mod rows;
mod tables;

pub use keeper::{KeepFault, Keeper};
pub use mem_keeper::MemKeeper;
pub use rows::{
    ExerciseRow, Exercises, ExtensionRow, Extensions, Grade, GradeRow, Grades, OrderRow, Orders,
    Role, Row, Settings, SubmissionRow, Submissions, UserRow, Users,
};
pub use tables::{Sizes, Tables};
