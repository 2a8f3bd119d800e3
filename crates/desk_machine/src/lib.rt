//! The desk as a machine: what each command answers and changes, as a function of the tables and the jobs that are held.
#![tactic(auto)]

mod answers;
mod book;
mod commands;
mod copies;
mod enrolling;
mod exercises;
mod extending;
mod faults;
mod grader;
mod grades;
mod jobs;
mod machine;
mod ordering;
mod plans;
mod reading;
mod setting;
mod submitting;
mod users;

pub use answers::{
    Accepted, Answer, Bests, Book, BookRow, BookRows, Entries, Entry, MineGrade, MineRow, MineRows,
    Names, Ordered, Slip, Version,
};
pub use book::{book_of, plan_book};
pub use commands::Command;
pub use enrolling::{has_token, plan_roll};
pub use exercises::{latest, version_count, version_of};
pub use extending::plan_extend;
pub use faults::{
    BookFault, ExtendFault, FinishFault, MineFault, NamesFault, OneFault, RegradeFault, RollFault,
    SetFault, SheetFault, SubmitFault,
};
pub use grader::{DueFault, Grader, Refusal, SettingsFault};
pub use jobs::{Job, holds, offered, submission_of};
pub use machine::plan;
pub use ordering::{is_ordered, plan_regrade};
pub use plans::{Held, Hold, Plan, Planned, Rows};
pub use reading::{plan_mine, plan_names, plan_one, plan_sheet};
pub use setting::plan_set;
pub use submitting::{count_of, kept_under, plan_submit};
pub use users::{Known, has_student, is_student, is_teacher, user_of};
