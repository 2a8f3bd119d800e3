//! The rules of a course about time: when an exercise is due in the course's zone, how late a submission is, and what its
//! points are still worth.
#![tactic(auto)]

mod civil;
mod digits;
mod due;
mod rule;
mod zone;

pub use course_marks::{close_instant, course_mark, credit, late_days};
pub use due::{DueFault, due_instant};
