//! The sums of a course: late days, when an exercise closes, credits and marks.
#![tactic(auto)]

mod marks;

pub use marks::{LAST_MOMENT, close_instant, course_mark, credit, late_days};
