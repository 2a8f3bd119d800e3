//! Texts as lines of bytes: physical lines, the blanks at their ends, cuts at a byte, and decimal numbers.
#![tactic(auto)]

mod blanks;
mod cuts;
mod lines;
mod numbers;

pub use blanks::{after_blank, trim, trim_end, trim_start};
pub use cuts::{after_prefix, cut};
pub use lines::next_line;
pub use numbers::counting_number;
