//! Cases as data: a line names a public call and gives its texts, and the program that answers it prints one line.
#![tactic(auto)]

mod escapes;
mod texts;

pub use escapes::bytes_of;
pub use texts::{call_of, quoted_line, stands_for_itself, texts_of};
