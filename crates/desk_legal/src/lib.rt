//! Legal tables: which rows may stand in them, and the first one that may not.
#![tactic(auto)]

mod check;
mod exercises;
mod grades;
mod orders;
mod submissions;
mod users;

pub use check::check_tables;
