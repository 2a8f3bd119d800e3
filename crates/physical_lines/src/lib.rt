//! The physical lines of a text: blank ones are skipped but counted, and the first other one may be a header.
#![tactic(auto)]

mod physical;

pub use physical::{Physical, after_header, first_line, is_blank};
