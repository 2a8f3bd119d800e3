//! Lists of sentences as text, a sentence a line.
#![tactic(auto)]

mod laws;
mod list;

pub use laws::sentence_list_laws;
pub use list::{ListFault, read_sentences};
