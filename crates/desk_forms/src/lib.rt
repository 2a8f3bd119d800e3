//! What the words of a course look like: tokens, keys and names.
#![tactic(auto)]

mod words;

pub use words::{is_exercise_name, is_identifier, is_key, is_text, is_token, is_user_name};
