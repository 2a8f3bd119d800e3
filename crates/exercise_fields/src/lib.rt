//! The fields of an exercise's text, which is TOML: which there are, and how a value at a key is read.
#![tactic(auto)]

mod document;
mod fault;
mod field;
mod flag_list;
mod kind;
mod text_list;
mod values;

pub use document::{LONGEST_TEXT, read_document};
pub use fault::FieldFault;
pub use field::Field;
pub use flag_list::flags;
pub use kind::{Kind, read_kind};
pub use text_list::{any_texts, texts};
pub use values::{has_room, text, whole};
