//! The text of sentences: their tokens, their grammar, a reader that is exact by it, and a printer that it reads back.
#![tactic(auto)]

mod atomic;
mod fault;
mod fronts;
mod joining;
mod lexer;
mod machine;
mod marks;
mod print;
mod read;
mod stack;
mod state;
mod straight;
mod terms;
mod token;
mod word;

pub use fault::ReadFault;
pub use print::print_sentence;
pub use read::{read_sentence, readable_sentences, refused_once, spelled_once};
