//! Truth tables of propositional logic, and the rule of tautological consequence.
#![tactic(auto)]

mod answer;
mod consequence;
mod digest;
mod distinct;
mod evaluation;
mod formula;
mod laws;
mod letters;
mod rows;
mod values;
mod words;

pub use answer::TautAnswer;
pub use consequence::taut_con;
pub use laws::tautology_laws;
pub use letters::letters_of;
pub use rows::letter_in_row;
pub use values::truth_value;
pub use words::word_values;
