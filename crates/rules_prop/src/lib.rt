//! The propositional rules of Fitch proofs: whether a line follows by its rule from what it cites.
#![tactic(auto)]

mod cases;
mod check;
mod cited;
mod from_lines;
mod rules;
mod subproofs;

pub use check::check_prop;
pub use rules::is_propositional;
