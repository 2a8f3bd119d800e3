//! The ordered tableau of first-order logic: what it is, that its answer is the only one, and that where it closes the goal
//! has a derivation from the premises.
#![tactic(auto)]

mod laws;
mod literal;

pub use laws::{class_laws, clause_laws, tableau_laws};
pub use literal::{ConAnswer, Literal, Literals};
