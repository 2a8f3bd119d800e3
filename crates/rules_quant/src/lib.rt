//! The rules of identity and of the quantifiers in Fitch proofs: whether a line follows by its rule from what it cites,
//! and whether the constant that a cited subproof boxes stays arbitrary.
#![tactic(auto)]

mod arbitrary;
mod check;
mod equations;
mod names;
mod rows;
mod rules;
mod shown;

pub use check::check_quant;
pub use rules::is_quantified;
