//! Fitch proofs are checked: a proof text is correct for a task, or it has a first fault.
#![tactic(auto)]

mod check;
mod consequence;
mod ending;
mod fresh;
mod laws;
mod line;
mod verdict;

pub use check::check_proof;
pub use laws::verdict_laws;
pub use verdict::{LineFault, Verdict};
