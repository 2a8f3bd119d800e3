//! Derivation trees of natural deduction, the lines of Fitch proofs, and the laws of derivability.
#![tactic(auto)]

mod check;
mod derivability;
mod discharge;
mod eigen;
mod leaves;
mod line;
mod quantified;
mod rows;
mod rule;
mod tree;

pub use check::check_tree;
pub use derivability::{conjunction_rules, connective_rules, quantifier_rules};
pub use line::{Cite, Cites, FlatLine, StepFault};
pub use rule::Rule;
pub use tree::{Concl, Tree, TreeFault, Trees};
