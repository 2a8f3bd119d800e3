//! The truth of sentences of the blocks language in worlds: below quantifiers for many assignments at once, in tables.
#![tactic(auto)]

mod answer;
mod atomic;
mod betweenness;
mod bound;
mod columns;
mod digits;
mod extension;
mod extent;
mod first_row;
mod junction;
mod pairs;
mod relation;
mod table;
mod tabulation;
mod units;
mod valuation;

pub use answer::{Place, Places, TruthFault, truth, truth_at};
pub use units::work;
