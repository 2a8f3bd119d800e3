//! Sets of places from 0 to 63, each place a bit of a `u64`.
#![tactic(auto)]

mod bit_set;

pub use bit_set::BitSet;
