//! Worlds as text: a line for each block.
#![tactic(auto)]

mod line;
mod print;
mod reading;
mod squares;

pub use print::print_world;
pub use reading::{WorldFault, read_world};
