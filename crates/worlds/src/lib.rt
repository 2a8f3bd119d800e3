//! Worlds of blocks on a board, what the predicates of the blocks language say of blocks, and what truth in a world is.
#![tactic(auto)]

mod block;
mod board;
mod laws;
mod predicate;
mod relations;
mod scales;

pub use block::{Block, Names, Shape, Size};
pub use board::{World, block_count};
pub use laws::assignment_laws;
pub use predicate::{Predicate, is_between, predicate_of};
pub use scales::{Measure, set_at};
