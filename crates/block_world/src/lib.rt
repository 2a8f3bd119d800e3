//! Worlds of blocks on a board: their text, and the truth of sentences of the blocks language in them.
#![tactic(auto)]

pub use world_text::{WorldFault, print_world, read_world};
pub use world_truth::{Place, Places, TruthFault, truth, truth_at, work};
pub use worlds::{Block, Names, Predicate, Shape, Size, World, assignment_laws, block_count};
