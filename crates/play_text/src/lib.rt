//! Plays of the game of Hintikka as text: a sentence, the commitment to its truth or falsity, the player's choices, and a
//! world of blocks.
#![tactic(auto)]

mod laws;
mod lines;
mod play;
mod play_text;
mod words;

pub use laws::play_text_laws;
pub use play::{Choices, Play, PlayFault};
pub use play_text::read_play;
