//! Hintikka's game about a sentence in a world of blocks: the player commits to a value, and the machine plays against it.
#![tactic(auto)]

mod game;
mod laws;
mod position;
mod replaying;
mod rules;
mod turn;

pub use game::{Game, GameFault};
pub use laws::replay_laws;
pub use position::Position;
pub use replaying::{PlayEnd, Played, replay};
pub use turn::{Move, Moves, Turn};
