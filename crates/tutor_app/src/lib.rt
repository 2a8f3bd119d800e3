//! The program as a library: `check` judges a proof, `table` prints a truth table, `world` evaluates sentences in a world, and
//! `play` plays the game about a sentence. `tutor` runs the command that the words ask for, over edges that its caller gives.
#![tactic(auto)]

mod check;
mod play;
mod report;
mod shelved;
mod table;
mod tool;
mod transfer;
pub mod tutor;
pub mod words;
mod world;
