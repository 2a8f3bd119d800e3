//! The names under which faults are printed, each with its number or place behind it. Programs and grades say them alike.
#![tactic(auto)]

mod numbered;
mod proofs_said;
mod sentences_said;
mod worlds_said;

pub use numbered::with_number;
pub use proofs_said::{line_fault_text, proof_fault_text, step_fault_text, task_fault_text};
pub use sentences_said::{list_fault_text, refusal_text};
pub use worlds_said::{game_fault_text, play_fault_text, truth_fault_text, world_fault_text};
