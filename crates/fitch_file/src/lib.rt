//! Fitch proofs as text: tasks and proofs are read exactly, with the least faulty line and its first fault, and proofs
//! are printed so that they are read back.
#![tactic(auto)]

mod boxes;
mod cites;
mod claim;
mod consequence;
mod declaration;
mod draft;
mod fault;
mod laws;
mod numbering;
mod print;
mod proof_line;
mod proof_text;
mod rule_names;
mod task;
mod task_text;
mod words;

pub use fault::{TaskFault, TextFault};
pub use laws::{proof_text_laws, task_text_laws};
pub use nested_proofs::Lines;
pub use print::print_proof;
pub use proof_text::read_proof;
pub use task::{Allowed, Task, TaskText};
pub use task_text::read_task;
