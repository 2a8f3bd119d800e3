use crate::faults::{NoAnswer, said};
use boole_table::table_text_laws;
use fitch_file::{proof_text_laws, task_text_laws};
use nested_proofs::{nesting_laws, soundness_laws, visibility_laws};
use proof_check::verdict_laws;
use std::alloc::Global;

/// Calls the laws, which do nothing.
pub fn laws(alloc: Global) -> Result<String, NoAnswer> {
    soundness_laws();
    visibility_laws();
    nesting_laws();
    proof_text_laws();
    task_text_laws();
    verdict_laws();
    table_text_laws();
    said(alloc, "called")
}
