ghost use Rattle.std.specs.Prelude.{◌≡◌, ℕ, List};
ghost use Rattle.deriv_laws.specs.declared.line.FlatLine.{FlatLine};
ghost use Rattle.fitch_file.specs.ProofText.{SpellsProof};
ghost use Rattle.fitch_file.specs.ProofFaults.{IsFirstFault};
ghost use Rattle.fitch_file.specs.TaskText.{SpellsTask};
ghost use Rattle.fitch_file.specs.TaskFaults.{IsFirstTaskFault};
ghost use Rattle.fitch_file.specs.declared.fault.TextFault.{TextFault};
ghost use Rattle.fitch_file.specs.declared.fault.TaskFault.{TaskFault};
ghost use Rattle.fitch_file.specs.declared.task.TaskText.{TaskText as Read};

use fol_text::{refused_once, spelled_once};

/// The laws of proof texts. The call does nothing: its clauses are the laws.
pub fn proof_text_laws()
    // A text is one proof at most.
    ensures proof_once { (text : List ℕ) → (ls : List FlatLine) → (ms : List FlatLine) → SpellsProof text ls → SpellsProof text ms → ls ≡ ms }

    // A text has one first fault at most, in one line.
    ensures line_once { (text : List ℕ) → (n : ℕ) → (m : ℕ) → (f : TextFault) → (g : TextFault) → IsFirstFault text n f → IsFirstFault text m g → n ≡ m }
    ensures fault_once { (text : List ℕ) → (n : ℕ) → (m : ℕ) → (f : TextFault) → (g : TextFault) → IsFirstFault text n f → IsFirstFault text m g → f ≡ g }

    // A text that is a proof has no fault.
    ensures not_both { (text : List ℕ) → (ls : List FlatLine) → (n : ℕ) → (f : TextFault) → SpellsProof text ls → IsFirstFault text n f → ⊥ }
{
    spelled_once();
    refused_once();
}

/// The laws of task texts. The call does nothing: its clauses are the laws.
pub fn task_text_laws()
    // A text is one task at most, of so many lines and bytes.
    ensures task_once { (text : List ℕ) → (t : Read) → (u : Read) → SpellsTask text t.task t.lines t.rest → SpellsTask text u.task u.lines u.rest → t ≡ u }

    // A text has one first fault at most, in one line.
    ensures line_once { (text : List ℕ) → (n : ℕ) → (m : ℕ) → (f : TaskFault) → (g : TaskFault) → IsFirstTaskFault text n f → IsFirstTaskFault text m g → n ≡ m }
    ensures fault_once { (text : List ℕ) → (n : ℕ) → (m : ℕ) → (f : TaskFault) → (g : TaskFault) → IsFirstTaskFault text n f → IsFirstTaskFault text m g → f ≡ g }

    // A text that is a task has no fault.
    ensures not_both { (text : List ℕ) → (t : Read) → (n : ℕ) → (f : TaskFault) → SpellsTask text t.task t.lines t.rest → IsFirstTaskFault text n f → ⊥ }
{
    spelled_once();
    refused_once();
}
