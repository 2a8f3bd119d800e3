ghost use Rattle.std.specs.Prelude.{◌≡◌, ℕ, List};
ghost use Rattle.fol_core.specs.declared.sent.Sent.{Sent as Sentence};
ghost use Rattle.boole_table.specs.declared.fault.TableTextFault.{TableTextFault as Fault};
ghost use Rattle.boole_table.specs.declared.table.Question.{Question as Asks};
ghost use Rattle.boole_table.specs.declared.table.TableText.{TableText as Read};
ghost use Rattle.boole_table.specs.declared.table.TableVerdict.{TableVerdict as Judged};
ghost use Rattle.boole_table.specs.Asked.{Asked as About};
ghost use Rattle.boole_table.specs.TableLines.{SpellsTable};
ghost use Rattle.boole_table.specs.TableFaults.{IsFirstTableFault};
ghost use Rattle.boole_table.specs.Verdict.{IsVerdict};

/// The laws of table texts. The call does nothing: its clauses are the laws.
pub fn table_text_laws()
    // A text is one table at most, with its answers.
    ensures table_once { (asked : About) → (text : List ℕ) → (t : Read) → (u : Read) → SpellsTable asked text t → SpellsTable asked text u → t ≡ u }

    // A text has one first fault at most, in one line.
    ensures line_once { (asked : About) → (text : List ℕ) → (n : ℕ) → (m : ℕ) → (f : Fault) → (g : Fault) → IsFirstTableFault asked text n f → IsFirstTableFault asked text m g → n ≡ m }
    ensures fault_once { (asked : About) → (text : List ℕ) → (n : ℕ) → (m : ℕ) → (f : Fault) → (g : Fault) → IsFirstTableFault asked text n f → IsFirstTableFault asked text m g → f ≡ g }

    // A text that is a table has no fault.
    ensures not_both { (asked : About) → (text : List ℕ) → (t : Read) → (n : ℕ) → (f : Fault) → SpellsTable asked text t → IsFirstTableFault asked text n f → ⊥ }

    // A text has one verdict at most.
    ensures verdict_once { (ss : List Sentence) → (qs : List Asks) → (text : List ℕ) → (v : Judged) → (w : Judged) → IsVerdict ss qs text v → IsVerdict ss qs text w → v ≡ w }
{}
