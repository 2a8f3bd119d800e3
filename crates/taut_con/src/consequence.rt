ghost use Rattle.std.specs.Prelude.{◌≡◌, ◌<◌, ◌≤◌, ◌%◌, ◌+◌, true, false, ◌++◌, ◌∷◌, [], IsTrue, IfOk, Ok, length, map, filter};
ghost use Rattle.fol_core.specs.Statements.{statement, AreStatements};
ghost use Rattle.fol_core.specs.Size.{total, nodes};
ghost use Rattle.deriv_laws.specs.Derivable.{Der};
ghost use Rattle.taut_con.specs.declared.answer.TautAnswer.TheVariants.{Yes as says_yes};
ghost use Rattle.taut_con.specs.Rows.{rows};
ghost use Rattle.taut_con.specs.Answer.{taut_answer, answer_by, is_countermodel};
ghost use Rattle.taut_con.specs.Compiled.{refutes_in_row};
ghost use Rattle.taut_con.specs.Words.{AreRows};

use crate::answer::TautAnswer;
use crate::evaluation::{rows_where, rows_where_all};
use crate::formula::{Formula, compile, compile_all};
use crate::letters::letters_of_argument;
use crate::rows::row_count;
use bit_sets::BitSet;
use fol_core::{Sent, Sents};
use std::alloc::{AllocError, Global};

/// The greatest number of letters of which a table is made.
const MOST_LETTERS: usize = 16;

/// Whether the goal is a tautological consequence of the premises. It looks at the rows of the truth table in their order,
/// 64 at a time, and stops where there is one in which all premises are true and the goal is false.
pub fn taut_con(alloc: Global, premises: &Sents, goal: &Sent) -> Result<TautAnswer, AllocError>
    requires small { total (map nodes (premises.now ++ goal.now ∷ [])) < 4294967296 }
    ensures answer { IfOk result (λ a. a ≡ taut_answer premises.now goal.now) }
    ensures derives { AreStatements premises.now → IsTrue (statement goal.now) → result ≡ Ok says_yes → Der premises.now goal.now }
{
    answer(alloc, premises.as_slice(), goal)
}

/// The answer, by the letters and then by the rows.
#[tactic(auto, using(crate::proofs::Bounding::letters_fewer))]
fn answer(alloc: Global, premises: &[Sent], goal: &Sent) -> Result<TautAnswer, AllocError>
    requires small { total (map nodes (premises.now ++ goal.now ∷ [])) < 4294967296 }
    ensures answer { IfOk result (λ a. a ≡ taut_answer premises.now goal.now) }
{
    let letters = letters_of_argument(alloc, premises, goal)?;
    if letters.len() > MOST_LETTERS {
        return Ok(TautAnswer::TooManyLetters(letters.len() as u32));
    }
    answer_over(alloc, premises, goal, letters.as_slice())
}

/// The answer by the rows over these letters.
#[tactic(auto, using(crate::proofs::Compiling::same_rows))]
fn answer_over(
    alloc: Global,
    premises: &[Sent],
    goal: &Sent,
    letters: &[Sent],
) -> Result<TautAnswer, AllocError>
    requires few { length letters.now ≤ 16 }
    ensures answer { IfOk result (λ a. a
        ≡ answer_by (filter (is_countermodel letters.now premises.now goal.now) (rows (length letters.now)))) }
{
    let formulas = compile_all(alloc, premises, letters)?;
    let conclusion = compile(alloc, goal, letters)?;
    Ok(search_rows(formulas.as_slice(), &conclusion, letters.len() as u32))
}

/// The first row in which each of the formulas is true and the conclusion is false.
fn search_rows(formulas: &[Formula], conclusion: &Formula, letters: u32) -> TautAnswer
    requires few { letters ≤ 16 }
    ensures answer { result ≡ answer_by (filter (refutes_in_row formulas.now conclusion.now letters) (rows letters)) }
{
    let rows = row_count(letters);
    for word in 0..(rows + 63) / 64 {
        let before = 64 * word;
        let first = rows_refuted(formulas, conclusion, letters, before + 1).first();
        if is_in_table(first, before, rows) {
            return TautAnswer::No(before + first + 1);
        }
    }
    TautAnswer::Yes
}

/// Whether a row is at the place, from 0, of the 64 behind so many, in a table of so many rows.
fn is_in_table(place: u32, before: u32, rows: u32) -> bool
    requires small { before ≤ 65536 }
    ensures yes { result ≡ true → (place < 64) × (before + place < rows) }
    ensures no { result ≡ false → place < 64 → rows ≤ before + place }
{
    place < 64 && before + place < rows
}

/// The rows in which each of the formulas is true and the conclusion is false, of the 64 from row `base` on.
fn rows_refuted(formulas: &[Formula], conclusion: &Formula, letters: u32, base: u32) -> BitSet
    requires aligned { base % 64 ≡ 1 }
    ensures rows { AreRows (refutes_in_row formulas.now conclusion.now letters) base result.bits }
{
    let denied = rows_where(conclusion, letters, base).complement();
    rows_where_all(formulas, letters, base).intersection(denied)
}
