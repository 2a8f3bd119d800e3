ghost use Rattle.std.specs.Prelude.{◌≡◌, ◌<◌, ◌⊎◌, ℕ, List, length, Ok, Err, IfOk, IfErr, MatchOption};
ghost use Rattle.fol_core.specs.declared.sent.Sent.{Sent as Sentence};
ghost use Rattle.fol_text.specs.Readable.{IsReadable};
ghost use Rattle.fol_text.specs.Refusals.{IsRefused};
ghost use Rattle.fol_text.specs.declared.fault.ReadFault.{ReadFault as Fault};
ghost use Rattle.fitch_file.specs.declared.draft.Draft.{Draft as Declared};
ghost use Rattle.fitch_file.specs.Words.{ends_word as ends_word_of};
ghost use Rattle.fitch_file.specs.Declarations.{IsBehind, AddsPremise, AddsGoal, AddsAllowed, Declares};
ghost use Rattle.fitch_file.specs.TaskFaults.{PremiseFails, GoalFails, AllowedFails, DeclarationFails};
ghost use Rattle.fitch_file.specs.TaskReaders.{declared_fault};

use crate::consequence::read_allowed;
use crate::draft::Draft;
use crate::fault::TaskFault;
use crate::words::is_blank;
use fol_core::Sent;
use fol_text::{ReadFault, read_sentence};
use std::alloc::Global;
use texts::{after_prefix, trim};

/// The most premises that a task may have.
const MOST_PREMISES: usize = 32;

/// What is declared once the line has declared one thing more.
pub(crate) fn declare(alloc: Global, draft: Draft, line: &[u8]) -> Result<Draft, TaskFault>
    requires { length line.now < 4294967296 }
    ensures read { IfOk result (Declares draft line.now) }
    ensures exact { (after : Declared) → Declares draft line.now after → (result ≡ Ok after) ⊎ (result ≡ Err TaskFault.Memory) }
    ensures refused { IfErr result (λ fault. (fault ≡ TaskFault.Memory) ⊎ DeclarationFails draft line.now fault) }
{
    if let Some(text) = text_behind(line, b"premise") {
        return add_premise(alloc, draft, text);
    }
    if let Some(text) = text_behind(line, b"goal") {
        return add_goal(alloc, draft, text);
    }
    match text_behind(line, b"con") {
        Some(text) => add_allowed(draft, text),
        None => Err(TaskFault::Form),
    }
}

/// The text behind the keyword and a blank, without the blanks at its ends. The keyword may also end the line.
fn text_behind<'a>(line: &'a [u8], keyword: &[u8]) -> Option<&'a [u8]>
    ensures { MatchOption result ((text : List ℕ) → IsBehind keyword.now line.now text → ⊥) (λ text. IsBehind keyword.now line.now text.now) }
{
    match after_prefix(line, keyword) {
        Some(tail) => {
            if ends_word(tail) {
                Some(trim(tail))
            } else {
                None
            }
        }
        None => None,
    }
}

/// Whether the text is over or a blank is next.
fn ends_word(text: &[u8]) -> bool
    ensures { result ≡ ends_word_of text.now }
{
    match text {
        [] => true,
        [first, ..] => is_blank(*first),
    }
}

/// Reads the sentence of a premise or a goal.
fn read_declared(alloc: Global, text: &[u8]) -> Result<Sent, TaskFault>
    requires { length text.now < 4294967296 }
    ensures read { IfOk result (IsReadable text.now) }
    ensures exact { (s : Sentence) → IsReadable text.now s → (result ≡ Ok s) ⊎ (result ≡ Err TaskFault.Memory) }
    ensures refused { IfErr result (λ fault. (fault ≡ TaskFault.Memory) ⊎ ((why : Fault) × (fault ≡ TaskFault.Sentence why) × IsRefused text.now why)) }
{
    match read_sentence(alloc, text) {
        Ok(sentence) => Ok(sentence),
        Err(fault) => Err(fault_of(fault)),
    }
}

/// The fault of a line whose sentence is refused. Want of memory is no fault of the sentence.
fn fault_of(fault: ReadFault) -> TaskFault
    ensures { result ≡ declared_fault fault }
{
    match fault {
        ReadFault::Memory => TaskFault::Memory,
        other => TaskFault::Sentence(other),
    }
}

/// Adds the premise that the text is.
fn add_premise(alloc: Global, draft: Draft, text: &[u8]) -> Result<Draft, TaskFault>
    requires { length text.now < 4294967296 }
    ensures read { IfOk result (AddsPremise draft text.now) }
    ensures exact { (after : Declared) → AddsPremise draft text.now after → (result ≡ Ok after) ⊎ (result ≡ Err TaskFault.Memory) }
    ensures refused { IfErr result (λ fault. (fault ≡ TaskFault.Memory) ⊎ PremiseFails draft text.now fault) }
{
    let premise = read_declared(alloc, text)?;
    if draft.premises.len() >= MOST_PREMISES {
        return Err(TaskFault::TooManyPremises);
    }
    let Draft {
        mut premises,
        goal,
        allowed,
    } = draft;
    premises.add(premise)?;
    Ok(Draft {
        premises,
        goal,
        allowed,
    })
}

/// Takes the text as the goal, where there is none yet.
fn add_goal(alloc: Global, draft: Draft, text: &[u8]) -> Result<Draft, TaskFault>
    requires { length text.now < 4294967296 }
    ensures read { IfOk result (AddsGoal draft text.now) }
    ensures exact { (after : Declared) → AddsGoal draft text.now after → (result ≡ Ok after) ⊎ (result ≡ Err TaskFault.Memory) }
    ensures refused { IfErr result (λ fault. (fault ≡ TaskFault.Memory) ⊎ GoalFails draft text.now fault) }
{
    let Draft {
        premises,
        goal,
        allowed,
    } = draft;
    if goal.is_some() {
        return Err(TaskFault::Form);
    }
    let sentence = read_declared(alloc, text)?;
    Ok(Draft {
        premises,
        goal: Some(sentence),
        allowed,
    })
}

/// Takes the text as what is allowed, where no line has said so yet.
fn add_allowed(draft: Draft, text: &[u8]) -> Result<Draft, TaskFault>
    ensures read { IfOk result (AddsAllowed draft text.now) }
    ensures exact { (after : Declared) → AddsAllowed draft text.now after → (result ≡ Ok after) ⊎ (result ≡ Err TaskFault.Memory) }
    ensures refused { IfErr result (λ fault. (fault ≡ TaskFault.Memory) ⊎ AllowedFails draft text.now fault) }
{
    let Draft {
        premises,
        goal,
        allowed,
    } = draft;
    if allowed.is_some() {
        return Err(TaskFault::Form);
    }
    match read_allowed(text) {
        Some(rules) => Ok(Draft {
            premises,
            goal,
            allowed: Some(rules),
        }),
        None => Err(TaskFault::Form),
    }
}
