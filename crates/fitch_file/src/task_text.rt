ghost use Rattle.std.specs.Prelude.{◌≡◌, ◌≤◌, ◌<◌, ◌+◌, ◌⊎◌, ℕ, length, None, Ok, Err, IfOk, IfErr, IsErrAnd, IsTrue, ◌↔◌};
ghost use Rattle.fitch_file.specs.declared.draft.Draft.{Draft as Declared};
ghost use Rattle.fitch_file.specs.declared.task.Task.{Task as Given};
ghost use Rattle.fitch_file.specs.declared.task.TaskText.{TaskText as Answer};
ghost use Rattle.physical_lines.specs.Physical.{IsBlankLine, IsHeader};
ghost use Rattle.fitch_file.specs.Headers.{task_header};
ghost use Rattle.fitch_file.specs.Declarations.{Declares};
ghost use Rattle.fitch_file.specs.TaskText.{IsFinished, SpellsTask};
ghost use Rattle.fitch_file.specs.TaskFaults.{DeclarationFails, IsFirstTaskFault};
ghost use Rattle.physical_lines.specs.Leading.{LeadsTo};
ghost use Rattle.fitch_file.specs.TaskReaders.{Advances};

use crate::declaration::declare;
use crate::draft::Draft;
use crate::fault::TaskFault;
use crate::task::TaskText;
use crate::words::begins_proof;
use physical_lines::{Physical, first_line, is_blank};
use std::alloc::Global;
use texts::{next_line, trim_end};

/// What was declared so far.
#[derive(Drop)]
pub struct Progress {
    pub draft: Draft,
    /// The number of the last physical line that was read.
    pub place: u32,
    /// The number of the last one that isn't blank.
    pub written: u32,
}

/// Reads a task text: the header `task 1`, and then lines that declare premises, the goal, and the consequence rules that
/// are allowed, with blank lines anywhere. It ends before the first line whose first word is `proof`, or with the text. A
/// refusal has the number of the least faulty physical line, counted from 1, and its fault. `Memory` says only that memory
/// was refused.
///
/// # Requirements
///
/// The text has fewer than 2^32 bytes, so that the number of a line is a `u32`.
pub fn read_task(alloc: Global, text: &[u8]) -> Result<TaskText, (u32, TaskFault)>
    requires { length text.now < 4294967296 }

    // What is read is what the text spells.
    ensures read { IfOk result (λ t. SpellsTask text.now t.task t.lines t.rest) }

    // What the text spells is read, unless memory is refused.
    ensures exact { (t : Answer) → SpellsTask text.now t.task t.lines t.rest → (result ≡ Ok t) ⊎ IsErrAnd result (λ e. e.1 ≡ TaskFault.Memory) }

    // Else the line is the least faulty one, and the fault its own.
    ensures refused { IfErr result (λ e. (e.1 ≡ TaskFault.Memory) ⊎ IsFirstTaskFault text.now e.0 e.1) }
{
    match first_line(text) {
        Some(first) => {
            if is_header(first.line) {
                read_declarations(alloc, text, first)
            } else {
                Err((first.place, TaskFault::Header))
            }
        }
        None => Err((1, TaskFault::Header)),
    }
}

fn is_header(line: &[u8]) -> bool
    ensures { IsTrue result ↔ IsHeader task_header line.now }
{
    trim_end(line) == b"task 1".as_slice()
}

/// Reads the lines behind the header.
fn read_declarations(
    alloc: Global,
    text: &[u8],
    header: Physical<'_>,
) -> Result<TaskText, (u32, TaskFault)>
    requires short { length text.now < 4294967296 }
    requires leads { LeadsTo 1 text.now header.place header.line.now header.rest.now }
    requires is { IsHeader task_header header.line.now }
    ensures read { IfOk result (λ t. SpellsTask text.now t.task t.lines t.rest) }
    ensures exact { (t : Answer) → SpellsTask text.now t.task t.lines t.rest → (result ≡ Ok t) ⊎ IsErrAnd result (λ e. e.1 ≡ TaskFault.Memory) }
    ensures refused { IfErr result (λ e. (e.1 ≡ TaskFault.Memory) ⊎ IsFirstTaskFault text.now e.0 e.1) }
{
    let mut progress = Progress {
        draft: Draft::new(alloc),
        place: header.place,
        written: header.place,
    };
    let mut rest = header.rest;
    while let Some((line, after)) = next_line(rest) {
        let place = progress.place;
        if begins_proof(line) {
            return finish(progress, place, (text.len() - rest.len()) as u32);
        }
        match advance(alloc, progress, line) {
            Ok(next) => progress = next,
            Err(fault) => return Err((place + 1, fault)),
        }
        rest = after;
    }
    let written = progress.written;
    finish(progress, written, text.len() as u32)
}

/// What was declared once the next line is read, which begins no proof.
fn advance(alloc: Global, progress: Progress, line: &[u8]) -> Result<Progress, TaskFault>
    requires short { length line.now < 4294967296 }
    requires room { progress.place + 1 < 4294967296 }
    ensures read { IfOk result (Advances progress line.now) }
    ensures only { IfOk result (λ next. (after : Declared) → Declares progress.draft line.now after → after ≡ next.draft) }
    ensures refused { IfErr result (λ fault. (fault ≡ TaskFault.Memory) ⊎ (IsBlankLine line.now → ⊥) × DeclarationFails progress.draft line.now fault) }
    ensures none { IfErr result (λ fault. (after : Declared) → Declares progress.draft line.now after → fault ≡ TaskFault.Memory) }
{
    let Progress {
        draft,
        place,
        written,
    } = progress;
    let place = place + 1;
    if is_blank(line) {
        return Ok(Progress {
            draft,
            place,
            written,
        });
    }
    match declare(alloc, draft, line) {
        Ok(draft) => Ok(Progress {
            draft,
            place,
            written: place,
        }),
        Err(fault) => Err(fault),
    }
}

/// The task that was declared, with so many lines and bytes; or its goal is missing.
fn finish(progress: Progress, lines: u32, rest: u32) -> Result<TaskText, (u32, TaskFault)>
    requires { progress.written + 1 < 4294967296 }
    ensures found { IfOk result (λ t. IsFinished progress.draft t.task) }
    ensures lines { IfOk result (λ t. t.lines ≡ lines) }
    ensures rest { IfOk result (λ t. t.rest ≡ rest) }
    ensures place { IfErr result (λ e. e.0 ≡ progress.written + 1) }
    ensures no_goal { IfErr result (λ e. (e.1 ≡ TaskFault.NoGoal) × (progress.draft.goal ≡ None)) }
{
    let Progress { draft, written, .. } = progress;
    match draft.task() {
        Some(task) => Ok(TaskText { task, lines, rest }),
        None => Err((written + 1, TaskFault::NoGoal)),
    }
}
