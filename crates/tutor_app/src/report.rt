ghost use Rattle.std.specs.Prelude.{◌≡◌, ◌≢◌, IfOk, codes};
ghost use Rattle.fault_words.specs.ProofFaults.{task_fault_text as task_text};
ghost use Rattle.fault_words.specs.SentenceFaults.{list_fault_text as list_text};
ghost use Rattle.fitch_file.specs.declared.fault.TaskFault.TheVariants as task;
ghost use Rattle.sentence_lists.specs.declared.list.ListFault.TheVariants as list;
ghost use Rattle.tutor_app.specs.Report as report;
ghost use Rattle.tutor_app.specs.Table as table;

use crate::tool::Reply;
use edge_io::Bytes;
use fault_words::{
    line_fault_text, list_fault_text, proof_fault_text, task_fault_text, with_number,
};
use fitch_file::TaskFault;
use proof_check::Verdict;
use sentence_lists::ListFault;
use std::alloc::{AllocError, Global};

/// The reply with the verdict on a proof text, before which so many physical lines stand in the input.
pub(crate) fn verdict_reply(
    alloc: Global,
    before: u32,
    verdict: &Verdict,
) -> Result<Reply, AllocError>
    ensures reply { IfOk result (λ reply. reply ≡ report.verdict_reply before verdict.now) }
{
    match verdict {
        Verdict::Correct => Ok(Reply {
            code: 0,
            text: Bytes::from_slice(alloc, b"correct\n")?,
        }),
        Verdict::Wrong(number, fault) => Ok(Reply {
            code: 1,
            text: reported(
                alloc,
                b"wrong line ",
                u64::from(*number),
                &line_fault_text(alloc, fault)?,
            )?,
        }),
        Verdict::Unreadable(number, fault) => {
            let line = u64::from(before) + u64::from(*number);
            unreadable(alloc, line, &proof_fault_text(alloc, *fault)?)
        }
    }
}

/// The reply to an input whose task text has this fault in its physical line `line`.
pub(crate) fn task_reply(alloc: Global, line: u32, fault: TaskFault) -> Result<Reply, AllocError>
    ensures reply { IfOk result (λ reply. (fault ≢ task.Memory) × (reply ≡ report.unreadable_reply line (task_text fault))) }
{
    match fault {
        TaskFault::Memory => Err(AllocError),
        fault => unreadable(alloc, u64::from(line), &task_fault_text(alloc, fault)?),
    }
}

/// The reply to an input whose physical line `line` has this fault as a list of sentences.
pub(crate) fn list_reply(alloc: Global, line: u32, fault: ListFault) -> Result<Reply, AllocError>
    ensures reply { IfOk result (λ reply. (fault ≢ list.Memory) × (reply ≡ report.unreadable_reply line (list_text fault))) }
{
    match fault {
        ListFault::Memory => Err(AllocError),
        fault => unreadable(alloc, u64::from(line), &list_fault_text(alloc, fault)?),
    }
}

/// The reply to an input that lists no sentence.
pub(crate) fn no_sentence_reply(alloc: Global) -> Result<Reply, AllocError>
    ensures reply { IfOk result (λ reply. reply ≡ report.unreadable_reply 1 (codes "NoSentence")) }
{
    unreadable(alloc, 1, &Bytes::from_slice(alloc, b"NoSentence")?)
}

/// The reply to sentences that have so many letters, too many for a table.
pub(crate) fn letters_reply(alloc: Global, count: u32) -> Result<Reply, AllocError>
    ensures reply { IfOk result (λ reply. reply ≡ table.letters_reply count) }
{
    let mut line = with_number(alloc, b"refused TooManyLetters", count)?;
    line.add(b'\n')?;
    Ok(Reply {
        code: 3,
        text: line,
    })
}

pub(crate) fn unreadable(alloc: Global, line: u64, fault: &Bytes) -> Result<Reply, AllocError>
    ensures reply { IfOk result (λ reply. reply ≡ report.unreadable_reply line fault.now) }
{
    let text = reported(alloc, b"unreadable line ", line, fault)?;
    Ok(Reply { code: 3, text })
}

/// A printed line: what is said, the number of a line, and its fault.
fn reported(alloc: Global, said: &[u8], number: u64, fault: &Bytes) -> Result<Bytes, AllocError>
    ensures text { IfOk result (λ text. text ≡ report.report said.now number fault.now) }
{
    let mut text = Bytes::from_slice(alloc, said)?;
    text.extend(format!(in alloc; "{number}: ")?.as_bytes())?;
    text.extend(fault.as_slice())?;
    text.add(b'\n')?;
    Ok(text)
}
