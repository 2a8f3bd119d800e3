ghost use Rattle.std.specs.Prelude.{◌≡◌, ◌≤◌, length, drop, IfOk};
ghost use Rattle.proof_check.specs.Judged.{IsVerdict};
ghost use Rattle.proof_check.specs.declared.verdict.Verdict.{Verdict as Judgement};
ghost use Rattle.tutor_app.specs.Transfer.{input_limit};
ghost use Rattle.tutor_app.specs.Report.{verdict_reply as reply_of};
ghost use Rattle.tutor_app.specs.Check.{check_answers};
ghost use Rattle.tutor_app.specs.CheckLaws.{check_known, check_only};

use crate::report::{task_reply, verdict_reply};
use crate::tool::{Reply, Tool};
use fitch_file::{TaskText, read_task};
use proof_check::check_proof;
use std::alloc::{AllocError, Global};

/// The command `check`: reads a task, and judges the proof that follows it.
pub struct Check;

impl Tool for Check {
    ghost answers = { λ _. check_answers };

    ghost known = { λ _ bytes reply is. check_known bytes reply is };

    ghost only = { λ _ bytes r q is also. check_only bytes r q is also };

    fn answer(&self, alloc: Global, input: &[u8]) -> Result<Reply, AllocError> {
        match read_task(alloc, input) {
            Ok(text) => judge(alloc, &text, input),
            Err((line, fault)) => task_reply(alloc, line, fault),
        }
    }
}

/// The reply to an input that begins with this task text.
fn judge(alloc: Global, text: &TaskText, input: &[u8]) -> Result<Reply, AllocError>
    requires within { length input.now ≤ input_limit }
    requires rest { text.now.rest ≤ length input.now }
    ensures judged { IfOk result (λ reply. (v : Judgement) × IsVerdict text.now.task (drop text.now.rest input.now) v × (reply ≡ reply_of text.now.lines v)) }
{
    let proof = &input[text.rest as usize..];
    let verdict = check_proof(alloc, &text.task, proof)?;
    verdict_reply(alloc, text.lines, &verdict)
}
