ghost use Rattle.std.specs.Prelude.{◌≡◌, ◌≤◌, ℕ, List, length, IfOk};
ghost use Rattle.tutor_app.specs.Reply.{IsReplyCode};
ghost use Rattle.tutor_app.specs.Transfer.{input_limit};
ghost use Rattle.tutor_app.specs.declared.tool.Reply.{Reply};

use edge_io::Bytes;
use std::alloc::{AllocError, Global};

/// A status, and the text that goes out with it.
#[derive(Drop)]
pub struct Reply {
    /// The exit status: 0 done, 1 the judgement is against the input, 3 the input has not the form.
    pub code: u8,
    /// Whole lines, each with its LF.
    pub text: Bytes,
}

/// A command that reads its input whole, and replies to it.
pub trait Tool {
    /// The definition of the tool: this is the reply to these bytes.
    ghost answers: { Self → List ℕ → Reply → Type 0 };

    /// The reply to the input. Its only error is want of memory.
    fn answer(&self, alloc: Global, input: &[u8]) -> Result<Reply, AllocError>
        requires within { length input.now ≤ input_limit }
        ensures answers { IfOk result (λ reply. answers self.now input.now reply) };

    ghost known: { (tool : Self) (input : List ℕ) (reply : Reply) → answers tool input reply → IsReplyCode reply.code };

    ghost only: { (tool : Self) (input : List ℕ) (r q : Reply) → answers tool input r → answers tool input q → r ≡ q };
}
