ghost use Rattle.std.specs.Prelude.{IfOk, OnOk, OnErr, IsErrOf};
ghost use Rattle.std.specs.Io.KnownBytes.{Appends};
ghost use Rattle.edge_io.specs.Causes.{HasCause, Rose};
ghost use Rattle.tutor_app.specs.Transfer.{ReadsAll, ReadsTooMuch, WritesFront};

use edge_io::{Bytes, Failed, Sink, Source};
use std::alloc::Global;
use thiserror::Error;

/// The most bytes that an input may have.
pub const INPUT_LIMIT: usize = 262_144;

/// The most bytes that are asked for at once.
const ROOM: usize = 65_536;

/// Why an input wasn't read whole.
#[derive(Clone, Copy, Debug, PartialEq, Eq, Error)]
pub enum Unread {
    /// The source failed.
    #[error("the input failed")]
    Failed,
    /// The input has more bytes than the limit.
    #[error("the input is over {} bytes", INPUT_LIMIT)]
    TooLong,
    /// Memory ran out.
    #[error("memory ran out")]
    Memory,
}

/// Reads the input to its end, or one byte past the limit.
pub fn read_whole<S: Source>(alloc: Global, input: &mut S) -> Result<Bytes, Unread>
    ensures all { IfOk result (λ bytes. ReadsAll (S.left input.old) (S.left input.new) bytes) }
    ensures too_long { IsErrOf result Unread.TooLong → ReadsTooMuch (S.left input.old) (S.left input.new) }
    ensures failed { IsErrOf result Unread.Failed → Rose (S.faults input.old) (S.faults input.new) }
    ensures place { S.same_source input.old input.new }
{
    let mut text = Bytes::new(alloc);
    let mut room = [0u8; ROOM];
    while text.len() <= INPUT_LIMIT {
        let most = (INPUT_LIMIT + 1 - text.len()).min(ROOM);
        match input.read(&mut room[..most]) {
            Ok(0) => return Ok(text),
            Ok(count) => {
                if text.extend(&room[..count]).is_err() {
                    return Err(Unread::Memory);
                }
            }
            Err(Failed) => return Err(Unread::Failed),
        }
    }
    Err(Unread::TooLong)
}

/// Writes the whole text, or a front of it where the sink fails.
pub fn write_whole<W: Sink>(output: &mut W, text: &[u8]) -> Result<(), Failed>
    ensures all { OnOk result (Appends (W.taken output.old) (W.taken output.new) text.now) }
    ensures front { OnErr result (WritesFront (W.taken output.old) (W.taken output.new) text.now) }
    ensures cause { HasCause (W.faults output.old) (W.faults output.new) result }
    ensures place { W.same_sink output.old output.new }
{
    let mut at = 0;
    while at < text.len() {
        at += output.write(&text[at..])?;
    }
    Ok(())
}
