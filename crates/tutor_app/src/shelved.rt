ghost use Rattle.std.specs.Prelude.{◌≡◌, ◌⊎◌, IfOk};
ghost use Rattle.edge_io.specs.Causes.{Rose};
ghost use Rattle.tutor_app.specs.ShelvedRun.{ShelvedRuns, Says, said_of};
ghost use Rattle.tutor_app.specs.World.{text_answers, IsWorldText};

use crate::tool::Reply;
use crate::tutor::{run_tool, say};
use crate::world::Evaluate;
use block_world::{WorldFault, read_world};
use edge_io::{Bytes, Shelf, ShelfFault, Sink, Source};
use std::alloc::{AllocError, Global};

/// Runs the command `world` over the shelf's text of this name. Answers the exit status.
pub(crate) fn run_world<S: Source, W: Sink, F: Shelf>(
    alloc: Global,
    name: &Bytes,
    input: &mut S,
    output: &mut W,
    shelf: &mut F,
) -> u8
    ensures runs { ShelvedRuns IsWorldText text_answers (F.texts shelf.old) name.now (input.new ≡ input.old) (S.left input.old) (S.left input.new) (W.taken output.old) (W.taken output.new) result }
    ensures read_fault { result ≡ 4 → Rose (S.faults input.old) (S.faults input.new) }
    ensures write_fault { result ≡ 5 → Rose (W.faults output.old) (W.faults output.new) }
    ensures shelf_fault { result ≡ 8 → Rose (F.faults shelf.old) (F.faults shelf.new) }
    ensures input_place { S.same_source input.old input.new }
    ensures output_place { W.same_sink output.old output.new }
    ensures shelf_place { F.same_shelf shelf.old shelf.new }
    ensures shelf_texts { F.texts shelf.new ≡ F.texts shelf.old }
{
    let text = match shelf.get(alloc, name) {
        Ok(Some(text)) => text,
        Ok(None) => return say_of(alloc, b"no file ", name, output),
        Err(ShelfFault::Failed) => return 8,
        Err(ShelfFault::TooLong) => return 9,
        Err(ShelfFault::Memory) => return 7,
    };
    match read_world(alloc, text.as_slice()) {
        Ok(world) => run_tool(alloc, &Evaluate { world }, input, output),
        Err((_, WorldFault::Memory)) => 7,
        Err(_) => say_of(alloc, b"unreadable ", name, output),
    }
}

/// Writes what is said of a text, with its name. Answers the exit status.
fn say_of<W: Sink>(alloc: Global, said: &[u8], name: &Bytes, output: &mut W) -> u8
    ensures says { ((result ≡ 7) × (output.new ≡ output.old)) ⊎ Says (said_of said.now name.now) (W.taken output.old) (W.taken output.new) result }
    ensures write_fault { result ≡ 5 → Rose (W.faults output.old) (W.faults output.new) }
    ensures output_place { W.same_sink output.old output.new }
{
    match text_reply(alloc, said, name) {
        Ok(reply) => say(&reply, output),
        Err(AllocError) => 7,
    }
}

/// The reply that says something of a text of the shelf, which is named behind it.
fn text_reply(alloc: Global, said: &[u8], name: &Bytes) -> Result<Reply, AllocError>
    ensures reply { IfOk result (λ reply. reply ≡ said_of said.now name.now) }
{
    let mut text = Bytes::from_slice(alloc, said)?;
    text.extend(name.as_slice())?;
    text.add(b'\n')?;
    Ok(Reply { code: 3, text })
}
