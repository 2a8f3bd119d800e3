ghost use Rattle.std.specs.Prelude.{◌≡◌, ℕ, List, Some};
ghost use Rattle.edge_io.specs.Causes.{Rose};
ghost use Rattle.tutor_app.specs.Check.{check_words, ReadsTree};
ghost use Rattle.tutor_app.specs.Reply.{IsReplyCode};
ghost use Rattle.tutor_app.specs.Run.{ToolRuns};
ghost use Rattle.tutor_app.specs.Running.{RunsAs, RunsOn};
ghost use Rattle.tutor_app.specs.ShelvedRun.{Says};
ghost use Rattle.tutor_app.specs.Words.{Request, AskFor, AskForNothing, NamesNoText, request_of, nothing};

use crate::check::Check;
use crate::play::PlayGame;
use crate::shelved::run_world;
use crate::table::Tabulate;
use crate::tool::{Reply, Tool};
use crate::transfer::{Unread, read_whole, write_whole};
use crate::words::{Command, Words, command_of};
use edge_io::{Shelf, Sink, Source};
use std::alloc::Global;

/// How a run of the program ended.
#[derive(Clone, Copy, Debug, PartialEq, Eq)]
pub struct Status {
    /// The exit status: 0, 1 and 3 are those of the reply that was written, 2 the words ask for no command, 4 the
    /// input failed, 5 the output failed, 7 memory ran out, 8 the shelf failed, 9 the input or the shelf's text is over
    /// 262,144 bytes.
    pub code: u8,
}

/// Runs the command that the words ask for: reads the input whole, and writes the reply to it. A command that names a text
/// gets it from the shelf first, and reads nothing where that text can't be used.
pub fn tutor<S: Source, W: Sink, F: Shelf>(
    alloc: Global,
    words: &Words,
    input: &mut S,
    output: &mut W,
    shelf: &mut F,
) -> Status
    // By what the words ask for: what was read and written with each status.
    ensures runs { (asked : Request) → AskFor words.now asked →
        RunsAs asked (F.texts shelf.old) (input.new ≡ input.old) (S.left input.old) (S.left input.new) (W.taken output.old) (W.taken output.new) result.code }
    ensures told { (asked : Request) → AskFor words.now asked → (bytes : List ℕ) → S.left input.old ≡ Some bytes →
        RunsOn asked (F.texts shelf.old) (input.new ≡ input.old) bytes (S.left input.new) (W.taken output.old) (W.taken output.new) result.code }

    // Where `check` ends with status 0, the goal that was read has a natural-deduction tree from its premises.
    ensures proved { words.now ≡ check_words → result.code ≡ 0 → ReadsTree (S.left input.old) (S.left input.new) }

    // What stays: all of it where the words ask for nothing, and the shelf where they name no text.
    ensures untouched { AskForNothing words.now → (input.new ≡ input.old) × (output.new ≡ output.old) × (shelf.new ≡ shelf.old) }
    ensures shelf_idle { (asked : Request) → AskFor words.now asked → NamesNoText asked → shelf.new ≡ shelf.old }

    ensures read_fault { result.code ≡ 4 → Rose (S.faults input.old) (S.faults input.new) }
    ensures write_fault { result.code ≡ 5 → Rose (W.faults output.old) (W.faults output.new) }
    ensures shelf_fault { result.code ≡ 8 → Rose (F.faults shelf.old) (F.faults shelf.new) }

    ensures input_place { S.same_source input.old input.new }
    ensures output_place { W.same_sink output.old output.new }
    ensures shelf_place { F.same_shelf shelf.old shelf.new }
    ensures shelf_texts { F.texts shelf.new ≡ F.texts shelf.old }
{
    let command = command_of(words);
    let code = run(alloc, command, input, output, shelf);
    Status { code }
}

/// Runs the command. Answers the exit status.
fn run<S: Source, W: Sink, F: Shelf>(
    alloc: Global,
    command: Command<'_>,
    input: &mut S,
    output: &mut W,
    shelf: &mut F,
) -> u8
    ensures runs { RunsAs (request_of command.entry) (F.texts shelf.old) (input.new ≡ input.old) (S.left input.old) (S.left input.new) (W.taken output.old) (W.taken output.new) result }
    ensures untouched { request_of command.entry ≡ nothing → (input.new ≡ input.old) × (output.new ≡ output.old) × (shelf.new ≡ shelf.old) }
    ensures shelf_idle { NamesNoText (request_of command.entry) → shelf.new ≡ shelf.old }
    ensures read_fault { result ≡ 4 → Rose (S.faults input.old) (S.faults input.new) }
    ensures write_fault { result ≡ 5 → Rose (W.faults output.old) (W.faults output.new) }
    ensures shelf_fault { result ≡ 8 → Rose (F.faults shelf.old) (F.faults shelf.new) }
    ensures input_place { S.same_source input.old input.new }
    ensures output_place { W.same_sink output.old output.new }
    ensures shelf_place { F.same_shelf shelf.old shelf.new }
    ensures shelf_texts { F.texts shelf.new ≡ F.texts shelf.old }
{
    match command {
        Command::Check => run_tool(alloc, &Check, input, output),
        Command::Table => run_tool(alloc, &Tabulate, input, output),
        Command::Play => run_tool(alloc, &PlayGame, input, output),
        Command::World(name) => run_world(alloc, name, input, output, shelf),
        Command::Refused => 2,
    }
}

/// Writes the reply. Answers the exit status.
pub(crate) fn say<W: Sink>(reply: &Reply, output: &mut W) -> u8
    requires code { IsReplyCode reply.now.code }
    ensures says { Says reply.now (W.taken output.old) (W.taken output.new) result }
    ensures write_fault { result ≡ 5 → Rose (W.faults output.old) (W.faults output.new) }
    ensures output_place { W.same_sink output.old output.new }
{
    match write_whole(output, reply.text.as_slice()) {
        Ok(()) => reply.code,
        Err(_) => 5,
    }
}

/// Reads the input whole, and writes the tool's reply to it. Answers the exit status.
pub(crate) fn run_tool<T: Tool, S: Source, W: Sink>(
    alloc: Global,
    tool: &T,
    input: &mut S,
    output: &mut W,
) -> u8
    ensures runs { ToolRuns (T.answers tool.now) (S.left input.old) (S.left input.new) (W.taken output.old) (W.taken output.new) result }
    ensures read_fault { result ≡ 4 → Rose (S.faults input.old) (S.faults input.new) }
    ensures write_fault { result ≡ 5 → Rose (W.faults output.old) (W.faults output.new) }
    ensures input_place { S.same_source input.old input.new }
    ensures output_place { W.same_sink output.old output.new }
{
    let text = match read_whole(alloc, input) {
        Ok(text) => text,
        Err(Unread::Failed) => return 4,
        Err(Unread::TooLong) => return 9,
        Err(Unread::Memory) => return 7,
    };
    let Ok(reply) = tool.answer(alloc, text.as_slice()) else {
        return 7;
    };
    say(&reply, output)
}
