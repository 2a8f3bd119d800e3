use crate::no_answer::NoAnswer;
use crate::state::State;
use crate::words::{said, shown};
use crate::{games, orders, plays, readings, truths};
use block_world::{World, block_count};
use cases::{call_of, quoted_line, stands_for_itself, texts_of};
use hintikka_game::replay_laws;
use play_text::play_text_laws;
use std::alloc::{AllocError, Global};

/// The reply to a line. One that is empty or begins with `#` or `| ` is its own reply.
pub fn reply(alloc: Global, state: &mut State, line: &str) -> Result<String, AllocError> {
    if stands_for_itself(line) {
        return line.to_string(alloc);
    }
    if let Some(quoted) = quoted_line(line) {
        state.quote(quoted)?;
        return line.to_string(alloc);
    }
    state.end_text();
    let texts = texts_of(alloc, line)?;
    match answer(alloc, state, call_of(line), texts.as_slice()) {
        Ok(answer) => Ok(answer),
        Err(NoAnswer::Fault(fault)) => format!(in alloc; "{fault:?}"),
        Err(NoAnswer::NoWorld) => "no world".to_string(alloc),
        Err(NoAnswer::NoSuchCall) => "no such call".to_string(alloc),
        Err(NoAnswer::Memory) => Err(AllocError),
    }
}

/// What the call answers on the texts, in words.
fn answer(
    alloc: Global,
    state: &mut State,
    call: &str,
    texts: &[String],
) -> Result<String, NoAnswer> {
    match (call, texts) {
        ("read_world", []) => readings::read_quoted(alloc, state),
        ("read_world", [text]) => readings::read_text(alloc, state, text),
        ("read_play", []) => plays::read(alloc, state.quoted.as_str()),
        ("read_play", [text]) => plays::read(alloc, text),
        ("bears", [names, letter]) => readings::bears(alloc, names, letter),
        ("laws", []) => laws(alloc),
        _ => match &state.world {
            Some(world) => in_world(alloc, world, state.quoted.as_str(), call, texts),
            None => Err(NoAnswer::NoWorld),
        },
    }
}

/// What the call answers in the world that was read last.
fn in_world(
    alloc: Global,
    world: &World,
    quoted: &str,
    call: &str,
    texts: &[String],
) -> Result<String, NoAnswer> {
    match (call, texts) {
        ("block_count", []) => shown(alloc, &block_count(world)),
        ("print_world", []) => readings::printed(alloc, world),
        ("work", [sentence]) => truths::units(alloc, world, sentence),
        ("truth", [sentence]) => truths::value(alloc, world, sentence),
        ("truth_of_open", [variables, said]) => {
            truths::value_of_open(alloc, world, variables, said)
        }
        ("truth_within", [said]) => truths::value_within(alloc, world, quoted, said),
        ("truth_at", [said, places @ ..]) => truths::value_at(alloc, world, said, places),
        ("truth_in_orders", [said, blocks @ ..]) => {
            orders::values_in_orders(alloc, world, quoted, said, blocks)
        }
        ("replay", [sentence, commitment, choices]) => {
            games::replayed(alloc, world, sentence, commitment, choices)
        }
        ("game", [sentence, commitment, calls @ ..]) => {
            games::played(alloc, world, sentence, commitment, calls)
        }
        _ => Err(NoAnswer::NoSuchCall),
    }
}

/// Calls the laws, which do nothing.
fn laws(alloc: Global) -> Result<String, NoAnswer> {
    replay_laws();
    play_text_laws();
    said(alloc, "called")
}
