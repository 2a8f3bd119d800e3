use crate::no_answer::NoAnswer;
use crate::state::State;
use crate::words::{LONGEST, in_one_line, shown};
use block_world::{Names, World, WorldFault, block_count, print_world, read_world};
use cases::bytes_of;
use std::alloc::Global;

/// Reads the text of the latest lines that begin with `| `.
pub fn read_quoted(alloc: Global, state: &mut State) -> Result<String, NoAnswer> {
    let text = bytes_of(alloc, state.quoted.as_str())?;
    read(alloc, state, text.as_slice())
}

pub fn read_text(alloc: Global, state: &mut State, text: &str) -> Result<String, NoAnswer> {
    let text = bytes_of(alloc, text)?;
    read(alloc, state, text.as_slice())
}

/// Reads the world, and keeps it for the later cases. Where it has a fault, the earlier world stays.
fn read(alloc: Global, state: &mut State, text: &[u8]) -> Result<String, NoAnswer> {
    if text.len() > LONGEST {
        return Err(NoAnswer::NoSuchCall);
    }
    match read_world(alloc, text) {
        Ok(world) => {
            let count = block_count(&world);
            state.world = Some(world);
            Ok(format!(in alloc; "a world, blocks: {count}")?)
        }
        Err((_, WorldFault::Memory)) => Err(NoAnswer::Memory),
        Err((line, fault)) => Ok(format!(in alloc; "line {line}: {fault:?}")?),
    }
}

pub fn printed(alloc: Global, world: &World) -> Result<String, NoAnswer> {
    let text = print_world(alloc, world)?;
    Ok(in_one_line(alloc, text.as_slice())?)
}

/// Whether a block of these names bears the one that the letter is.
pub fn bears(alloc: Global, names: &str, letter: &str) -> Result<String, NoAnswer> {
    let names = Names {
        a: names.contains('a'),
        b: names.contains('b'),
        c: names.contains('c'),
        d: names.contains('d'),
        e: names.contains('e'),
        f: names.contains('f'),
    };
    match letter.as_bytes() {
        [letter] => shown(alloc, &names.bears(*letter)),
        _ => Err(NoAnswer::NoSuchCall),
    }
}
