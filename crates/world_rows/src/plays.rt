use crate::no_answer::NoAnswer;
use crate::words::{LONGEST, in_one_line, put};
use block_world::print_world;
use cases::bytes_of;
use fol_text::print_sentence;
use play_text::{Play, PlayFault, read_play};
use std::alloc::{AllocError, Global};

/// The sentence, the commitment, the choices and the world of the play, or the number of its first faulty line and the
/// fault.
pub fn read(alloc: Global, text: &str) -> Result<String, NoAnswer> {
    let text = bytes_of(alloc, text)?;
    if text.len() > LONGEST {
        return Err(NoAnswer::NoSuchCall);
    }
    match read_play(alloc, text.as_slice()) {
        Ok(play) => Ok(told(alloc, &play)?),
        Err((_, PlayFault::Memory)) => Err(NoAnswer::Memory),
        Err((line, fault)) => Ok(format!(in alloc; "line {line}: {fault:?}")?),
    }
}

fn told(alloc: Global, play: &Play) -> Result<String, AllocError> {
    let sentence = print_sentence(alloc, &play.sentence)?;
    let sentence = in_one_line(alloc, sentence.as_slice())?;
    let commitment = play.commitment;
    let choices = listed(alloc, play.choices.as_slice())?;
    let world = print_world(alloc, &play.world)?;
    let world = in_one_line(alloc, world.as_slice())?;
    format!(in alloc; "{sentence}; {commitment}; {choices}; {world}")
}

fn listed(alloc: Global, choices: &[u32]) -> Result<String, AllocError> {
    let mut list = String::new(alloc);
    for choice in choices {
        put(alloc, &mut list, choice)?;
    }
    Ok(list)
}
