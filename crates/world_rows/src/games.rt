ghost use Rattle.std.specs.Prelude.{◌≡◌, Ok, IsTrue};
ghost use Rattle.fol_core.specs.Closed.{closed};
ghost use Rattle.fol_core.specs.Size.{within_limits};

use crate::no_answer::NoAnswer;
use crate::truths::read;
use crate::words::{number, numbers, put, shown, truth_value};
use block_world::World;
use fol_core::Sent;
use hintikka_game::{Game, GameFault, Played, replay};
use std::alloc::Global;

/// The moves of the replay with these choices, its end, and the losing choice where it has one.
pub fn replayed(
    alloc: Global,
    world: &World,
    sentence: &str,
    commitment: &str,
    choices: &str,
) -> Result<String, NoAnswer> {
    let commitment = truth_value(commitment)?;
    let choices = numbers(alloc, choices)?;
    let sentence = read(alloc, sentence)?;
    match replay(alloc, world, &sentence, commitment, choices.as_slice()) {
        Ok(played) => told(alloc, &played),
        Err(fault) => refused(alloc, fault),
    }
}

fn told(alloc: Global, played: &Played) -> Result<String, NoAnswer> {
    let mut words = String::new(alloc);
    for made in played.moves.as_slice() {
        put(alloc, &mut words, made)?;
    }
    put(alloc, &mut words, &played.end)?;
    if let Some(choice) = played.first_losing {
        words.push_str(format!(in alloc; ", losing choice {choice}")?.as_str())?;
    }
    Ok(words)
}

fn refused(alloc: Global, fault: GameFault) -> Result<String, NoAnswer> {
    match fault {
        GameFault::Memory => Err(NoAnswer::Memory),
        fault => shown(alloc, &fault),
    }
}

/// What comes next at the start of the game and after each call, and in brackets why a call is refused.
pub fn played(
    alloc: Global,
    world: &World,
    sentence: &str,
    commitment: &str,
    calls: &[String],
) -> Result<String, NoAnswer> {
    let commitment = truth_value(commitment)?;
    let sentence = read(alloc, sentence)?;
    started(alloc, world, &sentence, commitment, calls)
}

fn started(
    alloc: Global,
    world: &World,
    sentence: &Sent,
    commitment: bool,
    calls: &[String],
) -> Result<String, NoAnswer>
    requires closed { IsTrue (closed sentence.now) }
    requires limits { within_limits sentence.now ≡ Ok tt }
{
    match Game::start(alloc, world, sentence, commitment) {
        Ok(mut game) => called(alloc, &mut game, calls),
        Err(fault) => refused(alloc, fault),
    }
}

fn called(alloc: Global, game: &mut Game<'_>, calls: &[String]) -> Result<String, NoAnswer> {
    let mut words = String::new(alloc);
    put(alloc, &mut words, &game.next())?;
    for call in calls {
        one_called(alloc, game, call, &mut words)?;
    }
    Ok(words)
}

fn one_called(
    alloc: Global,
    game: &mut Game<'_>,
    call: &str,
    words: &mut String,
) -> Result<(), NoAnswer> {
    if call == "first_losing" {
        return Ok(put(alloc, words, &game.first_losing())?);
    }
    match moved(alloc, game, call)? {
        Ok(()) => {}
        Err(GameFault::Memory) => return Err(NoAnswer::Memory),
        Err(fault) => words.push_str(format!(in alloc; " [{fault:?}]")?.as_str())?,
    }
    Ok(put(alloc, words, &game.next())?)
}

/// What the game answers to `step`, or to `choose` with a number.
fn moved(
    alloc: Global,
    game: &mut Game<'_>,
    call: &str,
) -> Result<Result<(), GameFault>, NoAnswer> {
    match call.strip_prefix("choose ") {
        Some(choice) => Ok(game.choose(alloc, number(choice)?)),
        None if call == "step" => Ok(game.step(alloc)),
        None => Err(NoAnswer::NoSuchCall),
    }
}
