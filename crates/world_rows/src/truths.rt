ghost use Rattle.std.specs.Prelude.{◌≡◌, Ok, IfOk, IsTrue};
ghost use Rattle.fol_core.specs.Closed.{closed};
ghost use Rattle.fol_core.specs.Size.{within_limits};

use crate::no_answer::NoAnswer;
use crate::words::{LONGEST, number, shown};
use block_world::{Place, Places, TruthFault, World, truth, truth_at, work};
use fol_core::{Ident, Sent};
use fol_text::read_sentence;
use std::alloc::{AllocError, Global};

/// The sentence of the text.
pub fn read(alloc: Global, text: &str) -> Result<Sent, NoAnswer>
    ensures closed { IfOk result (λ s. IsTrue (closed s)) }
    ensures limits { IfOk result (λ s. within_limits s ≡ Ok tt) }
{
    if text.len() > LONGEST {
        return Err(NoAnswer::NoSuchCall);
    }
    Ok(read_sentence(alloc, text.as_bytes())?)
}

/// The units of work of the sentence.
pub fn units(alloc: Global, world: &World, sentence: &str) -> Result<String, NoAnswer> {
    let sentence = read(alloc, sentence)?;
    shown(alloc, &work(world, &sentence))
}

/// The value of the sentence, or why it has none.
pub fn value(alloc: Global, world: &World, sentence: &str) -> Result<String, NoAnswer> {
    let sentence = read(alloc, sentence)?;
    told(alloc, truth(world, &sentence))
}

/// The value of the sentence, in which no quantifier binds the variables.
pub fn value_of_open(
    alloc: Global,
    world: &World,
    variables: &str,
    said: &str,
) -> Result<String, NoAnswer> {
    let sentence = read(alloc, bound(alloc, variables, said)?.as_str())?;
    told(alloc, truth(world, behind(&sentence, count(variables))))
}

/// The value of the sentence that stands in the text where the two dots are.
pub fn value_within(
    alloc: Global,
    world: &World,
    text: &str,
    said: &str,
) -> Result<String, NoAnswer> {
    let text = text.replace(alloc, "\n", " ")?.replace(alloc, "..", said)?;
    value(alloc, world, text.as_str())
}

fn told(alloc: Global, value: Result<bool, TruthFault>) -> Result<String, NoAnswer> {
    match value {
        Ok(value) => shown(alloc, &value),
        Err(fault) => shown(alloc, &fault),
    }
}

/// The value of the sentence where its free variables stand for blocks: each of the texts is a variable and the number of
/// its block.
pub fn value_at(
    alloc: Global,
    world: &World,
    said: &str,
    texts: &[String],
) -> Result<String, NoAnswer> {
    let variables = variables_of(alloc, texts)?;
    let sentence = read(alloc, bound(alloc, variables.as_str(), said)?.as_str())?;
    value_of_part(alloc, world, behind(&sentence, texts.len()), texts)
}

fn value_of_part(
    alloc: Global,
    world: &World,
    part: &Sent,
    texts: &[String],
) -> Result<String, NoAnswer> {
    let places = places_of(alloc, texts)?;
    shown(alloc, &truth_at(world, part, &places))
}

/// The variables of the texts, with blanks between them.
fn variables_of(alloc: Global, texts: &[String]) -> Result<String, AllocError> {
    let mut variables = String::new(alloc);
    for text in texts {
        if !variables.is_empty() {
            variables.push_str(" ")?;
        }
        variables.push_str(text.split_once(' ').map_or("", |p| p.0))?;
    }
    Ok(variables)
}

fn places_of(alloc: Global, texts: &[String]) -> Result<Places, NoAnswer> {
    let mut places = Places::new(alloc);
    for text in texts {
        match text.split_once(' ') {
            Some((variable, block)) => place(alloc, &mut places, variable, number(block)?)?,
            None => return Err(NoAnswer::NoSuchCall),
        }
    }
    Ok(places)
}

/// Gives the variable the block.
pub fn place(
    alloc: Global,
    places: &mut Places,
    variable: &str,
    block: u32,
) -> Result<(), NoAnswer> {
    match Ident::make(alloc, variable.as_bytes())? {
        Some(variable) => Ok(places.add(Place { variable, block })?),
        None => Err(NoAnswer::NoSuchCall),
    }
}

/// The sentence behind universal quantifiers of these variables.
fn bound(alloc: Global, variables: &str, said: &str) -> Result<String, AllocError> {
    let quantifiers = variables.replace(alloc, " ", " @")?;
    format!(in alloc; "@{quantifiers} ({said})")
}

/// How many words the text has, which has blanks between them.
fn count(text: &str) -> usize {
    text.split(' ').count()
}

/// The part of the sentence behind so many universal quantifiers.
pub fn behind(s: &Sent, count: usize) -> &Sent {
    match s {
        Sent::All(_, part) if count > 0 => behind(part.get(), count - 1),
        _ => s,
    }
}
