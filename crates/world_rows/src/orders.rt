use crate::no_answer::NoAnswer;
use crate::truths::{behind, place, read};
use crate::words::{numbers, put, said as in_words};
use block_world::{Places, World, truth_at};
use fol_core::Sent;
use std::alloc::Global;

/// The values of what is said of the blocks of `x1`, `x2` and `x3`. Each of the texts has the numbers of three blocks. The
/// orders are lines of quantifiers, of these variables and maybe of others; under each of them what is said must have the
/// same values.
pub fn values_in_orders(
    alloc: Global,
    world: &World,
    orders: &str,
    said: &str,
    blocks: &[String],
) -> Result<String, NoAnswer> {
    if orders.is_empty() {
        return Err(NoAnswer::NoSuchCall);
    }
    let text = format!(in alloc; "@x1 @x2 @x3 {said}")?;
    let single = values(alloc, world, text.as_str(), "x", blocks)?;
    for order in orders.split('\n') {
        if !order.is_empty() && !is_again(alloc, world, order, said, blocks, single.as_str())? {
            return Ok(format!(in alloc; "not so under {order}")?);
        }
    }
    Ok(single)
}

/// Whether the values under the order are these.
fn is_again(
    alloc: Global,
    world: &World,
    order: &str,
    said: &str,
    blocks: &[String],
    single: &str,
) -> Result<bool, NoAnswer> {
    let text = format!(in alloc; "@y1 @y2 @y3 {order} ((x1 = y1 & x2 = y2 & x3 = y3) $ {said})")?;
    let values = values(alloc, world, text.as_str(), "y", blocks)?;
    Ok(values.as_str() == single)
}

/// The values of the sentence behind its first three quantifiers, whose variables begin with the letter.
fn values(
    alloc: Global,
    world: &World,
    text: &str,
    letter: &str,
    blocks: &[String],
) -> Result<String, NoAnswer> {
    let sentence = read(alloc, text)?;
    values_of_part(alloc, world, behind(&sentence, 3), letter, blocks)
}

fn values_of_part(
    alloc: Global,
    world: &World,
    part: &Sent,
    letter: &str,
    blocks: &[String],
) -> Result<String, NoAnswer> {
    let mut values = in_words(alloc, "")?;
    for numbers in blocks {
        let places = places_of(alloc, letter, numbers)?;
        put(alloc, &mut values, &truth_at(world, part, &places))?;
    }
    Ok(values)
}

/// The blocks of the numbers for the letter's variables in turn.
fn places_of(alloc: Global, letter: &str, text: &str) -> Result<Places, NoAnswer> {
    let mut places = Places::new(alloc);
    let mut index: u64 = 1;
    for block in numbers(alloc, text)?.as_slice() {
        let variable = format!(in alloc; "{letter}{index}")?;
        place(alloc, &mut places, variable.as_str(), *block)?;
        index = index.saturating_add(1);
    }
    Ok(places)
}
