use crate::answers::{listed, sentence_of};
use crate::replies::NoAnswer;
use std::alloc::Global;
use tableau_branch::{Branch, Trail};
use tableau_laws::Literal;

/// The item that the text says: a sign and a sentence.
fn item_of(alloc: Global, text: &str) -> Result<Literal, NoAnswer> {
    let (holds, rest) = match text.strip_prefix('+') {
        Some(rest) => (true, rest),
        None => match text.strip_prefix('-') {
            Some(rest) => (false, rest),
            None => return Err(NoAnswer::NoSuchCall),
        },
    };
    let sentence = sentence_of(alloc, rest)?;
    Ok(Literal { holds, sentence })
}

/// The branch with these on it, one after the other, how many terms it has and whether it is closed; then the same of what is left
/// of it once it is cut back to half.
pub fn grown(alloc: Global, texts: &[String]) -> Result<String, NoAnswer> {
    let mut branch = Branch::new(alloc)?;
    let mut trail = Trail::new(alloc);
    for text in texts {
        branch = branch.add(alloc, item_of(alloc, text)?)?;
        if trail.push(item_of(alloc, text)?).is_err() {
            return Err(NoAnswer::Memory);
        }
    }
    let whole = told(alloc, &branch)?;
    let half = branch.mark() / 2;
    branch.undo(half);
    let rest = told(alloc, &branch)?;
    let mark = trail.mark() / 2;
    trail.undo(mark);
    let left = listed(alloc, trail.as_slice())?;
    Ok(format!(in alloc; "{whole}; {rest}; trail{left}")?)
}

fn told(alloc: Global, branch: &Branch) -> Result<String, NoAnswer> {
    let list = listed(alloc, branch.as_slice())?;
    let count = branch.terms().len();
    let closed = if branch.is_closed() { "closed" } else { "open" };
    Ok(format!(in alloc; "{closed}{list}, {count} terms")?)
}
