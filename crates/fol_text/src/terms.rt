ghost use Rattle.std.specs.Prelude.{◌≡◌, ◌≤◌, length, IfOk};
ghost use Rattle.fol_text.specs.Straight.{TermRead, TermBehind, ClosedTermsRead};

use crate::fault::Refusal;
use crate::fronts::{after_sign, front, word};
use crate::word::{is_name, is_variable};
use fol_core::{Ident, Term, Terms};
use lists::{Listed, Nonempty};
use std::alloc::Global;

/// More than there are bytes in a sentence's text.
const MOST: usize = 4001;

/// The term at the front of the text, and the text behind it. So many parentheses of functions may be pending in it.
#[cycle(terms)]
#[tactic(auto, using(crate::proofs::Taken::term_read))]
pub(crate) fn term(alloc: Global, room: usize, text: &[u8]) -> Result<(Term, &[u8]), Refusal>
    ensures read { IfOk result (λ r. TermRead room text.now r.0 r.1.now) }
{
    let (symbol, rest) = word(alloc, text)?;
    term_behind(alloc, room, symbol, rest)
}

/// The term that the word before the text begins.
#[cycle(terms)]
#[tactic(auto, using(crate::proofs::Taken::variable_read, crate::proofs::Taken::name_read, crate::proofs::Taken::function_read))]
pub(crate) fn term_behind(
    alloc: Global,
    room: usize,
    symbol: Ident,
    text: &[u8],
) -> Result<(Term, &[u8]), Refusal>
    ensures read { IfOk result (λ r. TermBehind room symbol text.now r.0 r.1.now) }
{
    if is_variable(&symbol) {
        return Ok((Term::Var(symbol), text));
    }
    if !is_name(&symbol) {
        return Err(Refusal::Unexpected);
    }
    let Some(after) = after_sign(b'(', text) else {
        return Ok((Term::Name(symbol), text));
    };
    if room == 0 {
        return Err(Refusal::TooDeep);
    }
    let (args, rest) = arguments(alloc, room - 1, after)?;
    Ok((Term::App(symbol, Nonempty::of(args)), rest))
}

/// The terms behind a parenthesis, and the text behind the closing one.
#[cycle(terms)]
#[tactic(auto, using(crate::proofs::Taken::first_term, crate::proofs::Taken::next_term, crate::proofs::Taken::terms_closed))]
pub(crate) fn arguments(alloc: Global, room: usize, text: &[u8]) -> Result<(Terms, &[u8]), Refusal>
    ensures read { IfOk result (λ r. ClosedTermsRead room text.now r.0 r.1.now) }
    ensures one { IfOk result (λ r. 1 ≤ length r.0) }
{
    let (first, behind) = term(alloc, room, text)?;
    let mut rest = behind;
    let mut terms = Listed::new(alloc);
    terms.add(first)?;
    for _ in 0..MOST {
        let Some((byte, after)) = front(rest) else {
            return Err(Refusal::Unexpected);
        };
        match byte {
            b',' => {
                let (next, behind) = term(alloc, room, after)?;
                terms.add(next)?;
                rest = behind;
            }
            b')' => return Ok((terms, after)),
            _ => return Err(Refusal::Unexpected),
        }
    }
    Err(Refusal::Unexpected)
}
