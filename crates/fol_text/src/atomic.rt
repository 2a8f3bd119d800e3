ghost use Rattle.std.specs.Prelude.{◌≡◌, ◌∷◌, [], List, true, IfOk};
ghost use Rattle.fol_core.specs.Word.{is_predicate as predicate};
ghost use Rattle.fol_text.specs.declared.token.Token.{Token};
ghost use Rattle.fol_text.specs.declared.token.Token.TheVariants.{Identifier};
ghost use Rattle.fol_text.specs.Grammar.{SpellsTerm};
ghost use Rattle.fol_text.specs.Straight.{PartRead, PartBehind};

use crate::fault::Refusal;
use crate::fronts::{after_sign, front, word};
use crate::terms::{arguments, term, term_behind};
use crate::word::is_predicate;
use fol_core::{Ident, Sent, Term};
use lists::Listed;
use sqlite_items::Boxed;
use std::alloc::Global;

/// An atomic sentence or an equation at the front of the text, and the text behind it.
#[tactic(auto, using(crate::proofs::Taken::behind_word, crate::proofs::Taken::behind_term))]
pub(crate) fn atomic(alloc: Global, room: usize, text: &[u8]) -> Result<(Sent, &[u8]), Refusal>
    ensures read { IfOk result (λ r. PartRead room text.now r.0 r.1.now) }
{
    let (symbol, behind) = word(alloc, text)?;
    if is_predicate(&symbol) {
        return atom(alloc, room, symbol, behind);
    }
    let (left, rest) = term_behind(alloc, room, symbol, behind)?;
    equation(alloc, room, left, rest)
}

/// The atomic sentence of this predicate, before the text.
#[tactic(auto, using(crate::proofs::Taken::atom_read, crate::proofs::Taken::letter_read))]
fn atom(alloc: Global, room: usize, symbol: Ident, text: &[u8]) -> Result<(Sent, &[u8]), Refusal>
    requires { predicate symbol ≡ true }
    ensures read { IfOk result (λ r. PartBehind (Identifier symbol ∷ []) room text.now r.0 r.1.now) }
{
    match after_sign(b'(', text) {
        Some(after) => {
            let (terms, rest) = arguments(alloc, room, after)?;
            Ok((Sent::Atom(symbol, terms), rest))
        }
        None => Ok((Sent::Atom(symbol, Listed::new(alloc)), text)),
    }
}

/// The equation, or its negation, of the term and another one that stands in the text behind the sign.
#[tactic(auto, using(crate::proofs::Taken::equation_read, crate::proofs::Taken::inequation_read))]
fn equation(alloc: Global, room: usize, left: Term, text: &[u8]) -> Result<(Sent, &[u8]), Refusal>
    ensures read { IfOk result (λ r. (ks : List Token) → SpellsTerm room ks left → PartBehind ks room text.now r.0 r.1.now) }
{
    let Some((byte, after)) = front(text) else {
        return Err(Refusal::Unexpected);
    };
    match byte {
        b'=' => {
            let (right, rest) = term(alloc, room, after)?;
            Ok((Sent::Eq(left, right), rest))
        }
        b'#' => {
            let (right, rest) = term(alloc, room, after)?;
            Ok((Sent::Not(Boxed::new(alloc, Sent::Eq(left, right))?), rest))
        }
        _ => Err(Refusal::Unexpected),
    }
}
