ghost use Rattle.std.specs.Prelude.{◌≡◌, ◌≤◌, ◌∷◌, [], length, Some, IfOk};
ghost use Rattle.fol_text.specs.declared.token.Token.{Token};
ghost use Rattle.fol_text.specs.declared.token.Token.TheVariants.{Open, NotSign, AllSign, ExistsSign};
ghost use Rattle.fol_text.specs.Tokens.{typed_sign};
ghost use Rattle.fol_text.specs.Straight.{PartRead, PartBehind, ChainRead, SentenceRead};

use crate::atomic::atomic;
use crate::fault::Refusal;
use crate::fronts::{after_sign, front, word};
use crate::word::is_variable;
use fol_core::{Parts, Sent, Sents};
use lists::Listed;
use sqlite_items::Boxed;
use std::alloc::Global;

/// More than there are bytes in a sentence's text.
const MOST: usize = 4001;

/// A sentence at the front of the text, and the text behind it, with so much room for what is pending. An error says
/// nothing of the text.
#[cycle(straight)]
#[tactic(auto, using(crate::proofs::Taken::part_alone, crate::proofs::Taken::conjunction_read, crate::proofs::Taken::disjunction_read, crate::proofs::Taken::conditional_read, crate::proofs::Taken::biconditional_read))]
pub(crate) fn sentence(alloc: Global, room: usize, text: &[u8]) -> Result<(Sent, &[u8]), Refusal>
    ensures read { IfOk result (λ r. SentenceRead room text.now r.0 r.1.now) }
{
    let (first, rest) = part(alloc, room, text)?;
    let Some((byte, after)) = front(rest) else {
        return Ok((first, rest));
    };
    match byte {
        b'&' => {
            let (parts, behind) = chain(alloc, room, b'&', first, after)?;
            Ok((Sent::And(Parts::of(parts)), behind))
        }
        b'|' => {
            let (parts, behind) = chain(alloc, room, b'|', first, after)?;
            Ok((Sent::Or(Parts::of(parts)), behind))
        }
        b'$' => {
            let (second, behind) = part(alloc, room, after)?;
            let both = Sent::If(Boxed::new(alloc, first)?, Boxed::new(alloc, second)?);
            Ok((both, behind))
        }
        b'%' => {
            let (second, behind) = part(alloc, room, after)?;
            let both = Sent::Iff(Boxed::new(alloc, first)?, Boxed::new(alloc, second)?);
            Ok((both, behind))
        }
        _ => Ok((first, rest)),
    }
}

/// The part and those that stand in the text behind the sign, with the sign between them.
#[cycle(straight)]
#[tactic(auto, using(crate::proofs::Taken::first_chain, crate::proofs::Taken::next_chain))]
fn chain(
    alloc: Global,
    room: usize,
    sign: u8,
    first: Sent,
    text: &[u8],
) -> Result<(Sents, &[u8]), Refusal>
    ensures read { IfOk result (λ r. (k : Token) → typed_sign sign ≡ Some k → ChainRead k room text.now first r.0 r.1.now) }
    ensures two { IfOk result (λ r. 2 ≤ length r.0) }
{
    let (second, behind) = part(alloc, room, text)?;
    let mut rest = behind;
    let mut parts = Listed::new(alloc);
    parts.add(first)?;
    parts.add(second)?;
    for _ in 0..MOST {
        let Some(after) = after_sign(sign, rest) else {
            break;
        };
        let (next, behind) = part(alloc, room, after)?;
        parts.add(next)?;
        rest = behind;
    }
    Ok((parts, rest))
}

/// A part at the front of the text.
#[cycle(straight)]
#[tactic(auto, using(crate::proofs::Taken::behind_open, crate::proofs::Taken::behind_not, crate::proofs::Taken::behind_all, crate::proofs::Taken::behind_exists, crate::proofs::Taken::falsum_read))]
fn part(alloc: Global, room: usize, text: &[u8]) -> Result<(Sent, &[u8]), Refusal>
    ensures read { IfOk result (λ r. PartRead room text.now r.0 r.1.now) }
{
    let Some((byte, after)) = front(text) else {
        return Err(Refusal::Unexpected);
    };
    match byte {
        b'(' => group(alloc, room, after),
        b'~' => negation(alloc, room, after),
        b'@' => universal(alloc, room, after),
        b'/' => existential(alloc, room, after),
        b'^' => Ok((Sent::Bottom, after)),
        _ => atomic(alloc, room, text),
    }
}

/// The sentence of a group, behind its opening parenthesis, and the closing one.
#[cycle(straight)]
#[tactic(auto, using(crate::proofs::Taken::group_read))]
fn group(alloc: Global, room: usize, text: &[u8]) -> Result<(Sent, &[u8]), Refusal>
    ensures read { IfOk result (λ r. PartBehind (Open ∷ []) room text.now r.0 r.1.now) }
{
    if room == 0 {
        return Err(Refusal::TooDeep);
    }
    let (inner, rest) = sentence(alloc, room - 1, text)?;
    match after_sign(b')', rest) {
        Some(after) => Ok((inner, after)),
        None => Err(Refusal::Unexpected),
    }
}

/// The negation of the part that stands behind `~`.
#[cycle(straight)]
#[tactic(auto, using(crate::proofs::Taken::negation_read))]
fn negation(alloc: Global, room: usize, text: &[u8]) -> Result<(Sent, &[u8]), Refusal>
    ensures read { IfOk result (λ r. PartBehind (NotSign ∷ []) room text.now r.0 r.1.now) }
{
    if room == 0 {
        return Err(Refusal::TooDeep);
    }
    let (inner, rest) = part(alloc, room - 1, text)?;
    Ok((Sent::Not(Boxed::new(alloc, inner)?), rest))
}

/// The universal sentence whose variable and part stand behind `@`.
#[cycle(straight)]
#[tactic(auto, using(crate::proofs::Taken::universal_read))]
fn universal(alloc: Global, room: usize, text: &[u8]) -> Result<(Sent, &[u8]), Refusal>
    ensures read { IfOk result (λ r. PartBehind (AllSign ∷ []) room text.now r.0 r.1.now) }
{
    if room == 0 {
        return Err(Refusal::TooDeep);
    }
    let (x, behind) = word(alloc, text)?;
    if !is_variable(&x) {
        return Err(Refusal::Unexpected);
    }
    let (inner, rest) = part(alloc, room - 1, behind)?;
    Ok((Sent::All(x, Boxed::new(alloc, inner)?), rest))
}

/// The existential sentence whose variable and part stand behind `/`.
#[cycle(straight)]
#[tactic(auto, using(crate::proofs::Taken::existential_read))]
fn existential(alloc: Global, room: usize, text: &[u8]) -> Result<(Sent, &[u8]), Refusal>
    ensures read { IfOk result (λ r. PartBehind (ExistsSign ∷ []) room text.now r.0 r.1.now) }
{
    if room == 0 {
        return Err(Refusal::TooDeep);
    }
    let (x, behind) = word(alloc, text)?;
    if !is_variable(&x) {
        return Err(Refusal::Unexpected);
    }
    let (inner, rest) = part(alloc, room - 1, behind)?;
    Ok((Sent::Ex(x, Boxed::new(alloc, inner)?), rest))
}
