ghost use Rattle.std.specs.Prelude.{◌≡◌, [], ◌∷◌, Ok, Err, OnOk};
ghost use Rattle.fol_text.specs.Machine.{Gives, Leaves, wrapped as wrapped_of, whole as whole_of, conjoined as conjoined_of, disjoined as disjoined_of, conjoin as conjoin_of, disjoin as disjoin_of, imply as imply_of, equate as equate_of, begun_by as begun_by_of};

use crate::fault::Refusal;
use crate::stack::Stack;
use crate::state::{Begun, Prefix, Quantifier};
use crate::token::Token;
use fol_core::{Parts, Sent, Sents};
use lists::Listed;
use sqlite_items::Boxed;
use std::alloc::Global;
use std::mem;

/// The part behind its prefixes, which are taken from the stack.
pub(crate) fn wrapped(
    alloc: Global,
    prefixes: &mut Stack<Prefix>,
    part: Sent,
) -> Result<Sent, Refusal>
    ensures value { Gives result (Ok (wrapped_of prefixes.old part)) }
    ensures taken { OnOk result (prefixes.new ≡ []) }
{
    let mut whole = part;
    while let Some(prefix) = prefixes.pop() {
        whole = behind(alloc, prefix, whole)?;
    }
    Ok(whole)
}

/// The part behind one prefix.
fn behind(alloc: Global, prefix: Prefix, part: Sent) -> Result<Sent, Refusal>
    ensures value { Gives result (Ok (wrapped_of (prefix ∷ []) part)) }
{
    let part = Boxed::new(alloc, part)?;
    Ok(match prefix {
        Prefix::Negation => Sent::Not(part),
        Prefix::Quantified(Quantifier::Universal, x) => Sent::All(x, part),
        Prefix::Quantified(Quantifier::Existential, x) => Sent::Ex(x, part),
    })
}

impl Begun {
    /// A connective stands behind a part.
    pub(crate) fn go_on(&mut self, alloc: Global, part: Sent, sign: Token) -> Result<(), Refusal>
        ensures value { Leaves self.new result (begun_by_of part self.old sign) }
    {
        match sign {
            Token::AndSign => self.conjoin(alloc, part),
            Token::OrSign => self.disjoin(alloc, part),
            Token::IfSign => self.imply(part),
            Token::IffSign => self.equate(part),
            _ => Err(Refusal::Unexpected),
        }
    }

    /// An `&` behind a part.
    fn conjoin(&mut self, alloc: Global, part: Sent) -> Result<(), Refusal>
        ensures value { Leaves self.new result (conjoin_of part self.old) }
    {
        let mut parts = match mem::replace(self, Begun::Nothing) {
            Begun::Nothing => Listed::new(alloc),
            Begun::Conjunction(parts) => parts,
            _ => return Err(Refusal::Ambiguous),
        };
        parts.add(part)?;
        *self = Begun::Conjunction(parts);
        Ok(())
    }

    /// A `|` behind a part.
    fn disjoin(&mut self, alloc: Global, part: Sent) -> Result<(), Refusal>
        ensures value { Leaves self.new result (disjoin_of part self.old) }
    {
        let mut parts = match mem::replace(self, Begun::Nothing) {
            Begun::Nothing => Listed::new(alloc),
            Begun::Disjunction(parts) => parts,
            _ => return Err(Refusal::Ambiguous),
        };
        parts.add(part)?;
        *self = Begun::Disjunction(parts);
        Ok(())
    }

    /// A `$` behind a part.
    fn imply(&mut self, part: Sent) -> Result<(), Refusal>
        ensures value { Leaves self.new result (imply_of part self.old) }
    {
        match mem::replace(self, Begun::Conditional(part)) {
            Begun::Nothing => Ok(()),
            _ => Err(Refusal::Ambiguous),
        }
    }

    /// A `%` behind a part.
    fn equate(&mut self, part: Sent) -> Result<(), Refusal>
        ensures value { Leaves self.new result (equate_of part self.old) }
    {
        match mem::replace(self, Begun::Biconditional(part)) {
            Begun::Nothing => Ok(()),
            _ => Err(Refusal::Ambiguous),
        }
    }
}

/// The sentence of a group: its last part alone, or what the connective makes of it.
pub(crate) fn whole(alloc: Global, begun: Begun, last: Sent) -> Result<Sent, Refusal>
    ensures value { Gives result (Ok (whole_of begun last)) }
{
    match begun {
        Begun::Nothing => Ok(last),
        Begun::Conjunction(parts) => conjoined(parts, last),
        Begun::Disjunction(parts) => disjoined(parts, last),
        Begun::Conditional(first) => Ok(Sent::If(
            Boxed::new(alloc, first)?,
            Boxed::new(alloc, last)?,
        )),
        Begun::Biconditional(first) => Ok(Sent::Iff(
            Boxed::new(alloc, first)?,
            Boxed::new(alloc, last)?,
        )),
    }
}

/// The conjunction of the parts and a last one.
#[tactic(auto, using(crate::proofs::Wholes::conjoined_alone, crate::proofs::Wholes::conjoined_chain))]
fn conjoined(mut parts: Sents, last: Sent) -> Result<Sent, Refusal>
    ensures value { Gives result (Ok (conjoined_of parts last)) }
{
    if parts.len() == 0 {
        return Ok(last);
    }
    parts.add(last)?;
    Ok(Sent::And(Parts::of(parts)))
}

/// The disjunction of the parts and a last one.
#[tactic(auto, using(crate::proofs::Wholes::disjoined_alone, crate::proofs::Wholes::disjoined_chain))]
fn disjoined(mut parts: Sents, last: Sent) -> Result<Sent, Refusal>
    ensures value { Gives result (Ok (disjoined_of parts last)) }
{
    if parts.len() == 0 {
        return Ok(last);
    }
    parts.add(last)?;
    Ok(Sent::Or(Parts::of(parts)))
}
