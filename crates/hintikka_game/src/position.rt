ghost use Rattle.std.specs.Prelude.{◌≡◌, ◌∷◌, ◌++◌, [], IfOk, not};
ghost use Rattle.fol_core.specs.declared.sent.Sent.TheVariants as sents;
ghost use Rattle.hintikka_game.specs.Positions as positions;

use fol_core::{Ident, Sent, copy};
use lists::{Listed, Several};
use sqlite_items::Boxed;
use std::alloc::{AllocError, Global};
use world_truth::{Place, Places, truth_at};
use worlds::World;

/// A position of the game.
#[derive(Debug, Drop)]
pub struct Position {
    pub sentence: Sent,
    /// The blocks for the free variables of the sentence.
    pub places: Places,
    /// What the player holds the sentence to be.
    pub commitment: bool,
}

impl Position {
    /// The same position once more.
    pub(crate) fn copied(&self, alloc: Global) -> Result<Position, AllocError>
        ensures value { IfOk result (λ p. p ≡ self.now) }
    {
        self.at(alloc, &self.sentence)
    }

    /// The same position but for its sentence.
    pub(crate) fn at(&self, alloc: Global, sentence: &Sent) -> Result<Position, AllocError>
        ensures value { IfOk result (λ p. p ≡ positions.at_sentence self.now sentence.now) }
    {
        let sentence = copy(alloc, sentence)?;
        self.with(alloc, sentence)
    }

    /// The same position but for its sentence, which isn't copied.
    fn with(&self, alloc: Global, sentence: Sent) -> Result<Position, AllocError>
        ensures value { IfOk result (λ p. p ≡ positions.at_sentence self.now sentence) }
    {
        Ok(Position {
            sentence,
            places: copy_places(alloc, self.places.as_slice())?,
            commitment: self.commitment,
        })
    }

    /// The position of the sentence, to which the commitment is turned round.
    pub(crate) fn flipped(&self, alloc: Global, sentence: &Sent) -> Result<Position, AllocError>
        ensures value { IfOk result (λ p. p ≡ record { sentence = sentence.now; places = self.now.places; commitment = not self.now.commitment }) }
    {
        Ok(Position {
            sentence: copy(alloc, sentence)?,
            places: copy_places(alloc, self.places.as_slice())?,
            commitment: !self.commitment,
        })
    }

    /// The position of the sentence with a block for the variable.
    pub(crate) fn with_block(
        &self,
        alloc: Global,
        variable: &Ident,
        sentence: &Sent,
        block: u32,
    ) -> Result<Position, AllocError>
        ensures value { IfOk result (λ p. p ≡ positions.at_block self.now variable.now sentence.now block) }
    {
        let mut next = self.at(alloc, sentence)?;
        let variable = variable.copied(alloc)?;
        next.places.add(Place { variable, block })?;
        Ok(next)
    }

    /// The position of the disjunction that a conditional with these sides is rewritten to.
    pub(crate) fn with_if(
        &self,
        alloc: Global,
        left: &Sent,
        right: &Sent,
    ) -> Result<Position, AllocError>
        ensures value { IfOk result (λ p. p ≡ positions.at_sentence self.now (sents.Or (sents.Not left.now ∷ right.now ∷ []))) }
    {
        let denied = Sent::Not(copy_boxed(alloc, left)?);
        let held = copy(alloc, right)?;
        self.with(alloc, Sent::Or(Several::pair(alloc, denied, held)?))
    }

    /// The position of the conjunction that a biconditional with these sides is rewritten to.
    pub(crate) fn with_iff(
        &self,
        alloc: Global,
        left: &Sent,
        right: &Sent,
    ) -> Result<Position, AllocError>
        ensures value { IfOk result (λ p. p ≡ positions.at_sentence self.now (sents.And (sents.If left.now right.now ∷ sents.If right.now left.now ∷ []))) }
    {
        let forth = Sent::If(copy_boxed(alloc, left)?, copy_boxed(alloc, right)?);
        let back = Sent::If(copy_boxed(alloc, right)?, copy_boxed(alloc, left)?);
        self.with(alloc, Sent::And(Several::pair(alloc, forth, back)?))
    }

    /// Whether the commitment is the value of the sentence in the world. It takes no memory.
    pub(crate) fn is_kept(&self, world: &World) -> bool
        ensures value { result ≡ positions.is_kept world.now self.now }
    {
        let value = truth_at(world, &self.sentence, &self.places);
        if self.commitment { value } else { !value }
    }
}

fn copy_boxed(alloc: Global, s: &Sent) -> Result<Boxed<Sent>, AllocError>
    ensures value { IfOk result (λ copied. copied ≡ s.now) }
{
    let whole = copy(alloc, s)?;
    Boxed::new(alloc, whole)
}

fn copy_places(alloc: Global, places: &[Place]) -> Result<Places, AllocError>
    ensures value { IfOk result (λ copied. copied ≡ places.now) }
{
    let mut copies: Places = Listed::new(alloc);
    for place in places {
        copies.add(copy_place(alloc, place)?)?;
    }
    Ok(copies)
}

fn copy_place(alloc: Global, place: &Place) -> Result<Place, AllocError>
    ensures value { IfOk result (λ copied. copied ≡ place.now) }
{
    Ok(Place {
        variable: place.variable.copied(alloc)?,
        block: place.block,
    })
}
