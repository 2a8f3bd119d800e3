ghost use Rattle.std.specs.Prelude.{◌≡◌, ◌↔◌, ◌⊎◌, ◌∷◌, ◌≤◌, ◌&&◌, not, [], true, false, length, Some, Ok, Err, IfOk, IfErr, IsSome, IsTrue, OnErr, OnOk};
ghost use Rattle.fol_core.specs.Closed.{closed};
ghost use Rattle.fol_core.specs.Size.{within_limits};
ghost use Rattle.world_truth.specs.Answers.{truth_of};
ghost use Rattle.hintikka_game.specs.Games.{opened, turn_in, with_moves};
ghost use Rattle.hintikka_game.specs.Plays as plays;
ghost use Rattle.hintikka_game.specs.Plays.{IsAllowed, IsPlay, first_losing_of, forced};
ghost use Rattle.hintikka_game.specs.Positions.{is_kept as is_value};
ghost use Rattle.hintikka_game.specs.Refusals.{HasStartCause, choice_fault, step_fault};
ghost use Rattle.hintikka_game.specs.Turns.{is_settled as is_settled_at};
ghost use Rattle.hintikka_game.specs.Weight.{weight};
ghost use Rattle.hintikka_game.specs.Wins.{wins, wins_by_turns};

use crate::position::Position;
use crate::rules;
use crate::turn::{Move, Moves, Turn};
use fol_core::{Sent, copy};
use std::alloc::{AllocError, Global};
use std::marker::Model;
use thiserror::Error;
use world_truth::{Places, TruthFault, truth};
use worlds::World;

/// Why a game refuses.
#[derive(Clone, Copy, Debug, PartialEq, Eq, Error)]
pub enum GameFault {
    /// The next move is the machine's, or a negation or a conditional makes it.
    #[error("it is not the player's turn")]
    NotYourTurn,
    /// There are only so many alternatives.
    #[error("the choice is not from 1 to {0}")]
    NoSuchChoice(u32),
    /// The game is over.
    #[error("the game is over")]
    Over,
    /// The player must choose.
    #[error("it is the player's turn")]
    NotMyTurn,
    /// The sentence has no value in the world.
    #[error("the sentence has no value: {0}")]
    Truth(TruthFault),
    /// Memory was refused.
    #[error("out of memory")]
    Memory,
}

/// A game about a sentence in a world. Contracts see the world, the opening position, and the moves that were made.
#[derive(Drop)]
pub struct Game<'w> {
    world: &'w World,
    opening: Position,
    moves: Moves,
    here: Position,
    turn: Turn,
    lost: Option<u32>,
    chosen: u32,
}

impl<'w> Model for Game<'w> {
    ghost use Rattle.hintikka_game.specs.Games.{Course, IsRunning};
    ghost use Rattle.fol_core.specs.contracts.sent.Sent as sentence_row;
    ghost use Rattle.std.specs.Coded.{codes};

    ghost Value = { Course };

    ghost coded = { Prim.hlevel (codes, sentence_row.the_row.coded) };

    ghost view = { λ g. record { world = g.world.now; opening = g.opening; made = g.moves } };

    ghost invariant = { λ g. IsRunning (record { world = g.world.now; opening = g.opening; made = g.moves }) g.here g.turn g.lost g.chosen };
}

impl<'w> Game<'w> {
    /// A game about the sentence, which the player holds to be what the commitment says.
    #[tactic(auto, using(crate::proofs::Winning::wins_is_kept, crate::proofs::Winning::wins_recursion))]
    pub fn start(
        alloc: Global,
        w: &'w World,
        s: &Sent,
        commitment: bool,
    ) -> Result<Game<'w>, GameFault>
        requires closed { IsTrue (closed s.now) }
        requires limits { within_limits s.now ≡ Ok tt }
        ensures value { IfOk result (λ g. g ≡ record { world = w.now; opening = opened s.now commitment; made = [] }) }
        ensures cause { IfErr result (λ e. HasStartCause w.now s.now e) }
        ensures truth { (f : TruthFault) → truth_of w.now s.now ≡ Err f → result ≡ Err (GameFault.Truth f) }

        // The player wins a position exactly where its commitment is the value.
        ensures wins { (p : Position) → wins w.now p ≡ is_value w.now p }
        ensures rules { (p : Position) → wins w.now p ≡ wins_by_turns w.now p }
    {
        if let Err(fault) = truth(w, s) {
            return Err(GameFault::Truth(fault));
        }
        match Game::begin(alloc, w, s, commitment) {
            Ok(game) => Ok(game),
            Err(AllocError) => Err(GameFault::Memory),
        }
    }

    /// The game before any move.
    #[tactic(auto, using(crate::proofs::Running::begun, crate::proofs::Running::wide_enough))]
    fn begin(
        alloc: Global,
        w: &'w World,
        s: &Sent,
        commitment: bool,
    ) -> Result<Game<'w>, AllocError>
        requires limits { within_limits s.now ≡ Ok tt }
        ensures value { IfOk result (λ g. g ≡ record { world = w.now; opening = opened s.now commitment; made = [] }) }
    {
        let opening = Position {
            sentence: copy(alloc, s)?,
            places: Places::new(alloc),
            commitment,
        };
        let here = opening.copied(alloc)?;
        let turn = rules::turn(alloc, w, &here)?;
        Ok(Game {
            world: w,
            opening,
            moves: Moves::new(alloc),
            here,
            turn,
            lost: None,
            chosen: 0,
        })
    }

    /// What comes next. It takes no memory.
    #[tactic(auto, using(crate::proofs::Running::never_over_won, crate::proofs::Running::is_short))]
    pub fn next(&self) -> Turn
        ensures value { result ≡ turn_in self.now }
        ensures never_won { is_value self.now.world self.now.opening ≡ false → result ≡ Turn.Over true → ⊥ }
        ensures play { IsPlay self.now.world self.now.opening self.now.made }
        ensures short { length self.now.made ≤ weight self.now.opening.sentence }
    {
        self.turn
    }

    /// The player chooses the alternative of this number, counted from 1.
    pub fn choose(&mut self, alloc: Global, n: u32) -> Result<(), GameFault>
        ensures fault { (e : GameFault) → choice_fault (turn_in self.old) n ≡ Some e → result ≡ Err e }
        ensures cause { IfErr result (λ e. (e ≡ GameFault.Memory) ⊎ (choice_fault (turn_in self.old) n ≡ Some e)) }
        ensures made { OnOk result (self.new ≡ with_moves self.old (Move.You n ∷ [])) }
        ensures refused { OnErr result (self.new ≡ self.old) }
    {
        match self.turn {
            Turn::Over(_) => Err(GameFault::Over),
            Turn::Machine(_) | Turn::Flip | Turn::Rewrite => Err(GameFault::NotYourTurn),
            Turn::You(count) => {
                if n == 0 || n > count {
                    return Err(GameFault::NoSuchChoice(count));
                }
                self.go_on(alloc, Move::You(n))
            }
        }
    }

    /// Makes the next move, where it isn't the player's.
    pub fn step(&mut self, alloc: Global) -> Result<(), GameFault>
        ensures fault { (e : GameFault) → step_fault (turn_in self.old) ≡ Some e → result ≡ Err e }
        ensures cause { IfErr result (λ e. (e ≡ GameFault.Memory) ⊎ (step_fault (turn_in self.old) ≡ Some e)) }
        ensures made { OnOk result (self.new ≡ with_moves self.old (forced (turn_in self.old))) }
        ensures refused { OnErr result (self.new ≡ self.old) }
    {
        match self.turn {
            Turn::Over(_) => Err(GameFault::Over),
            Turn::You(_) => Err(GameFault::NotMyTurn),
            Turn::Machine(n) => self.go_on(alloc, Move::Machine(n)),
            Turn::Flip => self.go_on(alloc, Move::Flip),
            Turn::Rewrite => self.go_on(alloc, Move::Rewrite),
        }
    }

    /// The player's first losing choice, counted among the player's choices from 1, of a game that is over and lost.
    /// It takes no memory.
    #[tactic(auto, using(crate::proofs::Running::lost_exactly))]
    pub fn first_losing(&self) -> Option<u32>
        ensures value { result ≡ first_losing_of self.now.world self.now.opening self.now.made }
        ensures exactly { IsSome result ↔ ((turn_in self.now ≡ Turn.Over false) × (is_value self.now.world self.now.opening ≡ true)) }
    {
        match self.turn {
            Turn::Over(false) => self.lost,
            _ => None,
        }
    }

    /// Whether the player must choose, or the game is over.
    pub(crate) fn is_settled(&self) -> bool
        ensures value { result ≡ is_settled_at (turn_in self.now) }
        ensures play { IsPlay self.now.world self.now.opening self.now.made }
    {
        match self.turn {
            Turn::You(_) | Turn::Over(_) => true,
            Turn::Machine(_) | Turn::Flip | Turn::Rewrite => false,
        }
    }

    /// The moves that were made.
    pub(crate) fn into_moves(self) -> Moves
        ensures value { result ≡ self.entry.made }
    {
        let Game { moves, .. } = self;
        moves
    }

    /// Makes a move that the turn allows. Where memory is refused, nothing changes.
    fn go_on(&mut self, alloc: Global, made: Move) -> Result<(), GameFault>
        requires allowed { IsAllowed (turn_in self.old) made }
        ensures made { OnOk result (self.new ≡ with_moves self.old (made ∷ [])) }
        ensures refused { OnErr result (self.new ≡ self.old) }
        ensures memory { IfErr result (λ e. e ≡ GameFault.Memory) }
    {
        match self.advance(alloc, made) {
            Ok(()) => Ok(()),
            Err(AllocError) => Err(GameFault::Memory),
        }
    }

    /// Makes a move that the turn allows. Where memory is refused, nothing changes.
    #[tactic(auto, using(crate::proofs::Running::takes_one))]
    fn advance(&mut self, alloc: Global, made: Move) -> Result<(), AllocError>
        requires allowed { IsAllowed (turn_in self.old) made }
        ensures made { OnOk result (self.new ≡ with_moves self.old (made ∷ [])) }
        ensures refused { OnErr result (self.new ≡ self.old) }
    {
        let next = rules::alternative(alloc, self.world, &self.here, made.taken())?;
        let turn = rules::turn(alloc, self.world, &next)?;
        self.moves.add(made)?;
        let losing = is_losing(self.world, made, &self.here, &next);
        self.lost = or_losing(self.lost, losing, self.chosen + 1);
        self.chosen += made.choices();
        self.here = next;
        self.turn = turn;
        Ok(())
    }
}

/// Whether the move is a choice of the player between a position whose commitment is the value and one whose isn't.
fn is_losing(world: &World, made: Move, here: &Position, next: &Position) -> bool
    ensures value { result ≡ (plays.is_choice made && (is_value world.now here.now && not (is_value world.now next.now))) }
{
    made.is_choice() && here.is_kept(world) && !next.is_kept(world)
}

/// The first losing choice, where the next choice has this number.
fn or_losing(lost: Option<u32>, losing: bool, number: u32) -> Option<u32>
    ensures value { result ≡ plays.or_losing lost losing number }
{
    match lost {
        Some(earlier) => Some(earlier),
        None if losing => Some(number),
        None => None,
    }
}
