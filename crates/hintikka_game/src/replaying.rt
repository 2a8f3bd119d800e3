ghost use Rattle.std.specs.Prelude.{◌≡◌, ◌↔◌, ◌⊎◌, ◌∷◌, ◌≤◌, [], true, false, length, Some, Ok, Err, IfOk, IfErr, IsSome, IsTrue, OnOk};
ghost use Rattle.fol_core.specs.Closed.{closed};
ghost use Rattle.fol_core.specs.Size.{within_limits};
ghost use Rattle.world_truth.specs.Answers.{truth_of};
ghost use Rattle.world_truth.specs.declared.answer.TruthFault.{TruthFault};
ghost use Rattle.hintikka_game.specs.declared.turn.Move.TheVariants as moves;
ghost use Rattle.hintikka_game.specs.Games.{IsSettled, WentOn, opened, turn_in, with_moves};
ghost use Rattle.hintikka_game.specs.Positions.{is_kept as is_value};
ghost use Rattle.hintikka_game.specs.Refusals.{choice_fault};
ghost use Rattle.hintikka_game.specs.Replays.{EndsAs, HasReplayCause, IsReplay};
ghost use Rattle.hintikka_game.specs.Turns.{is_settled as is_settled_at};
ghost use Rattle.hintikka_game.specs.Weight.{weight};

use crate::game::{Game, GameFault};
use crate::turn::{Moves, Turn};
use fol_core::Sent;
use std::alloc::Global;
use worlds::World;

/// How a replay ends.
#[derive(Clone, Copy, Debug, PartialEq, Eq)]
pub enum PlayEnd {
    /// The player has won.
    Won,
    /// The player has lost.
    Lost,
    /// The player must choose among so many alternatives.
    Waiting(u32),
}

/// A replay.
#[derive(Debug, Drop)]
pub struct Played {
    pub moves: Moves,
    pub end: PlayEnd,
    /// The player's first losing choice, counted among the player's choices from 1, where the game is lost.
    pub first_losing: Option<u32>,
}

/// Plays a game with the player's choices, and makes each move that is not the player's.
#[tactic(auto, using(crate::proofs::Repeating::replayed, crate::proofs::Repeating::replay_is_short))]
pub fn replay(
    alloc: Global,
    w: &World,
    s: &Sent,
    commitment: bool,
    choices: &[u32],
) -> Result<Played, GameFault>
    requires closed { IsTrue (closed s.now) }
    requires limits { within_limits s.now ≡ Ok tt }
    ensures play { IfOk result (λ played. IsReplay w.now (opened s.now commitment) choices.now played) }
    ensures cause { IfErr result (λ e. HasReplayCause w.now (opened s.now commitment) choices.now e) }
    ensures truth { (f : TruthFault) → truth_of w.now s.now ≡ Err f → result ≡ Err (GameFault.Truth f) }

    // Where the opening commitment is false, no play ends won.
    ensures never_won { IfOk result (λ played. is_value w.now (opened s.now commitment) ≡ false → played.end ≡ PlayEnd.Won → ⊥) }

    // A lost play whose opening commitment was the value has a first losing choice, and no other play has one.
    ensures losing { IfOk result (λ played. IsSome played.first_losing ↔ ((played.end ≡ PlayEnd.Lost) × (is_value w.now (opened s.now commitment) ≡ true))) }
    ensures short { IfOk result (λ played. length played.moves ≤ weight s.now) }
{
    let game = play(alloc, w, s, commitment, choices)?;
    let end = end_at(game.next());
    let first_losing = game.first_losing();
    Ok(Played {
        moves: game.into_moves(),
        end,
        first_losing,
    })
}

/// How a play ends that stands at this turn, where no move is made without the player.
fn end_at(turn: Turn) -> PlayEnd
    requires settled { IsTrue (is_settled_at turn) }
    ensures end { EndsAs turn result }
{
    match turn {
        Turn::Over(true) => PlayEnd::Won,
        Turn::You(count) => PlayEnd::Waiting(count),
        _ => PlayEnd::Lost,
    }
}

/// The game in which the player has made these choices.
#[tactic(auto, using(crate::proofs::Repeating::stopped_at))]
fn play<'w>(
    alloc: Global,
    w: &'w World,
    s: &Sent,
    commitment: bool,
    choices: &[u32],
) -> Result<Game<'w>, GameFault>
    requires closed { IsTrue (closed s.now) }
    requires limits { within_limits s.now ≡ Ok tt }
    ensures settled { IfOk result (λ g. IsSettled w.now (opened s.now commitment) choices.now g) }
    ensures cause { IfErr result (λ e. HasReplayCause w.now (opened s.now commitment) choices.now e) }
    ensures truth { (f : TruthFault) → truth_of w.now s.now ≡ Err f → result ≡ Err (GameFault.Truth f) }
{
    let mut game = Game::start(alloc, w, s, commitment)?;
    settle(alloc, &mut game)?;
    for choice in choices {
        play_on(alloc, &mut game, *choice)?;
    }
    Ok(game)
}

/// Makes the player's choice, and then moves until the player must choose again or the game is over.
fn play_on(alloc: Global, game: &mut Game<'_>, choice: u32) -> Result<(), GameFault>
    ensures went_on { OnOk result (WentOn (with_moves game.old (moves.You choice ∷ [])) game.new) }
    ensures settled { OnOk result (IsTrue (is_settled_at (turn_in game.new))) }
    ensures cause { IfErr result (λ e. (e ≡ GameFault.Memory) ⊎ (choice_fault (turn_in game.old) choice ≡ Some e)) }
{
    game.choose(alloc, choice)?;
    settle(alloc, game)
}

/// Makes moves until the player must choose or the game is over.
#[tactic(auto, using(crate::proofs::Repeating::forced_lighter, crate::proofs::Repeating::forced_chosen))]
fn settle(alloc: Global, game: &mut Game<'_>) -> Result<(), GameFault>
    ensures went_on { OnOk result (WentOn game.old game.new) }
    ensures settled { OnOk result (IsTrue (is_settled_at (turn_in game.new))) }
    ensures memory { IfErr result (λ e. e ≡ GameFault.Memory) }
{
    let mut waits = game.is_settled();
    while !waits {
        game.step(alloc)?;
        waits = game.is_settled();
    }
    Ok(())
}
