ghost use Rattle.std.specs.Prelude.{◌≡◌, ◌≤◌, ◌-◌, length, get_or, not, IfOk};
ghost use Rattle.hintikka_game.specs.Positions as positions;
ghost use Rattle.hintikka_game.specs.Turns as turns;
ghost use Rattle.hintikka_game.specs.Width.{widest};

use crate::position::Position;
use crate::turn::Turn;
use fol_core::Sent;
use std::alloc::{AllocError, Global};
use worlds::{World, block_count};

/// What comes next in the position.
#[tactic(auto, using(crate::proofs::Choosing::other_side))]
pub(crate) fn turn(alloc: Global, world: &World, p: &Position) -> Result<Turn, AllocError>
    requires narrow { widest p.now.sentence ≤ 4294967295 }
    ensures value { IfOk result (λ t. t ≡ turns.turn_of world.now p.now) }
{
    match &p.sentence {
        Sent::Atom(_, _) | Sent::Eq(_, _) | Sent::Bottom => Ok(Turn::Over(p.is_kept(world))),
        Sent::Not(_) => Ok(Turn::Flip),
        Sent::If(_, _) | Sent::Iff(_, _) => Ok(Turn::Rewrite),
        Sent::Or(_) | Sent::Ex(_, _) => choice(alloc, world, p, p.commitment),
        Sent::And(_) | Sent::All(_, _) => choice(alloc, world, p, !p.commitment),
    }
}

/// What comes next where the player, or else the machine, must choose.
#[tactic(auto, using(crate::proofs::Choosing::turn_none, crate::proofs::Choosing::turn_you, crate::proofs::Choosing::turn_machine))]
fn choice(alloc: Global, world: &World, p: &Position, by_player: bool) -> Result<Turn, AllocError>
    requires narrow { widest p.now.sentence ≤ 4294967295 }
    ensures value { IfOk result (λ t. t ≡ turns.turn_by world.now p.now (positions.verifier by_player) (positions.nexts world.now p.now)) }
{
    let count = alternatives(world, p);
    if count == 0 {
        return Ok(Turn::Over(!by_player));
    }
    if by_player {
        return Ok(Turn::You(count));
    }
    Ok(Turn::Machine(machine_choice(alloc, world, p, count)?))
}

/// The number of alternatives.
#[tactic(auto, using(crate::proofs::Choosing::count_parts, crate::proofs::Choosing::count_blocks, crate::proofs::Choosing::wide_and, crate::proofs::Choosing::wide_or))]
fn alternatives(world: &World, p: &Position) -> u32
    requires narrow { widest p.now.sentence ≤ 4294967295 }
    ensures value { result ≡ length (positions.nexts world.now p.now) }
{
    match &p.sentence {
        Sent::Atom(_, _) | Sent::Eq(_, _) | Sent::Bottom => 0,
        Sent::Not(_) | Sent::If(_, _) | Sent::Iff(_, _) => 1,
        Sent::And(parts) | Sent::Or(parts) => parts.as_slice().len() as u32,
        Sent::All(_, _) | Sent::Ex(_, _) => block_count(world),
    }
}

/// The least alternative that the player doesn't win, else alternative 1.
#[tactic(auto, using(crate::proofs::Choosing::not_found, crate::proofs::Choosing::is_found, crate::proofs::Choosing::none_found))]
fn machine_choice(alloc: Global, world: &World, p: &Position, count: u32) -> Result<u32, AllocError>
    requires all { count ≡ length (positions.nexts world.now p.now) }
    ensures value { IfOk result (λ n. n ≡ turns.machine_choice world.now (positions.nexts world.now p.now)) }
{
    for before in 0..count {
        if is_lost(alloc, world, p, before + 1)? {
            return Ok(before + 1);
        }
    }
    Ok(1)
}

/// Whether the player doesn't win the alternative of this number.
fn is_lost(alloc: Global, world: &World, p: &Position, n: u32) -> Result<bool, AllocError>
    requires first { 1 ≤ n }
    requires last { n ≤ length (positions.nexts world.now p.now) }
    ensures value { IfOk result (λ b. b ≡ not (positions.is_kept world.now (get_or (positions.nexts world.now p.now) (n - 1) p.now))) }
{
    let next = alternative(alloc, world, p, n)?;
    Ok(!next.is_kept(world))
}

/// The position after the alternative of this number.
#[tactic(auto, using(crate::proofs::Choosing::all_block, crate::proofs::Choosing::ex_block, crate::proofs::Choosing::and_part, crate::proofs::Choosing::or_part, crate::proofs::Choosing::count_parts))]
pub(crate) fn alternative(
    alloc: Global,
    world: &World,
    p: &Position,
    n: u32,
) -> Result<Position, AllocError>
    requires first { 1 ≤ n }
    requires last { n ≤ length (positions.nexts world.now p.now) }
    ensures value { IfOk result (λ q. q ≡ get_or (positions.nexts world.now p.now) (n - 1) p.now) }
{
    match &p.sentence {
        Sent::Atom(_, _) | Sent::Eq(_, _) | Sent::Bottom => p.copied(alloc),
        Sent::Not(s) => p.flipped(alloc, s.get()),
        Sent::If(s, t) => p.with_if(alloc, s.get(), t.get()),
        Sent::Iff(s, t) => p.with_iff(alloc, s.get(), t.get()),
        Sent::And(parts) => p.at(alloc, &parts.as_slice()[(n - 1) as usize]),
        Sent::Or(parts) => p.at(alloc, &parts.as_slice()[(n - 1) as usize]),
        Sent::All(x, s) => p.with_block(alloc, x, s.get(), n),
        Sent::Ex(x, s) => p.with_block(alloc, x, s.get(), n),
    }
}
