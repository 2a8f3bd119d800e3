ghost use Rattle.std.specs.Prelude.{◌≡◌, ◌+◌, length, map};
ghost use Rattle.std.specs.List.{list_all, list_any};
ghost use Rattle.worlds.specs.Predicates as predicates;
ghost use Rattle.worlds.specs.Assignments.{own_names, put, block_of as stands_for};
ghost use Rattle.worlds.specs.inside.Extensions.{IsExtension};
ghost use Rattle.worlds.specs.Worlds.{numbers};
ghost use Rattle.world_truth.specs.Places.{given};
ghost use Rattle.worlds.specs.Truth as truth;

use crate::answer::Place;
use crate::bound::{Bound, number};
use crate::extension::tabulate;
use crate::extent::Extent;
use crate::table::Table;
use bit_sets::BitSet;
use fol_core::{Ident, Sent, Term};
use worlds::{Block, World, block_count, predicate_of};

/// The value of the sentence in the world, where the given places and the world's own names say what each term stands for. It
/// takes no memory.
#[cycle(value)]
#[tactic(auto, using(crate::proofs::Forms::val_and, crate::proofs::Forms::val_or))]
pub(crate) fn value(s: &Sent, world: &World, places: &[Place]) -> bool
    ensures value { result ≡ truth.val world.now (given places.now (own_names world.now)) s.now }
{
    match s {
        Sent::Atom(p, terms) => holds(p, terms.as_slice(), world, places),
        Sent::Eq(a, b) => number(a, world, places) == number(b, world, places),
        Sent::Bottom => false,
        Sent::Not(a) => !value(a.get(), world, places),
        Sent::And(parts) => are_all_true(parts.as_slice(), world, places),
        Sent::Or(parts) => is_one_true(parts.as_slice(), world, places),
        Sent::If(a, b) => !value(a.get(), world, places) || value(b.get(), world, places),
        Sent::Iff(a, b) => are_alike(value(a.get(), world, places), value(b.get(), world, places)),
        Sent::All(x, a) => is_true_of_all(x, a.get(), world, places),
        Sent::Ex(x, a) => is_true_of_some(x, a.get(), world, places),
    }
}

#[cycle(value)]
fn are_all_true(parts: &[Sent], world: &World, places: &[Place]) -> bool
    ensures value { result ≡ list_all (truth.val world.now (given places.now (own_names world.now))) parts.now }
{
    for part in parts {
        if !value(part, world, places) {
            return false;
        }
    }
    true
}

#[cycle(value)]
fn is_one_true(parts: &[Sent], world: &World, places: &[Place]) -> bool
    ensures value { result ≡ list_any (truth.val world.now (given places.now (own_names world.now))) parts.now }
{
    for part in parts {
        if value(part, world, places) {
            return true;
        }
    }
    false
}

/// Whether the sentence is true with the variable for each block.
fn is_true_of_all(x: &Ident, s: &Sent, world: &World, places: &[Place]) -> bool
    ensures value { result ≡ list_all (λ k. truth.val world.now (put x.now k (given places.now (own_names world.now))) s.now) (numbers world.now) }
{
    blocks_for(x, s, world, places).has_all_of(block_count(world))
}

/// Whether the sentence is true with the variable for some block.
fn is_true_of_some(x: &Ident, s: &Sent, world: &World, places: &[Place]) -> bool
    ensures value { result ≡ list_any (λ k. truth.val world.now (put x.now k (given places.now (own_names world.now))) s.now) (numbers world.now) }
{
    blocks_for(x, s, world, places).has_one_of(block_count(world))
}

/// The blocks for which the sentence is true where the variable stands for them.
fn blocks_for(x: &Ident, s: &Sent, world: &World, places: &[Place]) -> BitSet
    ensures value { IsExtension (length world.now) (λ c. truth.val world.now (put x.now (c + 1) (given places.now (own_names world.now))) s.now) result.bits }
{
    let count = block_count(world);
    if count == 0 {
        return BitSet::EMPTY;
    }
    let mut table = Table::EMPTY;
    let given = Bound::Given(&*places);
    let row = Extent {
        rows: 1,
        columns: count,
    };
    tabulate(&mut table, s, world, &Bound::ByColumn(&*x, &given), row);
    table.row(0)
}

fn are_alike(a: bool, b: bool) -> bool
    ensures value { result ≡ truth.are_alike a b }
{
    if a { b } else { !b }
}

/// Whether the predicate is one of the blocks language and holds of what the terms stand for.
fn holds(p: &Ident, terms: &[Term], world: &World, places: &[Place]) -> bool
    ensures value { result ≡ predicates.is_true_of (predicates.predicate_of p.now) (map (stands_for world.now (given places.now (own_names world.now))) terms.now) }
{
    let Some(predicate) = predicate_of(p.as_slice()) else {
        return false;
    };
    match terms {
        [t] => match block_of(t, world, places) {
            Some(b) => predicate.says_of_one(&b),
            None => false,
        },
        [t, u] => match (block_of(t, world, places), block_of(u, world, places)) {
            (Some(b), Some(c)) => predicate.says_of_two(&b, &c),
            _ => false,
        },
        [t, u, v] => match (
            block_of(t, world, places),
            block_of(u, world, places),
            block_of(v, world, places),
        ) {
            (Some(b), Some(c), Some(d)) => predicate.says_of_three(&b, &c, &d),
            _ => false,
        },
        _ => false,
    }
}

/// The block that the term stands for.
fn block_of(t: &Term, world: &World, places: &[Place]) -> Option<Block>
    ensures value { result ≡ stands_for world.now (given places.now (own_names world.now)) t.now }
{
    world.block(number(t, world, places))
}
