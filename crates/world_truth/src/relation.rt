ghost use Rattle.std.specs.Prelude.{◌≡◌, ◌<◌, ◌≤◌, ◌+◌, ◌==◌, ℕ, List, length, [], ◌∷◌};
ghost use Rattle.worlds.specs.declared.block.Block.{Block as Standing};
ghost use Rattle.worlds.specs.declared.predicate.Predicate.TheVariants.{Between as StandsBetween};
ghost use Rattle.bit_sets.specs.BitSets.{has};
ghost use Rattle.worlds.specs.inside.Extensions.{IsExtension};
ghost use Rattle.worlds.specs.Predicates.{says};
ghost use Rattle.world_truth.specs.inside.Referents.{ArePairs};
ghost use Rattle.world_truth.specs.inside.Relations.{about, relates};
ghost use Rattle.world_truth.specs.inside.Tables.{bits_in};
ghost use Rattle.worlds.specs.Worlds.{block_at};

use crate::betweenness::{between, beyond, put_around, put_behind, put_between};
use crate::table::Table;
use bit_sets::BitSet;
use worlds::{Predicate, World, block_count, is_between};

/// What is said of two blocks.
#[derive(Clone, Copy)]
pub enum Relation {
    /// That both are one.
    Same,
    /// What the predicate says of them.
    Says(Predicate),
    /// That the first stands between the second and the block of the number.
    Between(u32),
    /// That the second stands between the first and the block of the number.
    Behind(u32),
    /// That the block of the number stands between them.
    Around(u32),
}

impl Relation {
    /// What says the same of the two the other way round.
    pub(crate) fn converse(self) -> Relation
        ensures value { (w : List Standing) (m n : ℕ) → relates w result m n ≡ relates w self n m }
    {
        match self {
            Relation::Same => Relation::Same,
            Relation::Says(predicate) => Relation::Says(predicate.converse()),
            Relation::Between(number) => Relation::Behind(number),
            Relation::Behind(number) => Relation::Between(number),
            Relation::Around(number) => Relation::Around(number),
        }
    }

    /// The same with another third block, if it is about one.
    pub(crate) fn about(self, number: u32) -> Relation
        ensures value { result ≡ about self number }
    {
        match self {
            Relation::Same | Relation::Says(_) => self,
            Relation::Between(_) => Relation::Between(number),
            Relation::Behind(_) => Relation::Behind(number),
            Relation::Around(_) => Relation::Around(number),
        }
    }

    /// Whether it is true of the blocks of the two numbers.
    pub(crate) fn holds(self, m: u32, n: u32, world: &World) -> bool
        ensures value { result ≡ relates world.now self m n }
    {
        match self {
            Relation::Same => m == n,
            Relation::Says(predicate) => match (world.block(m), world.block(n)) {
                (Some(b), Some(c)) => predicate.says_of_two(&b, &c),
                _ => false,
            },
            Relation::Between(number) => stands_between(m, n, number, world),
            Relation::Behind(number) => stands_between(n, m, number, world),
            Relation::Around(number) => stands_between(number, m, n, world),
        }
    }

    /// The blocks that stand so to the one of the number.
    pub(crate) fn related(self, n: u32, world: &World) -> BitSet
        ensures value { IsExtension (length world.now) (λ k. relates world.now self (k + 1) n) result.bits }
    {
        match self {
            Relation::Same => block_of(n),
            Relation::Says(predicate) => world.related(predicate, n),
            Relation::Between(number) => between(world, n, number),
            Relation::Behind(number) => beyond(world, n, number),
            Relation::Around(number) => beyond(world, number, n),
        }
    }
}

/// Whether the block of the first number stands between those of the two others.
pub(crate) fn stands_between(k: u32, m: u32, n: u32, world: &World) -> bool
    ensures value { result ≡ says StandsBetween (block_at world.now k ∷ block_at world.now m ∷ block_at world.now n ∷ []) }
{
    match (world.block(k), world.block(m), world.block(n)) {
        (Some(b), Some(c), Some(d)) => is_between(&b, &c, &d),
        _ => false,
    }
}

/// The block of the number, if there is one.
fn block_of(number: u32) -> BitSet
    ensures value { (k : ℕ) → k < 64 → has result.bits k ≡ (k + 1 == number) }
{
    if 0 < number && number <= 64 {
        BitSet::only(number - 1)
    } else {
        BitSet::EMPTY
    }
}

/// From the row on, for each block those that stand so to it.
pub(crate) fn relate(sets: &mut Table, first: u32, relation: Relation, world: &World)
    requires few { first + length world.now ≤ 512 }
    ensures value { ArePairs world.now relation first sets.new }
    ensures before { (r : ℕ) → r < first → bits_in sets.new r ≡ bits_in sets.old r }
{
    match relation {
        Relation::Between(number) => put_between(sets, first, number, world),
        Relation::Behind(number) => put_behind(sets, first, number, world),
        Relation::Around(number) => put_around(sets, first, number, world),
        Relation::Same | Relation::Says(_) => relate_each(sets, first, relation, world),
    }
}

/// The same, found for one block after the other.
fn relate_each(sets: &mut Table, first: u32, relation: Relation, world: &World)
    requires few { first + length world.now ≤ 512 }
    ensures value { ArePairs world.now relation first sets.new }
    ensures before { (r : ℕ) → r < first → bits_in sets.new r ≡ bits_in sets.old r }
{
    for place in 0..block_count(world) {
        sets.put(first + place, relation.related(place + 1, world));
    }
}
