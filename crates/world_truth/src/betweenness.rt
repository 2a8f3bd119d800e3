ghost use Rattle.std.specs.Prelude.{◌≡◌, ◌+◌, ◌<◌, ◌≤◌, ℕ, true, List, length, [], ◌∷◌, IfSome, None, Some};
ghost use Rattle.worlds.specs.declared.block.Block.{Block as Standing};
ghost use Rattle.worlds.specs.declared.predicate.Predicate.TheVariants.{Between};
ghost use Rattle.bit_sets.specs.BitSets.{has};
ghost use Rattle.world_truth.specs.inside.BoardLines.{line_at, AreLines};
ghost use Rattle.worlds.specs.Predicates.{says};
ghost use Rattle.worlds.specs.Scales.{IsSetOf};
ghost use Rattle.world_truth.specs.inside.Tables.{bits_in};
ghost use Rattle.worlds.specs.Worlds.{block_at};

use crate::table::Table;
use bit_sets::BitSet;
use worlds::{Measure, World, block_count};

/// The blocks that stand between the blocks of the two numbers.
pub(crate) fn between(world: &World, m: u32, n: u32) -> BitSet
    ensures value { IsSetOf world.now (λ b. says Between (Some b ∷ block_at world.now m ∷ block_at world.now n ∷ [])) result.bits }
{
    match place_of(world, m) {
        Some(place) => lines_of(world, n).between(place),
        None => BitSet::EMPTY,
    }
}

/// The blocks for which the block of the first number stands between them and that of the second.
pub(crate) fn beyond(world: &World, m: u32, n: u32) -> BitSet
    ensures value { IsSetOf world.now (λ c. says Between (block_at world.now m ∷ Some c ∷ block_at world.now n ∷ [])) result.bits }
{
    match place_of(world, n) {
        Some(place) => lines_of(world, m).around(place),
        None => BitSet::EMPTY,
    }
}

/// The place of the block of the number in the order of the blocks, from 0: none where there is no such block.
fn place_of(world: &World, number: u32) -> Option<u32>
    ensures some { IfSome result (λ place. (place < length world.now) × (block_at world.now (place + 1) ≡ block_at world.now number)) }
    ensures none { result ≡ None → block_at world.now number ≡ None }
    ensures few { length world.now ≤ 64 }
{
    let place = number.saturating_sub(1);
    if place < block_count(world) {
        Some(place)
    } else {
        None
    }
}

/// The lines through the block of the number.
fn lines_of(world: &World, number: u32) -> Lines
    ensures value { AreLines world.now number result }
    ensures low { result.place < 64 }
{
    match world.blocks().get((number as usize).saturating_sub(1)) {
        Some(b) => {
            let row = world.same(Measure::Row, Measure::Row.of(b));
            let column = world.same(Measure::Column, Measure::Column.of(b));
            let rising = world.same(Measure::Rising, Measure::Rising.of(b));
            let falling = world.same(Measure::Falling, Measure::Falling.of(b));
            Lines {
                place: number.saturating_sub(1),
                all: row.union(column).union(rising).union(falling),
                row,
                column,
                rising,
                falling,
            }
        }
        None => Lines::EMPTY,
    }
}
/// The four lines of the board through one block: the place of the block, and the sets of the blocks in all four and in each.
/// A line has its blocks in the order of their places, since the blocks of a world come in the order of their squares.
#[derive(Clone, Copy)]
pub struct Lines {
    place: u32,
    all: BitSet,
    row: BitSet,
    column: BitSet,
    rising: BitSet,
    falling: BitSet,
}

impl Lines {
    /// Lines with no blocks in them.
    const EMPTY: Lines = Lines {
        place: 0,
        all: BitSet::EMPTY,
        row: BitSet::EMPTY,
        column: BitSet::EMPTY,
        rising: BitSet::EMPTY,
        falling: BitSet::EMPTY,
    };

    /// The blocks in the line that has the other place in it.
    fn through(self, other: u32) -> BitSet
        requires within { other < 64 }
        requires here { has self.all.bits other ≡ true }
        ensures value { result.bits ≡ line_at self other }
    {
        if self.row.has(other) {
            self.row
        } else if self.column.has(other) {
            self.column
        } else if self.rising.has(other) {
            self.rising
        } else {
            self.falling
        }
    }

    /// The blocks that stand between the block at the other place and the one of the lines.
    fn between(self, other: u32) -> BitSet
        requires low { self.place < 64 }
        requires within { other < 64 }
        ensures value { (w : List Standing) (n : ℕ) → AreLines w n self → other < length w → IsSetOf w (λ b. says Between (Some b ∷ block_at w (other + 1) ∷ block_at w n ∷ [])) result.bits }
    {
        if self.all.has(other) {
            self.through(other)
                .intersection(BitSet::inside(other, self.place))
        } else {
            BitSet::EMPTY
        }
    }

    /// The blocks for which the block of the lines stands between them and the one at the other place.
    fn around(self, other: u32) -> BitSet
        requires low { self.place < 64 }
        requires within { other < 64 }
        ensures value { (w : List Standing) (n : ℕ) → AreLines w n self → other < length w → IsSetOf w (λ b. says Between (block_at w n ∷ Some b ∷ block_at w (other + 1) ∷ [])) result.bits }
    {
        if self.all.has(other) {
            self.through(other)
                .intersection(BitSet::beyond(self.place, other))
        } else {
            BitSet::EMPTY
        }
    }

    /// The blocks for which the block at the other place stands between them and the one of the lines.
    fn behind(self, other: u32) -> BitSet
        requires low { self.place < 64 }
        requires within { other < 64 }
        ensures value { (w : List Standing) (n : ℕ) → AreLines w n self → other < length w → IsSetOf w (λ b. says Between (block_at w (other + 1) ∷ Some b ∷ block_at w n ∷ [])) result.bits }
    {
        if self.all.has(other) {
            self.through(other)
                .intersection(BitSet::beyond(other, self.place))
        } else {
            BitSet::EMPTY
        }
    }
}

/// Writes for each block, from the first row on, the blocks that stand between it and the one of the number.
pub(crate) fn put_between(sets: &mut Table, first: u32, number: u32, world: &World)
    requires few { first + length world.now ≤ 512 }
    ensures value { (m : ℕ) → m < length world.now → IsSetOf world.now (λ b. says Between (Some b ∷ block_at world.now (m + 1) ∷ block_at world.now number ∷ [])) (bits_in sets.new (first + m)) }
    ensures elsewhere { (r : ℕ) → r < first → bits_in sets.new r ≡ bits_in sets.old r }
{
    let lines = lines_of(world, number);
    for place in 0..block_count(world) {
        sets.put(first + place, lines.between(place));
    }
}

/// Writes for each block, from the first row on, the blocks for which the one of the number stands between them and it.
pub(crate) fn put_around(sets: &mut Table, first: u32, number: u32, world: &World)
    requires few { first + length world.now ≤ 512 }
    ensures value { (m : ℕ) → m < length world.now → IsSetOf world.now (λ b. says Between (block_at world.now number ∷ Some b ∷ block_at world.now (m + 1) ∷ [])) (bits_in sets.new (first + m)) }
    ensures elsewhere { (r : ℕ) → r < first → bits_in sets.new r ≡ bits_in sets.old r }
{
    let lines = lines_of(world, number);
    for place in 0..block_count(world) {
        sets.put(first + place, lines.around(place));
    }
}

/// Writes for each block, from the first row on, the blocks for which it stands between them and the one of the number.
pub(crate) fn put_behind(sets: &mut Table, first: u32, number: u32, world: &World)
    requires few { first + length world.now ≤ 512 }
    ensures value { (m : ℕ) → m < length world.now → IsSetOf world.now (λ b. says Between (block_at world.now (m + 1) ∷ Some b ∷ block_at world.now number ∷ [])) (bits_in sets.new (first + m)) }
    ensures elsewhere { (r : ℕ) → r < first → bits_in sets.new r ≡ bits_in sets.old r }
{
    let lines = lines_of(world, number);
    for place in 0..block_count(world) {
        sets.put(first + place, lines.behind(place));
    }
}
