ghost use Rattle.std.specs.Prelude.{◌≡◌, ◌<◌, ◌≤◌, ◌+◌, ◌*◌, length};
ghost use Rattle.std.specs.List.{range_with_len};
ghost use Rattle.bit_sets.specs.BitSets.{has};
ghost use Rattle.worlds.specs.inside.Extensions.{IsExtension};
ghost use Rattle.world_truth.specs.inside.Digits.{digit_of};
ghost use Rattle.world_truth.specs.inside.Relations.{relates};
ghost use Rattle.world_truth.specs.inside.Tables.{joined, AreGathered};

use crate::junction::Junction;
use crate::relation::Relation;
use bit_sets::BitSet;
use worlds::{World, block_count};

/// The columns, among the first ones, whose digit of this place value is that of a block in the set.
pub(crate) fn spread(set: BitSet, stride: u32, count: u32, columns: u32) -> BitSet
    requires some { 0 < count }
    requires few { count ≤ 64 }
    requires narrow { columns ≤ 64 }
    ensures value { IsExtension columns (λ c. has set.bits (digit_of count stride c)) result.bits }
{
    if stride == 0 || stride >= 64 {
        BitSet::all_or_none(set.has(0))
    } else if stride == 1 && columns <= count {
        set
    } else {
        spread_in_runs(set, stride, count, columns)
    }
}

/// The same, found for a run of columns at a time, in which the digit is the same, from the last run on.
fn spread_in_runs(set: BitSet, stride: u32, count: u32, columns: u32) -> BitSet
    requires some { 0 < count }
    requires few { count ≤ 64 }
    requires narrow { columns ≤ 64 }
    requires long { 0 < stride }
    requires short { stride < 64 }
    ensures value { IsExtension columns (λ c. has set.bits (digit_of count stride c)) result.bits }
{
    let runs = columns / stride + 1;
    let run = BitSet::before(stride);
    let mut spread = BitSet::EMPTY;
    for done in 0..runs {
        let is_in = set.has((runs - 1 - done) % count);
        let here = BitSet::all_or_none(is_in).intersection(run);
        spread = spread.moved(stride).union(here);
    }
    spread
}

/// The columns, among the first ones, in which the block of the one digit stands so to the block of the other.
pub(crate) fn spread_pairs(
    relation: Relation,
    first: u32,
    second: u32,
    world: &World,
    columns: u32,
) -> BitSet
    requires some { 0 < length world.now }
    requires narrow { columns ≤ 64 }
    ensures value { IsExtension columns (λ c. relates world.now relation (digit_of (length world.now) first c + 1) (digit_of (length world.now) second c + 1)) result.bits }
{
    let count = block_count(world);
    let mut pairs = BitSet::EMPTY;
    for place in 0..count {
        let related = spread(relation.related(place + 1, world), first, count, columns);
        let here = spread(BitSet::only(place), second, count, columns);
        pairs = pairs.union(related.intersection(here));
    }
    pairs
}

/// In each of the first columns what the junction makes of a group of columns of the set, so many to a group, one group after
/// the other.
pub(crate) fn gathered(junction: Junction, set: BitSet, columns: u32, count: u32) -> BitSet
    requires narrow { columns * count ≤ 64 }
    requires some { 0 < count }
    ensures value { AreGathered junction columns count set.bits result.bits }
{
    let mut gathered = BitSet::EMPTY;
    for column in 0..columns {
        gathered = gathered.with(column, joined_from(junction, set, column * count, count));
    }
    gathered
}

/// What the junction makes of so many columns from the first one.
fn joined_from(junction: Junction, set: BitSet, first: u32, count: u32) -> bool
    requires { first + count ≤ 64 }
    ensures value { result ≡ joined junction (λ m. has set.bits (first + m)) (range_with_len 0 count) }
{
    let mut value = junction.value_of_none();
    for before in 0..count {
        value = junction.join_two(value, set.has(first + before));
    }
    value
}
