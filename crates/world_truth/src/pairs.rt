ghost use Rattle.std.specs.Prelude.{◌≡◌, ◌<◌, ◌≤◌, ◌+◌, ℕ, length};
ghost use Rattle.bit_sets.specs.BitSets.{has};
ghost use Rattle.world_truth.specs.inside.Digits.{digit_of};
ghost use Rattle.world_truth.specs.inside.Referents.{value_by, ArePairsInColumns};
ghost use Rattle.world_truth.specs.inside.Tables.{bits_in, AreExtensions};
ghost use Rattle.world_truth.specs.declared.atomic.Atomic.TheVariants.{One, Two};
ghost use Rattle.world_truth.specs.declared.digits.Referent.TheVariants as ref;

use crate::atomic::Atomic;
use crate::columns::spread;
use crate::digits::{Referent, digit};
use crate::extent::Extent;
use crate::relation::{Relation, relate};
use crate::table::Table;
use bit_sets::BitSet;
use worlds::{Predicate, World, block_count};

/// Writes into the first rows and columns of the table whether the predicate is true of what the term stands for.
pub(crate) fn tabulate_one(
    table: &mut Table,
    predicate: Predicate,
    s: Referent,
    world: &World,
    extent: Extent,
)
    requires some { 0 < length world.now }
    requires few { extent.rows ≤ 512 }
    requires narrow { extent.columns ≤ 64 }
    ensures value { AreExtensions extent.columns extent.rows (value_by world.now (One predicate s)) table.new }
{
    match s {
        Referent::ByRow(stride) => {
            deal_members(table, world.having(predicate), stride, world, extent.rows);
        }
        Referent::One(_) | Referent::ByColumn(_) => {
            let atomic = Atomic::One(predicate, s);
            table.fill(atomic.in_columns(world, extent.columns), extent.rows);
        }
    }
}

/// Writes into the first rows and columns of the table whether the relation is true of what the two terms stand for. What it
/// says of two blocks is looked up once for each of them, and not once for each row.
pub(crate) fn tabulate_two(
    table: &mut Table,
    relation: Relation,
    s: Referent,
    t: Referent,
    world: &World,
    extent: Extent,
)
    requires some { 0 < length world.now }
    requires few { extent.rows ≤ 512 }
    requires narrow { extent.columns ≤ 64 }
    ensures value { AreExtensions extent.columns extent.rows (value_by world.now (Two relation s t)) table.new }
{
    match (s, t) {
        (Referent::ByColumn(column), Referent::ByRow(row)) => {
            deal_by_digit(table, relation, column, row, world, extent);
        }
        (Referent::ByRow(row), Referent::ByColumn(column)) => {
            deal_by_digit(table, relation.converse(), column, row, world, extent);
        }
        (Referent::ByRow(stride), Referent::One(n)) => {
            deal_members(
                table,
                relation.related(n, world),
                stride,
                world,
                extent.rows,
            );
        }
        (Referent::One(m), Referent::ByRow(stride)) => {
            let set = relation.converse().related(m, world);
            deal_members(table, set, stride, world, extent.rows);
        }
        (Referent::ByRow(first), Referent::ByRow(second)) => {
            deal_pairs(table, relation, first, second, world, extent);
        }
        (Referent::One(_) | Referent::ByColumn(_), Referent::One(_) | Referent::ByColumn(_)) => {
            let atomic = Atomic::Two(relation, s, t);
            table.fill(atomic.in_columns(world, extent.columns), extent.rows);
        }
    }
}

/// In each row the columns of the blocks that stand so to the one of the row's digit. They are first written into the rows of
/// the blocks, and then dealt out from the last row on, since no row has a digit that is greater than the row.
fn deal_by_digit(
    table: &mut Table,
    relation: Relation,
    column: u32,
    stride: u32,
    world: &World,
    extent: Extent,
)
    requires some { 0 < length world.now }
    requires few { extent.rows ≤ 512 }
    requires narrow { extent.columns ≤ 64 }
    ensures value { AreExtensions extent.columns extent.rows (value_by world.now (Two relation (ref.ByColumn column) (ref.ByRow stride))) table.new }
{
    let count = block_count(world);
    relate_in_columns(table, 0, relation, column, world, extent.columns);
    // Each row is its own digit.
    if stride == 1 && extent.rows <= count {
        return;
    }
    for done in 0..extent.rows {
        let row = extent.rows - 1 - done;
        table.put(row, table.row(digit(row, stride, count)));
    }
}

/// In each row all columns or none: whether the block of the row's digit is in the set.
fn deal_members(table: &mut Table, set: BitSet, stride: u32, world: &World, rows: u32)
    requires some { 0 < length world.now }
    requires few { rows ≤ 512 }
    ensures value { (r : ℕ) → r < rows → (k : ℕ) → k < 64 → has (bits_in table.new r) k ≡ has set.bits (digit_of (length world.now) stride r) }
    ensures few { length world.now ≤ 64 }
{
    let count = block_count(world);
    for row in 0..rows {
        let is_in = set.has(digit(row, stride, count));
        table.put(row, BitSet::all_or_none(is_in));
    }
}

/// In each row all columns or none: whether the block of the one digit stands so to that of the other. They are dealt out as
/// above.
fn deal_pairs(
    table: &mut Table,
    relation: Relation,
    first: u32,
    second: u32,
    world: &World,
    extent: Extent,
)
    requires some { 0 < length world.now }
    requires few { extent.rows ≤ 512 }
    ensures value { AreExtensions extent.columns extent.rows (value_by world.now (Two relation (ref.ByRow first) (ref.ByRow second))) table.new }
{
    let count = block_count(world);
    relate(table, 0, relation, world);
    for done in 0..extent.rows {
        let row = extent.rows - 1 - done;
        let set = table.row(digit(row, second, count));
        table.put(row, BitSet::all_or_none(set.has(digit(row, first, count))));
    }
}

/// From the row on, for each block the columns in whose digit of this place value is a block that stands so to it.
pub(crate) fn relate_in_columns(
    sets: &mut Table,
    first: u32,
    relation: Relation,
    stride: u32,
    world: &World,
    columns: u32,
)
    requires some { 0 < length world.now }
    requires few { first + length world.now ≤ 512 }
    requires narrow { columns ≤ 64 }
    ensures value { ArePairsInColumns world.now relation stride columns first sets.new }
    ensures before { (r : ℕ) → r < first → bits_in sets.new r ≡ bits_in sets.old r }
{
    relate(sets, first, relation, world);
    let count = block_count(world);
    // Each column is its own digit.
    if stride == 1 && columns <= count {
        return;
    }
    for place in 0..count {
        let set = sets.row(first + place);
        sets.put(first + place, spread(set, stride, count, columns));
    }
}
