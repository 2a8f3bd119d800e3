ghost use Rattle.std.specs.Prelude.{◌≡◌, ◌<◌, ◌≤◌, length};
ghost use Rattle.worlds.specs.inside.Extensions.{IsExtension};
ghost use Rattle.world_truth.specs.inside.Referents.{value_by};

use crate::atomic::Atomic;
use crate::columns::{spread, spread_pairs};
use crate::digits::Referent::{ByColumn, One};
use crate::relation::stands_between;
use bit_sets::BitSet;
use worlds::{World, block_count};

impl Atomic {
    /// The columns of the first row, among the first ones, in which it is true.
    pub(crate) fn in_columns(self, world: &World, columns: u32) -> BitSet
        requires some { 0 < length world.now }
        requires narrow { columns ≤ 64 }
        ensures value { IsExtension columns (value_by world.now self 0) result.bits }
    {
        let count = block_count(world);
        match self {
            Atomic::Never => BitSet::EMPTY,
            Atomic::One(predicate, ByColumn(stride)) => {
                spread(world.having(predicate), stride, count, columns)
            }
            Atomic::Two(relation, ByColumn(stride), One(n)) => {
                spread(relation.related(n, world), stride, count, columns)
            }
            Atomic::Two(relation, One(m), ByColumn(stride)) => {
                spread(
                    relation.converse().related(m, world),
                    stride,
                    count,
                    columns,
                )
            }
            Atomic::Two(relation, ByColumn(first), ByColumn(second)) => {
                spread_pairs(relation, first, second, world, columns)
            }
            Atomic::One(_, One(_)) | Atomic::Two(_, One(_), One(_)) => {
                BitSet::all_or_none(self.holds(0, world))
            }
            _ => self.in_each_column(world, columns),
        }
    }

    /// The same, asked of one column after the other.
    fn in_each_column(self, world: &World, columns: u32) -> BitSet
        requires some { 0 < length world.now }
        requires narrow { columns ≤ 64 }
        ensures value { IsExtension columns (value_by world.now self 0) result.bits }
    {
        let mut set = BitSet::EMPTY;
        for column in 0..columns {
            set = set.with(column, self.holds(column, world));
        }
        set
    }

    /// Whether it is true in the first row and the column.
    fn holds(self, column: u32, world: &World) -> bool
        requires some { 0 < length world.now }
        ensures value { result ≡ value_by world.now self 0 column }
    {
        let count = block_count(world);
        match self {
            Atomic::Never => false,
            Atomic::One(predicate, s) => match world.block(s.number(column, count)) {
                Some(b) => predicate.says_of_one(&b),
                None => false,
            },
            Atomic::Two(relation, s, t) => {
                relation.holds(s.number(column, count), t.number(column, count), world)
            }
            Atomic::Three(s, t, u) => stands_between(
                s.number(column, count),
                t.number(column, count),
                u.number(column, count),
                world,
            ),
        }
    }
}
