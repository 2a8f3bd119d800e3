ghost use Rattle.std.specs.Prelude.{◌≡◌, ◌<◌, ◌≤◌, ℕ, true, length};
ghost use Rattle.world_truth.specs.inside.Digits.{case_of};
ghost use Rattle.world_truth.specs.inside.Referents.{value_by};
ghost use Rattle.world_truth.specs.inside.Tables.{bits_in, AreExtensions};

use crate::atomic::Atomic;
use crate::digits::Digits;
use crate::extent::Extent;
use crate::pairs::{relate_in_columns, tabulate_one, tabulate_two};
use crate::table::Table;
use bit_sets::BitSet;
use worlds::{World, block_count};

impl Atomic {
    /// Writes into the first rows and columns of the table whether it is true there.
    pub(crate) fn tabulate(self, table: &mut Table, world: &World, extent: Extent)
        requires some { 0 < length world.now }
        requires few { extent.rows ≤ 512 }
        requires narrow { extent.columns ≤ 64 }
        ensures value { AreExtensions extent.columns extent.rows (value_by world.now self) table.new }
    {
        match self.reduced() {
            Atomic::Never => table.fill(BitSet::EMPTY, extent.rows),
            Atomic::One(predicate, s) => tabulate_one(table, predicate, s, world, extent),
            Atomic::Two(relation, s, t) => tabulate_two(table, relation, s, t, world, extent),
            Atomic::Three(_, _, _) => {
                if !self.tabulate_groups(table, world, extent) {
                    self.tabulate_cases(table, world, extent);
                }
            }
        }
    }

    /// The same, where it can be done for groups of rows; whether it can.
    fn tabulate_groups(self, table: &mut Table, world: &World, extent: Extent) -> bool
        requires few { extent.rows ≤ 512 }
        requires narrow { extent.columns ≤ 64 }
        ensures value { result ≡ true → AreExtensions extent.columns extent.rows (value_by world.now self) table.new }
    {
        let count = block_count(world);
        if extent.rows != count * count {
            return false;
        }
        let Some((relation, column)) = self.in_groups(count) else {
            return false;
        };
        for group in 0..count {
            let about = relation.about(group + 1);
            relate_in_columns(table, group * count, about, column, world, extent.columns);
        }
        true
    }

    /// The same, found once for each case of the digits by which its terms go.
    fn tabulate_cases(self, table: &mut Table, world: &World, extent: Extent)
        requires some { 0 < length world.now }
        requires few { extent.rows ≤ 512 }
        requires narrow { extent.columns ≤ 64 }
        ensures value { AreExtensions extent.columns extent.rows (value_by world.now self) table.new }
    {
        let count = block_count(world);
        let digits = self.digits();
        let cases = digits.cases(count);
        if cases >= extent.rows {
            self.tabulate_each(table, world, extent);
            return;
        }
        match self.by_case(digits, count) {
            Some(atomic) => {
                let mut sets = Table::EMPTY;
                let few = Extent {
                    rows: cases,
                    columns: extent.columns,
                };
                atomic.tabulate_each(&mut sets, world, few);
                deal(table, &sets, digits, world, extent.rows);
            }
            None => self.tabulate_each(table, world, extent),
        }
    }

    /// The same, found for each row.
    fn tabulate_each(self, table: &mut Table, world: &World, extent: Extent)
        requires some { 0 < length world.now }
        requires few { extent.rows ≤ 512 }
        requires narrow { extent.columns ≤ 64 }
        ensures value { AreExtensions extent.columns extent.rows (value_by world.now self) table.new }
    {
        let count = block_count(world);
        for row in 0..extent.rows {
            let set = self
                .at(row, count)
                .reduced()
                .in_columns(world, extent.columns);
            table.put(row, set);
        }
    }
}

/// Writes into each of the first rows the set of its case.
fn deal(table: &mut Table, sets: &Table, digits: Digits, world: &World, rows: u32)
    requires some { 0 < length world.now }
    requires few { rows ≤ 512 }
    requires cases { (r : ℕ) → case_of (length world.now) digits r < 512 }
    ensures value { (r : ℕ) → r < rows → bits_in table.new r ≡ bits_in sets.now (case_of (length world.now) digits r) }
{
    let count = block_count(world);
    for row in 0..rows {
        table.put(row, sets.row(digits.case(row, count)));
    }
}
