ghost use Rattle.std.specs.Prelude.{◌≡◌, ◌<◌, ◌≤◌, ◌≢◌, ◌*◌, ◌+◌, ℕ};
ghost use Rattle.world_truth.specs.inside.Tables.{bits_in, IsComplement, IsGroup, IsJoin, AreGathered};

use crate::columns::gathered;
use crate::junction::{Connective, Junction};
use bit_sets::BitSet;

/// Truth values in 512 rows of 64 columns, of which the first ones are in use, as many as is said. In each row stands the set
/// of the columns in which the value is true.
#[derive(Clone, Copy)]
pub struct Table {
    rows: [BitSet; 512],
}

impl Table {
    pub(crate) const EMPTY: Table = Table {
        rows: [BitSet::EMPTY; 512],
    };

    pub(crate) fn row(&self, row: u32) -> BitSet
        requires { row < 512 }
        ensures value { result.bits ≡ bits_in self.now row }
    {
        self.rows[row as usize]
    }

    pub(crate) fn put(&mut self, row: u32, set: BitSet)
        requires { row < 512 }
        ensures here { bits_in self.new row ≡ set.bits }
        ensures elsewhere { (r : ℕ) → r ≢ row → bits_in self.new r ≡ bits_in self.old r }
    {
        self.rows[row as usize] = set;
    }

    /// The same set in each of the first rows.
    pub(crate) fn fill(&mut self, set: BitSet, rows: u32)
        requires { rows ≤ 512 }
        ensures value { (r : ℕ) → r < rows → bits_in self.new r ≡ set.bits }
    {
        for row in 0..rows {
            self.put(row, set);
        }
    }

    /// In each of the first rows what the set lacks.
    pub(crate) fn complement(&mut self, rows: u32)
        requires { rows ≤ 512 }
        ensures value { (r : ℕ) → r < rows → IsComplement (bits_in self.old r) (bits_in self.new r) }
    {
        for row in 0..rows {
            self.put(row, self.row(row).complement());
        }
    }

    /// In each of the first rows what the connective makes of the set and of that in the other table.
    pub(crate) fn join(&mut self, connective: Connective, other: &Table, rows: u32)
        requires { rows ≤ 512 }
        ensures value { (r : ℕ) → r < rows → IsJoin connective (bits_in self.old r) (bits_in other.now r) (bits_in self.new r) }
    {
        for row in 0..rows {
            self.put(row, connective.join(self.row(row), other.row(row)));
        }
    }

    /// In each of the first rows what the junction makes of a group of rows, so many to a group, one group after the other.
    pub(crate) fn join_groups(&mut self, junction: Junction, rows: u32, count: u32)
        requires few { rows * count ≤ 512 }
        requires some { 0 < count }
        ensures value { (r : ℕ) → r < rows → IsGroup junction self.old (r * count) count (bits_in self.new r) }
    {
        for row in 0..rows {
            self.put(row, self.joined(junction, row * count, count));
        }
    }

    /// In each of the first rows and columns what the junction makes of a group of columns, so many to a group, one group after
    /// the other.
    pub(crate) fn gather(&mut self, junction: Junction, rows: u32, columns: u32, count: u32)
        requires few { rows ≤ 512 }
        requires narrow { columns * count ≤ 64 }
        requires some { 0 < count }
        ensures value { (r : ℕ) → r < rows → AreGathered junction columns count (bits_in self.old r) (bits_in self.new r) }
    {
        for row in 0..rows {
            self.put(row, gathered(junction, self.row(row), columns, count));
        }
    }

    /// What the junction makes of so many rows from the one of the number.
    fn joined(&self, junction: Junction, first: u32, count: u32) -> BitSet
        requires { first + count ≤ 512 }
        ensures value { IsGroup junction self.now first count result.bits }
    {
        let mut set = junction.of_none();
        for before in 0..count {
            set = junction.connective().join(set, self.row(first + before));
        }
        set
    }
}
