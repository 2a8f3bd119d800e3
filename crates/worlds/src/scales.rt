ghost use Rattle.std.specs.Prelude.{◌≡◌, ◌<◌, ◌≤◌, true, length, nat_lt};
ghost use Rattle.std.specs.List.{list_all, slice_get};
ghost use Rattle.worlds.specs.Geometry.{is_on_board};
ghost use Rattle.worlds.specs.Scales.{measure_of, scale_at, AreBelow, AreScales, IsSetOf};

use crate::block::Block;
use bit_sets::BitSet;

/// What is measured of a block.
#[derive(Clone, Copy)]
pub enum Measure {
    Column,
    Row,
    /// The rank of the size.
    Rank,
    /// The number of faces of the shape.
    Faces,
    /// The diagonal that rises to the right: how far the row lies above the column, and eight more.
    Rising,
    /// The diagonal that falls to the right: the sum of column and row.
    Falling,
}

impl Measure {
    pub fn of(self, b: &Block) -> u16
        ensures value { result ≡ measure_of self b.now }
    {
        match self {
            Measure::Column => u16::from(b.column),
            Measure::Row => u16::from(b.row),
            Measure::Rank => u16::from(b.size.rank()),
            Measure::Faces => u16::from(b.shape.faces()),
            Measure::Rising => (u16::from(b.row) + 8).saturating_sub(u16::from(b.column)),
            Measure::Falling => u16::from(b.column) + u16::from(b.row),
        }
    }
}

/// For each number from 0 to 16 the blocks that measure less; no block measures more than 16.
type Scale = [BitSet; 17];

/// The blocks of a world by what they measure.
#[derive(Clone, Copy, Debug)]
pub struct Scales {
    columns: Scale,
    rows: Scale,
    ranks: Scale,
    faces: Scale,
    rising: Scale,
    falling: Scale,
}

impl Scales {
    pub fn of(blocks: &[Block]) -> Scales
        requires few { length blocks.now ≤ 64 }
        requires on_board { list_all is_on_board blocks.now ≡ true }
        ensures value { AreScales blocks.now result }
    {
        Scales {
            columns: scale_of(blocks, Measure::Column),
            rows: scale_of(blocks, Measure::Row),
            ranks: scale_of(blocks, Measure::Rank),
            faces: scale_of(blocks, Measure::Faces),
            rising: scale_of(blocks, Measure::Rising),
            falling: scale_of(blocks, Measure::Falling),
        }
    }

    /// For each number the blocks that measure less.
    pub fn scale(&self, measure: Measure) -> &[BitSet]
        ensures value { result.now ≡ scale_at self.now measure }
    {
        match measure {
            Measure::Column => &self.columns,
            Measure::Row => &self.rows,
            Measure::Rank => &self.ranks,
            Measure::Faces => &self.faces,
            Measure::Rising => &self.rising,
            Measure::Falling => &self.falling,
        }
    }
}

/// The set at the number, where the scale goes so far.
pub fn set_at(scale: &[BitSet], number: usize) -> Option<BitSet>
    ensures value { result ≡ slice_get scale.now number }
{
    scale.get(number).copied()
}

fn scale_of(blocks: &[Block], measure: Measure) -> Scale
    requires few { length blocks.now ≤ 64 }
    requires on_board { list_all is_on_board blocks.now ≡ true }
    ensures value { AreBelow blocks.now (measure_of measure) 0 result }
{
    [
        below(blocks, measure, 0),
        below(blocks, measure, 1),
        below(blocks, measure, 2),
        below(blocks, measure, 3),
        below(blocks, measure, 4),
        below(blocks, measure, 5),
        below(blocks, measure, 6),
        below(blocks, measure, 7),
        below(blocks, measure, 8),
        below(blocks, measure, 9),
        below(blocks, measure, 10),
        below(blocks, measure, 11),
        below(blocks, measure, 12),
        below(blocks, measure, 13),
        below(blocks, measure, 14),
        below(blocks, measure, 15),
        below(blocks, measure, 16),
    ]
}

/// The blocks that measure less than the number.
fn below(blocks: &[Block], measure: Measure, number: u16) -> BitSet
    requires few { length blocks.now ≤ 64 }
    ensures value { IsSetOf blocks.now (λ b. nat_lt (measure_of measure b) number) result.bits }
{
    let mut set = BitSet::EMPTY;
    for place in 0..blocks.len() {
        set = set.with(place as u32, measure.of(&blocks[place]) < number);
    }
    set
}
