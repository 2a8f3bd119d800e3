ghost use Rattle.std.specs.Prelude.{◌≡◌, ◌==◌, nat_lt, nat_le, [], ◌∷◌, Some};
ghost use Rattle.worlds.specs.Geometry.{apart, share_side};
ghost use Rattle.worlds.specs.Predicates as spec;
ghost use Rattle.worlds.specs.Scales.{measure_of, IsSetOf};
ghost use Rattle.worlds.specs.Worlds.{block_at};

use crate::block::Block;
use crate::board::World;
use crate::predicate::Predicate;
use crate::scales::{Measure, set_at};
use bit_sets::BitSet;

impl World {
    /// The blocks of which the predicate holds, if it is one that speaks of one block.
    pub fn having(&self, predicate: Predicate) -> BitSet
        ensures value { IsSetOf self.now (spec.says_of_one predicate) result.bits }
    {
        match predicate {
            Predicate::Tet => self.same(Measure::Faces, 4),
            Predicate::Cube => self.same(Measure::Faces, 6),
            Predicate::Dodec => self.same(Measure::Faces, 12),
            Predicate::Small => self.same(Measure::Rank, 1),
            Predicate::Medium => self.same(Measure::Rank, 2),
            Predicate::Large => self.same(Measure::Rank, 3),
            _ => BitSet::EMPTY,
        }
    }

    /// The blocks that stand to the one of the number as the predicate says, if it is one that speaks of two blocks.
    pub fn related(&self, predicate: Predicate, number: u32) -> BitSet
        ensures value { IsSetOf self.now (λ b. spec.says predicate (Some b ∷ block_at self.now number ∷ [])) result.bits }
    {
        match self.block(number) {
            Some(c) => self.related_to(predicate, &c),
            None => BitSet::EMPTY,
        }
    }

    /// The blocks that stand to the given one as the predicate says, if it is one that speaks of two blocks.
    fn related_to(&self, predicate: Predicate, c: &Block) -> BitSet
        ensures value { IsSetOf self.now (λ b. spec.says_of_two predicate b c.now) result.bits }
    {
        match predicate {
            Predicate::SameSize => self.same(Measure::Rank, Measure::Rank.of(c)),
            Predicate::SameShape => self.same(Measure::Faces, Measure::Faces.of(c)),
            Predicate::SameRow => self.same(Measure::Row, Measure::Row.of(c)),
            Predicate::SameCol => self.same(Measure::Column, Measure::Column.of(c)),
            Predicate::Larger => self.above(Measure::Rank, Measure::Rank.of(c)),
            Predicate::Smaller => self.below(Measure::Rank, usize::from(Measure::Rank.of(c))),
            Predicate::LeftOf => self.below(Measure::Column, usize::from(Measure::Column.of(c))),
            Predicate::RightOf => self.above(Measure::Column, Measure::Column.of(c)),
            Predicate::FrontOf => self.below(Measure::Row, usize::from(Measure::Row.of(c))),
            Predicate::BackOf => self.above(Measure::Row, Measure::Row.of(c)),
            Predicate::Adjoins => self.adjoining(c),
            _ => BitSet::EMPTY,
        }
    }

    /// The blocks whose square shares a side with that of the given one: those near it in its row, and those near it in its
    /// column, but not the block itself, which is in both sets alone.
    fn adjoining(&self, c: &Block) -> BitSet
        ensures value { IsSetOf self.now (λ b. share_side b c.now) result.bits }
    {
        let in_row = self
            .same(Measure::Row, Measure::Row.of(c))
            .intersection(self.near(Measure::Column, Measure::Column.of(c)));
        let in_column = self
            .same(Measure::Column, Measure::Column.of(c))
            .intersection(self.near(Measure::Row, Measure::Row.of(c)));
        in_row.symmetric_difference(in_column)
    }

    /// The blocks that measure less than the number.
    pub fn below(&self, measure: Measure, number: usize) -> BitSet
        ensures value { IsSetOf self.now (λ b. nat_lt (measure_of measure b) number) result.bits }
    {
        match set_at(self.scale(measure), number) {
            Some(set) => set,
            None => BitSet::FULL,
        }
    }

    /// The blocks that measure more than the number.
    pub fn above(&self, measure: Measure, number: u16) -> BitSet
        ensures value { IsSetOf self.now (λ b. nat_lt number (measure_of measure b)) result.bits }
    {
        self.below(measure, usize::from(number) + 1).complement()
    }

    /// The blocks that measure just the number.
    pub fn same(&self, measure: Measure, number: u16) -> BitSet
        ensures value { IsSetOf self.now (λ b. measure_of measure b == number) result.bits }
    {
        let less = self.below(measure, usize::from(number));
        self.below(measure, usize::from(number) + 1)
            .intersection(less.complement())
    }

    /// The blocks that measure the number, or one more or one less.
    fn near(&self, measure: Measure, number: u16) -> BitSet
        ensures value { IsSetOf self.now (λ b. nat_le (apart (measure_of measure b) number) 1) result.bits }
    {
        let most = self.below(measure, usize::from(number) + 2);
        let less = self.below(measure, usize::from(number.saturating_sub(1)));
        most.intersection(less.complement())
    }
}
