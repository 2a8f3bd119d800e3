ghost use Rattle.std.specs.Prelude.{◌≡◌, ◌<◌, ℕ};
ghost use Rattle.bit_sets.specs.BitSets.{has};
ghost use Rattle.world_truth.specs.inside.Tables as tables;

use bit_sets::BitSet;

/// How many values are joined to one.
#[derive(Clone, Copy)]
pub enum Junction {
    /// By whether every one is true.
    Every,
    /// By whether any is true.
    Any,
}

impl Junction {
    /// What is made of no values, at each place.
    #[tactic(auto, using(bit_sets::proofs::Sets::full_has, bit_sets::proofs::Sets::empty_has))]
    pub(crate) fn of_none(self) -> BitSet
        ensures value { (k : ℕ) → k < 64 → has result.bits k ≡ tables.of_none self }
    {
        match self {
            Junction::Every => BitSet::FULL,
            Junction::Any => BitSet::EMPTY,
        }
    }

    /// What is made of no values.
    pub(crate) fn value_of_none(self) -> bool
        ensures value { result ≡ tables.of_none self }
    {
        match self {
            Junction::Every => true,
            Junction::Any => false,
        }
    }

    /// What is made of two values.
    pub(crate) fn join_two(self, first: bool, second: bool) -> bool
        ensures value { result ≡ tables.join_two self first second }
    {
        match self {
            Junction::Every => first && second,
            Junction::Any => first || second,
        }
    }

    /// How two values are joined.
    pub(crate) fn connective(self) -> Connective
        ensures value { tables.connect result ≡ tables.join_two self }
    {
        match self {
            Junction::Every => Connective::And,
            Junction::Any => Connective::Or,
        }
    }
}

/// How two values are joined to one.
#[derive(Clone, Copy)]
pub enum Connective {
    And,
    Or,
    If,
    Iff,
}

impl Connective {
    /// The places at which the two values, joined so, are true.
    pub(crate) fn join(self, left: BitSet, right: BitSet) -> BitSet
        ensures value { tables.IsJoin self left.bits right.bits result.bits }
    {
        match self {
            Connective::And => left.intersection(right),
            Connective::Or => left.union(right),
            Connective::If => left.complement().union(right),
            Connective::Iff => left.symmetric_difference(right).complement(),
        }
    }
}
