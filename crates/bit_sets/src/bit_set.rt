ghost use Rattle.std.specs.Prelude.{◌≡◌, ◌<◌, ◌≤◌, ◌≢◌, ℕ, not, ◌&&◌, ◌||◌, true, false, nat_lt, nat_le, ◌-◌, ◌==◌};
ghost use Rattle.bit_sets.specs.BitSets.{has, HasAll, LacksOne, HasOne, HasNone, are_alike, is_inside};

/// A set of places from 0 to 63.
#[derive(Clone, Copy, Debug)]
pub struct BitSet {
    /// The bit of each place.
    pub bits: u64,
}

impl BitSet {
    pub const EMPTY: BitSet = BitSet { bits: 0 };

    pub const FULL: BitSet = BitSet { bits: u64::MAX };

    /// All places or none, as is said.
    #[tactic(auto, using(crate::proofs::Sets::full_has, crate::proofs::Sets::empty_has))]
    pub fn all_or_none(is_all: bool) -> BitSet
        ensures value { (k : ℕ) → k < 64 → has result.bits k ≡ is_all }
    {
        if is_all { BitSet::FULL } else { BitSet::EMPTY }
    }

    /// The place alone.
    pub fn only(place: u32) -> BitSet
        requires { place < 64 }
        ensures value { (k : ℕ) → has result.bits k ≡ (k == place) }
    {
        BitSet::EMPTY.with(place, true)
    }

    /// Whether the place is in the set.
    pub fn has(self, place: u32) -> bool
        requires { place < 64 }
        ensures value { result ≡ has self.bits place }
    {
        (self.bits >> place) & 1 == 1
    }

    /// The places that this set lacks.
    #[tactic(auto, using(crate::proofs::Sets::has_complement))]
    pub fn complement(self) -> BitSet
        ensures value { (k : ℕ) → k < 64 → has result.bits k ≡ not (has self.bits k) }
    {
        BitSet { bits: !self.bits }
    }

    /// The places in both sets.
    #[tactic(auto, using(crate::proofs::Sets::has_both))]
    pub fn intersection(self, other: BitSet) -> BitSet
        ensures value { (k : ℕ) → has result.bits k ≡ (has self.bits k && has other.bits k) }
    {
        BitSet {
            bits: self.bits & other.bits,
        }
    }

    /// The places in one of the sets, or in both.
    #[tactic(auto, using(crate::proofs::Sets::has_either))]
    pub fn union(self, other: BitSet) -> BitSet
        ensures value { (k : ℕ) → has result.bits k ≡ (has self.bits k || has other.bits k) }
    {
        BitSet {
            bits: self.bits | other.bits,
        }
    }

    /// The places in one of the sets and not in the other.
    #[tactic(auto, using(crate::proofs::Sets::has_one))]
    pub fn symmetric_difference(self, other: BitSet) -> BitSet
        ensures value { (k : ℕ) → has result.bits k ≡ not (are_alike (has self.bits k) (has other.bits k)) }
    {
        BitSet {
            bits: self.bits ^ other.bits,
        }
    }

    /// This set, with the place in it where that is said.
    #[tactic(auto, using(crate::proofs::Sets::set_here, crate::proofs::Sets::set_elsewhere))]
    pub fn with(self, place: u32, is_in: bool) -> BitSet
        requires { place < 64 }
        ensures here { has result.bits place ≡ (has self.bits place || is_in) }
        ensures elsewhere { (k : ℕ) → k ≢ place → has result.bits k ≡ has self.bits k }
    {
        if is_in {
            BitSet {
                bits: self.bits | 1 << place,
            }
        } else {
            self
        }
    }

    /// Each place moved by so many to greater ones. Those that would be greater than 63 are left out.
    #[tactic(auto, using(crate::proofs::Sets::moved_has))]
    pub fn moved(self, by: u32) -> BitSet
        requires { by < 64 }
        ensures value { (k : ℕ) → k < 64 → has result.bits k ≡ (nat_le by k && has self.bits (k - by)) }
    {
        BitSet {
            bits: self.bits << by,
        }
    }

    /// The places before the one of the number.
    #[tactic(auto, using(crate::proofs::Sets::before_has, crate::proofs::Sets::shift_some))]
    pub fn before(place: u32) -> BitSet
        requires { place < 64 }
        ensures value { (k : ℕ) → has result.bits k ≡ nat_lt k place }
    {
        BitSet {
            bits: (1 << place) - 1,
        }
    }

    /// The places after the one of the number.
    #[tactic(auto, using(crate::proofs::Sets::after_has))]
    pub fn after(place: u32) -> BitSet
        requires { place < 64 }
        ensures value { (k : ℕ) → k < 64 → has result.bits k ≡ nat_lt place k }
    {
        BitSet {
            bits: u64::MAX << 1 << place,
        }
    }

    /// The places strictly between the two.
    pub fn inside(one: u32, other: u32) -> BitSet
        requires first { one < 64 }
        requires second { other < 64 }
        ensures value { (k : ℕ) → k < 64 → has result.bits k ≡ is_inside k one other }
    {
        if one < other {
            BitSet::after(one).intersection(BitSet::before(other))
        } else {
            BitSet::after(other).intersection(BitSet::before(one))
        }
    }

    /// The places for which the first one lies strictly between them and the second.
    pub fn beyond(one: u32, other: u32) -> BitSet
        requires first { one < 64 }
        requires second { other < 64 }
        ensures value { (k : ℕ) → k < 64 → has result.bits k ≡ is_inside one k other }
    {
        if one < other {
            BitSet::before(one)
        } else if other < one {
            BitSet::after(one)
        } else {
            BitSet::EMPTY
        }
    }

    /// Whether the first places, so many, are all in the set.
    #[tactic(auto, using(crate::proofs::Sets::ones_all, crate::proofs::Sets::ones_lack))]
    pub fn has_all_of(self, count: u32) -> bool
        requires { count ≤ 64 }
        ensures all { result ≡ true → HasAll count self.bits }
        ensures lacks { result ≡ false → LacksOne count self.bits }
    {
        self.bits.trailing_ones() >= count
    }

    /// Whether one of the first places, so many, is in the set.
    #[tactic(auto, using(crate::proofs::Sets::zeros_one, crate::proofs::Sets::zeros_none))]
    pub fn has_one_of(self, count: u32) -> bool
        requires { count ≤ 64 }
        ensures one { result ≡ true → HasOne count self.bits }
        ensures none { result ≡ false → HasNone count self.bits }
    {
        self.bits.trailing_zeros() < count
    }

    /// The least place in the set; 64 where it is empty.
    #[tactic(auto, using(crate::proofs::Sets::first_has))]
    pub fn first(self) -> u32
        ensures first { result < 64 → has self.bits result ≡ true }
        ensures before { HasNone result self.bits }
        ensures most { result ≤ 64 }
    {
        self.bits.trailing_zeros()
    }
}
