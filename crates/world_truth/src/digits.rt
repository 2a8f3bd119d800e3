ghost use Rattle.std.specs.Prelude.{◌≡◌, ◌<◌, ◌≤◌, ℕ, true, IfSome};
ghost use Rattle.world_truth.specs.inside.Digits.{case_of, digit_of, number_by};

/// What block a term stands for.
#[derive(Clone, Copy)]
pub enum Referent {
    /// The block of the number.
    One(u32),
    /// The block of the row's digit of this place value.
    ByRow(u32),
    /// The block of the column's digit of this place value.
    ByColumn(u32),
}

impl Referent {
    /// Whether both are the same.
    pub(crate) fn is(self, other: Referent) -> bool
        ensures same { result ≡ true → self ≡ other }
    {
        match (self, other) {
            (Referent::One(m), Referent::One(n)) => m == n,
            (Referent::ByRow(m), Referent::ByRow(n)) => m == n,
            (Referent::ByColumn(m), Referent::ByColumn(n)) => m == n,
            _ => false,
        }
    }

    /// What it is in the row, whatever the row was.
    pub(crate) fn at(self, row: u32, count: u32) -> Referent
        requires some { 0 < count }
        ensures value { (c : ℕ) → number_by count result 0 c ≡ number_by count self row c }
    {
        match self {
            Referent::ByRow(stride) => Referent::One(digit(row, stride, count) + 1),
            Referent::One(_) | Referent::ByColumn(_) => self,
        }
    }

    /// The number of the block in the first row and the column.
    pub(crate) fn number(self, column: u32, count: u32) -> u32
        requires some { 0 < count }
        ensures value { result ≡ number_by count self 0 column }
    {
        match self {
            Referent::One(number) => number,
            Referent::ByRow(stride) => digit(0, stride, count) + 1,
            Referent::ByColumn(stride) => digit(column, stride, count) + 1,
        }
    }
}

/// The digit of this place value of a row or a column; 0 where the value is.
pub(crate) fn digit(row: u32, stride: u32, count: u32) -> u32
    requires some { 0 < count }
    ensures value { result ≡ digit_of count stride row }
    ensures low { result < count }
{
    row.checked_div(stride).unwrap_or(0) % count
}

/// Two digits of a row, each by its place value; 0 where it isn't there.
///
/// What an atomic sentence says depends on few digits: rows that have these in common are one case. Which digits are taken
/// decides how long it takes to write a table, and never what is written.
#[derive(Clone, Copy)]
pub struct Digits {
    low: u32,
    high: u32,
}

impl Digits {
    pub(crate) const NONE: Digits = Digits { low: 0, high: 0 };

    /// With the digit by which the term goes; where it is a third one, it is in place of the second.
    pub(crate) fn with(self, referent: Referent) -> Digits {
        match referent {
            Referent::ByRow(stride) => self.with_digit(stride),
            Referent::One(_) | Referent::ByColumn(_) => self,
        }
    }

    fn with_digit(self, stride: u32) -> Digits {
        if self.low == 0 {
            Digits {
                low: stride,
                high: self.high,
            }
        } else if self.low == stride {
            self
        } else {
            Digits {
                low: self.low,
                high: stride,
            }
        }
    }

    /// How many cases there are.
    pub(crate) fn cases(self, count: u32) -> u32
        requires some { 0 < count }
        requires few { count ≤ 64 }
        ensures value { (r : ℕ) → case_of count self r < result }
    {
        if self.high != 0 {
            count * count
        } else if self.low != 0 {
            count
        } else {
            1
        }
    }

    /// The case of the row.
    pub(crate) fn case(self, row: u32, count: u32) -> u32
        requires some { 0 < count }
        requires few { count ≤ 64 }
        ensures value { result ≡ case_of count self row }
    {
        digit(row, self.high, count) * count + digit(row, self.low, count)
    }

    /// What the term stands for, where the cases are the rows; none where it goes by another digit.
    pub(crate) fn by_case(self, referent: Referent, count: u32) -> Option<Referent>
        requires some { 0 < count }
        ensures value { IfSome result (λ s. (r c : ℕ) → number_by count s (case_of count self r) c ≡ number_by count referent r c) }
    {
        match referent {
            Referent::ByRow(stride) => {
                if stride == self.low {
                    Some(Referent::ByRow(1))
                } else if stride == self.high {
                    Some(Referent::ByRow(count))
                } else {
                    None
                }
            }
            Referent::One(_) | Referent::ByColumn(_) => Some(referent),
        }
    }
}
