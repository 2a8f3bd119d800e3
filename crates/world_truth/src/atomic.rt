ghost use Rattle.std.specs.Prelude.{◌≡◌, ◌<◌, ◌+◌, ◌*◌, ℕ, List, map, length, true, false, IfSome, None, Option};
ghost use Rattle.fol_core.specs.declared.sent.Term.{Term as SentTerm};
ghost use Rattle.worlds.specs.declared.block.Block.{Block as Standing};
ghost use Rattle.worlds.specs.Assignments.{block_of as stands_for};
ghost use Rattle.world_truth.specs.inside.Bound.{standing};
ghost use Rattle.world_truth.specs.inside.Digits.{case_of, digit_of};
ghost use Rattle.worlds.specs.Predicates.{says};
ghost use Rattle.world_truth.specs.inside.Referents.{value_by};
ghost use Rattle.world_truth.specs.declared.atomic.Atomic.TheVariants.{Three};
ghost use Rattle.world_truth.specs.declared.digits.Referent.TheVariants.{ByColumn, ByRow};
ghost use Rattle.world_truth.specs.inside.Relations.{about, relates};

use crate::bound::{Bound, referent_of};
use crate::digits::{Digits, Referent};
use crate::relation::Relation;
use fol_core::Term;
use worlds::{Predicate, World};

/// What an atomic sentence says.
#[derive(Clone, Copy)]
pub enum Atomic {
    /// What is never true.
    Never,
    /// That the predicate is true of the block.
    One(Predicate, Referent),
    /// That the relation is true of the two blocks.
    Two(Relation, Referent, Referent),
    /// That the first block stands between the two others.
    Three(Referent, Referent, Referent),
}

/// What the predicate says of the terms; none where it doesn't speak of so many.
pub(crate) fn atomic_of(
    predicate: Predicate,
    terms: &[Term],
    world: &World,
    bound: &Bound<'_>,
) -> Option<Atomic>
    ensures some { IfSome result (λ a. (r c : ℕ) → r < 512 → c < 64 → value_by world.now a r c ≡ says predicate (map (stands_for world.now (standing bound.now world.now r c)) terms.now)) }
    ensures none { result ≡ None → (f : SentTerm → Option Standing) → says predicate (map f terms.now) ≡ false }
{
    match terms {
        [t] => Some(Atomic::One(predicate, referent_of(t, world, bound))),
        [t, u] => Some(Atomic::Two(
            Relation::Says(predicate),
            referent_of(t, world, bound),
            referent_of(u, world, bound),
        )),
        [t, u, v] => match predicate {
            Predicate::Between => Some(Atomic::Three(
                referent_of(t, world, bound),
                referent_of(u, world, bound),
                referent_of(v, world, bound),
            )),
            _ => None,
        },
        _ => None,
    }
}

impl Atomic {
    /// What says the same: of two blocks where one of three is always the same, and nothing where two of the three are.
    pub(crate) fn reduced(self) -> Atomic
        ensures value { (w : List Standing) (r c : ℕ) → value_by w result r c ≡ value_by w self r c }
    {
        match self {
            Atomic::Three(s, t, u) if has_one_twice(s, t, u) => Atomic::Never,
            Atomic::Three(s, t, Referent::One(n)) => Atomic::Two(Relation::Between(n), s, t),
            Atomic::Three(s, Referent::One(n), u) => Atomic::Two(Relation::Between(n), s, u),
            Atomic::Three(Referent::One(n), t, u) => Atomic::Two(Relation::Around(n), t, u),
            _ => self,
        }
    }

    /// What it says in the row, whatever the row was.
    pub(crate) fn at(self, row: u32, count: u32) -> Atomic
        requires some { 0 < count }
        ensures value { (w : List Standing) (c : ℕ) → count ≡ length w → value_by w result 0 c ≡ value_by w self row c }
    {
        match self {
            Atomic::Never => Atomic::Never,
            Atomic::One(predicate, s) => Atomic::One(predicate, s.at(row, count)),
            Atomic::Two(relation, s, t) => {
                Atomic::Two(relation, s.at(row, count), t.at(row, count))
            }
            Atomic::Three(s, t, u) => {
                Atomic::Three(s.at(row, count), t.at(row, count), u.at(row, count))
            }
        }
    }

    /// The digits of a row by which its terms go.
    pub(crate) fn digits(self) -> Digits {
        match self {
            Atomic::Never => Digits::NONE,
            Atomic::One(_, s) => Digits::NONE.with(s),
            Atomic::Two(_, s, t) => Digits::NONE.with(s).with(t),
            Atomic::Three(s, t, u) => Digits::NONE.with(s).with(t).with(u),
        }
    }

    /// What it says where the cases of the digits are the rows; none where a term goes by another digit.
    pub(crate) fn by_case(self, digits: Digits, count: u32) -> Option<Atomic>
        requires some { 0 < count }
        ensures value { IfSome result (λ a. (w : List Standing) (r c : ℕ) → count ≡ length w → value_by w a (case_of count digits r) c ≡ value_by w self r c) }
    {
        Some(match self {
            Atomic::Never => Atomic::Never,
            Atomic::One(predicate, s) => Atomic::One(predicate, digits.by_case(s, count)?),
            Atomic::Two(relation, s, t) => Atomic::Two(
                relation,
                digits.by_case(s, count)?,
                digits.by_case(t, count)?,
            ),
            Atomic::Three(s, t, u) => Atomic::Three(
                digits.by_case(s, count)?,
                digits.by_case(t, count)?,
                digits.by_case(u, count)?,
            ),
        })
    }

    /// What it says in groups of as many rows as there are blocks, where it is about the block of a group: with the number of
    /// that block, the relation is true of the block of the column's digit of the place value and the block of the row in its
    /// group. None where it says nothing of the kind.
    pub(crate) fn in_groups(self, count: u32) -> Option<(Relation, u32)>
        ensures value { IfSome result (λ p. (w : List Standing) (group r c : ℕ) → count ≡ length w → group < count → r < count → relates w (about p.0 (group + 1)) (digit_of count p.1 c + 1) (r + 1) ≡ value_by w self (group * count + r) c) }
    {
        use Referent::{ByColumn, ByRow};
        match self {
            Atomic::Three(ByColumn(x), ByRow(m), ByRow(n)) => column_first(x, m, n, count),
            Atomic::Three(ByRow(m), ByColumn(x), ByRow(n)) => row_first(m, x, n, count),
            Atomic::Three(ByRow(m), ByRow(n), ByColumn(x)) => row_first(m, x, n, count),
            _ => None,
        }
    }
}

/// Whether two of the three are the same, so that the first doesn't stand between the others.
fn has_one_twice(s: Referent, t: Referent, u: Referent) -> bool
    ensures never { result ≡ true → (w : List Standing) (r c : ℕ) → value_by w (Three s t u) r c ≡ false }
{
    s.is(t) || s.is(u) || t.is(u)
}

/// The same of the block of the column's digit, that it stands between the blocks of the two digits of the row.
fn column_first(x: u32, m: u32, n: u32, count: u32) -> Option<(Relation, u32)>
    ensures value { IfSome result (λ p. (w : List Standing) (group r c : ℕ) → count ≡ length w → group < count → r < count → relates w (about p.0 (group + 1)) (digit_of count p.1 c + 1) (r + 1) ≡ value_by w (Three (ByColumn x) (ByRow m) (ByRow n)) (group * count + r) c) }
{
    if (m == 1 && n == count) || (m == count && n == 1) {
        Some((Relation::Between(0), x))
    } else {
        None
    }
}

/// The same of the block of the first digit of the row, that it stands between that of the column's digit and that of the second.
fn row_first(m: u32, x: u32, n: u32, count: u32) -> Option<(Relation, u32)>
    ensures value { IfSome result (λ p. (w : List Standing) (group r c : ℕ) → count ≡ length w → group < count → r < count → relates w (about p.0 (group + 1)) (digit_of count p.1 c + 1) (r + 1) ≡ value_by w (Three (ByRow m) (ByColumn x) (ByRow n)) (group * count + r) c) }
{
    if m == 1 && n == count {
        Some((Relation::Behind(0), x))
    } else if m == count && n == 1 {
        Some((Relation::Around(0), x))
    } else {
        None
    }
}
