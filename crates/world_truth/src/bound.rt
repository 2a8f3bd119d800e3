ghost use Rattle.std.specs.Prelude.{◌≡◌, ◌<◌, ◌/◌, ℕ, length, if◌then◌else◌};
ghost use Rattle.std.specs.Str.{bytes_eq};
ghost use Rattle.worlds.specs.Assignments.{name_at, number_at, own_names, variable_at};
ghost use Rattle.world_truth.specs.inside.Bound.{standing};
ghost use Rattle.world_truth.specs.Places.{given};
ghost use Rattle.world_truth.specs.inside.Digits.{number_by};

use crate::answer::Place;
use crate::digits::Referent;
use fol_core::{Ident, Term, same_ident};
use worlds::{World, block_count};

/// The variables of the quantifiers around a place in a sentence, the innermost first.
///
/// While a table is written, the variables of the outermost quantifiers stand for other blocks from column to column, and those
/// of the next ones from row to row. A column and a row are numerals to the base of the number of blocks, of which the last
/// digit is for the innermost of their variables. Those further in stand for one block at a time.
#[derive(Drop)]
pub enum Bound<'a> {
    /// No quantifier: the places that are given.
    Given(&'a [Place]),
    /// A variable that stands for the block of the number.
    One(&'a Ident, u32, &'a Bound<'a>),
    /// A variable that stands for the block of the row's last digit. What is around it has the row without that digit.
    ByRow(&'a Ident, &'a Bound<'a>),
    /// The same with the column.
    ByColumn(&'a Ident, &'a Bound<'a>),
}

/// What the term stands for. No block is given for a function, so it stands for block 1.
pub(crate) fn referent_of(t: &Term, world: &World, bound: &Bound<'_>) -> Referent
    ensures value { (r c : ℕ) → r < 512 → c < 64 → number_by (length world.now) result r c ≡ number_at (standing bound.now world.now r c) t.now }
{
    match t {
        Term::Var(x) => referent_of_variable(x, world, bound),
        Term::Name(n) => Referent::One(number_of_name(n, world, bound)),
        Term::App(_, _) => Referent::One(1),
    }
}

/// What the variable stands for: the quantifiers are passed from the innermost one on, and the place values of the digits grow.
fn referent_of_variable(x: &Ident, world: &World, bound: &Bound<'_>) -> Referent
    ensures value { (r c : ℕ) → r < 512 → c < 64 → number_by (length world.now) result r c ≡ variable_at (standing bound.now world.now r c) x.now }
{
    let count = block_count(world);
    let mut row = 1;
    let mut column = 1;
    let mut outer = bound;
    loop {
        match outer {
            Bound::Given(places) => return Referent::One(number_of_place(x, world, places)),
            Bound::One(y, number, rest) => {
                if same_ident(y, x) {
                    return Referent::One(*number);
                }
                outer = rest;
            }
            Bound::ByRow(y, rest) => {
                if same_ident(y, x) {
                    return Referent::ByRow(row);
                }
                row = row.saturating_mul(count);
                outer = rest;
            }
            Bound::ByColumn(y, rest) => {
                if same_ident(y, x) {
                    return Referent::ByColumn(column);
                }
                column = column.saturating_mul(count);
                outer = rest;
            }
        }
    }
}

/// The number of the block that has the name, for which no quantifier and no place stands.
fn number_of_name(n: &Ident, world: &World, bound: &Bound<'_>) -> u32
    ensures value { (r c : ℕ) → result ≡ name_at (standing bound.now world.now r c) n.now }
{
    match bound {
        Bound::Given(places) => number_past_places(n, world, places),
        Bound::One(_, _, rest) => number_of_name(n, world, rest),
        Bound::ByRow(_, rest) => number_of_name(n, world, rest),
        Bound::ByColumn(_, rest) => number_of_name(n, world, rest),
    }
}

/// The number of the block that the term stands for, where no quantifier is around it. A function stands for block 1.
pub(crate) fn number(t: &Term, world: &World, places: &[Place]) -> u32
    ensures value { result ≡ number_at (given places.now (own_names world.now)) t.now }
{
    match t {
        Term::Var(x) => number_of_place(x, world, places),
        Term::Name(n) => number_past_places(n, world, places),
        Term::App(_, _) => 1,
    }
}

/// The number that is given for the variable; 1 where none is.
fn number_of_place(x: &Ident, world: &World, places: &[Place]) -> u32
    ensures value { result ≡ variable_at (given places.now (own_names world.now)) x.now }
{
    let mut number = 1;
    for place in places {
        number = latest(place, x, number);
    }
    number
}

/// The number that the place gives for the variable, and else the one before.
fn latest(place: &Place, x: &Ident, before: u32) -> u32
    ensures value { result ≡ (if bytes_eq place.now.variable x.now then place.now.block else before) }
{
    if same_ident(&place.variable, x) {
        place.block
    } else {
        before
    }
}

/// The number of the block that has the name, for which no place stands.
fn number_past_places(n: &Ident, world: &World, places: &[Place]) -> u32
    ensures value { result ≡ name_at (given places.now (own_names world.now)) n.now }
{
    let _ = places;
    number_of_bearer(n, world)
}

/// The number of the block that has the name; 1 where none has it.
fn number_of_bearer(n: &Ident, world: &World) -> u32
    ensures value { result ≡ name_at (own_names world.now) n.now }
{
    let name = n.as_slice();
    if b"a".as_slice() == name {
        world.bearer(b'a')
    } else if b"b".as_slice() == name {
        world.bearer(b'b')
    } else if b"c".as_slice() == name {
        world.bearer(b'c')
    } else if b"d".as_slice() == name {
        world.bearer(b'd')
    } else if b"e".as_slice() == name {
        world.bearer(b'e')
    } else if b"f".as_slice() == name {
        world.bearer(b'f')
    } else {
        1
    }
}
