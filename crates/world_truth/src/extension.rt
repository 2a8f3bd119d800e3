ghost use Rattle.std.specs.Prelude.{◌≡◌, ◌<◌, ◌≤◌, ◌*◌, ℕ, Bool, map, length};
ghost use Rattle.worlds.specs.Assignments.{put, block_of as stands_for};
ghost use Rattle.world_truth.specs.inside.Bound.{standing};
ghost use Rattle.worlds.specs.Predicates as predicates;
ghost use Rattle.world_truth.specs.inside.Tables.{AreExtensions, connect, joined};
ghost use Rattle.worlds.specs.Truth.{val};
ghost use Rattle.worlds.specs.Worlds.{numbers};

use crate::atomic::{Atomic, atomic_of};
use crate::bound::{Bound, referent_of};
use crate::extent::{COLUMNS, Extent, ROWS};
use crate::junction::{Connective, Junction};
use crate::relation::Relation;
use crate::table::Table;
use bit_sets::BitSet;
use fol_core::{Ident, Sent, Term};
use worlds::{World, block_count, predicate_of};

/// Writes into the first rows and columns of the table whether the sentence is true there. It takes no memory.
#[cycle(extension)]
pub(crate) fn tabulate(
    table: &mut Table,
    s: &Sent,
    world: &World,
    bound: &Bound<'_>,
    extent: Extent,
)
    requires some { 0 < length world.now }
    requires few { extent.rows ≤ 512 }
    requires narrow { extent.columns ≤ 64 }
    ensures value { AreExtensions extent.columns extent.rows (λ r c. val world.now (standing bound.now world.now r c) s.now) table.new }
{
    match s {
        Sent::Atom(p, terms) => tabulate_atom(table, p, terms.as_slice(), world, bound, extent),
        Sent::Eq(a, b) => {
            let (s, t) = (referent_of(a, world, bound), referent_of(b, world, bound));
            Atomic::Two(Relation::Same, s, t).tabulate(table, world, extent);
        }
        Sent::Bottom => table.fill(BitSet::EMPTY, extent.rows),
        Sent::Not(a) => {
            tabulate(table, a.get(), world, bound, extent);
            table.complement(extent.rows);
        }
        Sent::And(parts) => {
            tabulate_joined(
                table,
                Junction::Every,
                parts.as_slice(),
                world,
                bound,
                extent,
            );
        }
        Sent::Or(parts) => {
            tabulate_joined(table, Junction::Any, parts.as_slice(), world, bound, extent);
        }
        Sent::If(a, b) => {
            tabulate(table, a.get(), world, bound, extent);
            join_next(table, Connective::If, b.get(), world, bound, extent);
        }
        Sent::Iff(a, b) => {
            tabulate(table, a.get(), world, bound, extent);
            join_next(table, Connective::Iff, b.get(), world, bound, extent);
        }
        Sent::All(x, a) => {
            tabulate_quantified(table, Junction::Every, x, a.get(), world, bound, extent);
        }
        Sent::Ex(x, a) => {
            tabulate_quantified(table, Junction::Any, x, a.get(), world, bound, extent);
        }
    }
}

/// Joins to the values in the table, by the connective, those of the sentence.
#[cycle(extension)]
fn join_next(
    table: &mut Table,
    connective: Connective,
    s: &Sent,
    world: &World,
    bound: &Bound<'_>,
    extent: Extent,
)
    requires some { 0 < length world.now }
    requires few { extent.rows ≤ 512 }
    requires narrow { extent.columns ≤ 64 }
    ensures value { (f : ℕ → ℕ → Bool) → AreExtensions extent.columns extent.rows f table.old → AreExtensions extent.columns extent.rows (λ r c. connect connective (f r c) (val world.now (standing bound.now world.now r c) s.now)) table.new }
{
    let mut next = Table::EMPTY;
    tabulate(&mut next, s, world, bound, extent);
    table.join(connective, &next, extent.rows);
}

/// The same for sentences that the junction joins.
#[cycle(extension)]
fn tabulate_joined(
    table: &mut Table,
    junction: Junction,
    parts: &[Sent],
    world: &World,
    bound: &Bound<'_>,
    extent: Extent,
)
    requires some { 0 < length world.now }
    requires few { extent.rows ≤ 512 }
    requires narrow { extent.columns ≤ 64 }
    ensures value { AreExtensions extent.columns extent.rows (λ r c. joined junction (val world.now (standing bound.now world.now r c)) parts.now) table.new }
{
    let mut next = Table::EMPTY;
    table.fill(junction.of_none(), extent.rows);
    for part in parts {
        tabulate(&mut next, part, world, bound, extent);
        table.join(junction.connective(), &next, extent.rows);
    }
}

/// The same for a sentence whose variable stands for every block, or for any, as the junction says: by columns while there
/// are enough of them, and then by rows.
#[cycle(extension)]
fn tabulate_quantified(
    table: &mut Table,
    junction: Junction,
    x: &Ident,
    part: &Sent,
    world: &World,
    bound: &Bound<'_>,
    extent: Extent,
)
    requires some { 0 < length world.now }
    requires few { extent.rows ≤ 512 }
    requires narrow { extent.columns ≤ 64 }
    ensures value { AreExtensions extent.columns extent.rows (λ r c. joined junction (λ m. val world.now (put x.now m (standing bound.now world.now r c)) part.now) (numbers world.now)) table.new }
{
    let count = block_count(world);
    if extent.columns * count <= COLUMNS {
        let wide = Extent {
            rows: extent.rows,
            columns: extent.columns * count,
        };
        tabulate(table, part, world, &Bound::ByColumn(&*x, &*bound), wide);
        table.gather(junction, extent.rows, extent.columns, count);
    } else if extent.rows * count <= ROWS {
        let long = Extent {
            rows: extent.rows * count,
            columns: extent.columns,
        };
        tabulate(table, part, world, &Bound::ByRow(&*x, &*bound), long);
        table.join_groups(junction, extent.rows, count);
    } else {
        tabulate_by_turns(table, junction, x, part, world, bound, extent);
    }
}

/// The same, where no table is so large: the variable stands for one block after the other.
#[cycle(extension)]
fn tabulate_by_turns(
    table: &mut Table,
    junction: Junction,
    x: &Ident,
    part: &Sent,
    world: &World,
    bound: &Bound<'_>,
    extent: Extent,
)
    requires some { 0 < length world.now }
    requires few { extent.rows ≤ 512 }
    requires narrow { extent.columns ≤ 64 }
    ensures value { AreExtensions extent.columns extent.rows (λ r c. joined junction (λ m. val world.now (put x.now m (standing bound.now world.now r c)) part.now) (numbers world.now)) table.new }
{
    let mut turn = Table::EMPTY;
    table.fill(junction.of_none(), extent.rows);
    for before in 0..block_count(world) {
        tabulate(
            &mut turn,
            part,
            world,
            &Bound::One(&*x, before + 1, &*bound),
            extent,
        );
        table.join(junction.connective(), &turn, extent.rows);
    }
}

/// The same for an atomic sentence, which is false where its predicate isn't one of the blocks language.
fn tabulate_atom(
    table: &mut Table,
    p: &Ident,
    terms: &[Term],
    world: &World,
    bound: &Bound<'_>,
    extent: Extent,
)
    requires some { 0 < length world.now }
    requires few { extent.rows ≤ 512 }
    requires narrow { extent.columns ≤ 64 }
    ensures value { AreExtensions extent.columns extent.rows (λ r c. predicates.is_true_of (predicates.predicate_of p.now) (map (stands_for world.now (standing bound.now world.now r c)) terms.now)) table.new }
{
    let Some(predicate) = predicate_of(p.as_slice()) else {
        table.fill(BitSet::EMPTY, extent.rows);
        return;
    };
    match atomic_of(predicate, terms, world, bound) {
        Some(atomic) => atomic.tabulate(table, world, extent),
        None => table.fill(BitSet::EMPTY, extent.rows),
    }
}
