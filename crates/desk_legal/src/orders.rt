ghost use Rattle.std.specs.Prelude.{◌≡◌};
ghost use Rattle.desk_legal.specs.Legal.{order_may};
ghost use Rattle.desk_legal.specs.Prefixes.{first_bad};

use desk_keeper::{OrderRow, Tables};
use desk_machine::version_of;

/// The first order that may not stand, by its place from 1.
pub(crate) fn bad_order(tables: &Tables) -> Option<u64>
    ensures value { result ≡ first_bad (λ before row. order_may tables.now row) tables.now.orders }
{
    let rows = tables.orders.as_slice();
    for place in 0..rows.len() {
        if !order_may(tables, &rows[place]) {
            return Some(place as u64 + 1);
        }
    }
    None
}

fn order_may(tables: &Tables, row: &OrderRow) -> bool
    ensures value { result ≡ order_may tables.now row.now }
{
    version_of(tables.exercises.as_slice(), &row.name, row.version).is_some()
        && row.upto <= tables.submissions.len() as u64
}
