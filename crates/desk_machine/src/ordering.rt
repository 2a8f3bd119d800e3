ghost use Rattle.std.specs.Prelude.{◌≡◌, ◌-◌, ◌^◌, min, length, IfOk};
ghost use Rattle.std.specs.List.{list_any};
ghost use Rattle.desk_machine.specs.Ordering.{
  is_for,
  is_unordered,
  orders_version,
  plan_regrade,
  unordered,
  unordered_from,
};

use crate::exercises::latest;
use crate::plans::{appends, says};
use crate::users::is_teacher;
use crate::{Known, Ordered, Planned, RegradeFault};
use desk_keeper::{OrderRow, Row, SubmissionRow, Tables};
use edge_io::Bytes;
use lists::Copied;
use std::alloc::{AllocError, Global};

/// A teacher orders the submissions to an exercise to be graded by its latest version. An order is kept where there is a
/// submission of another version that no order of this version is for.
pub fn plan_regrade(
    alloc: Global,
    known: Option<Known>,
    tables: &Tables,
    name: &Bytes,
) -> Result<Planned<Result<Ordered, RegradeFault>>, AllocError>
    ensures value { IfOk result (λ p. p ≡ plan_regrade known tables.now name.now) }
{
    let Some(known) = known else {
        return Ok(says(alloc, Err(RegradeFault::UnknownToken)));
    };
    if !is_teacher(known.role) {
        return Ok(says(alloc, Err(RegradeFault::Role)));
    }
    let Some(last) = latest(tables.exercises.as_slice(), name) else {
        return Ok(says(alloc, Err(RegradeFault::NoExercise)));
    };
    let count = unordered(tables, name, last.version);
    orders_version(alloc, tables, name, last.version, count)
}

fn orders_version(
    alloc: Global,
    tables: &Tables,
    name: &Bytes,
    version: u32,
    count: u32,
) -> Result<Planned<Result<Ordered, RegradeFault>>, AllocError>
    ensures value { IfOk result (λ p. p ≡ orders_version tables.now name.now version count) }
{
    if count == 0 {
        return Ok(says(
            alloc,
            Ok(Ordered {
                ordered: 0,
                version,
            }),
        ));
    }
    let row = OrderRow {
        name: name.copied(alloc)?,
        version,
        upto: tables.submissions.len() as u64,
    };
    let ordered = Ordered {
        ordered: count,
        version,
    };
    appends(alloc, Ok(ordered), Row::Order(row))
}

/// How many submissions to the exercise have another version of their own and stand in no order of this version, as far as
/// 32 bits go.
fn unordered(tables: &Tables, name: &Bytes, version: u32) -> u32
    ensures value { result ≡ unordered tables.now name.now version }
{
    let rows = tables.submissions.as_slice();
    unordered_in(tables.orders.as_slice(), rows, name, version)
}

fn unordered_in(orders: &[OrderRow], rows: &[SubmissionRow], name: &Bytes, version: u32) -> u32
    ensures value { result ≡ min (length (unordered_from orders.now name.now version 1 rows.now)) (2 ^ 32 - 1) }
{
    let mut count = 0_u32;
    for place in 0..rows.len() {
        if is_unordered(orders, name, version, place as u64 + 1, &rows[place]) {
            count = count.saturating_add(1);
        }
    }
    count
}

fn is_unordered(
    orders: &[OrderRow],
    name: &Bytes,
    version: u32,
    ticket: u64,
    row: &SubmissionRow,
) -> bool
    ensures value { result ≡ is_unordered orders.now name.now version ticket row.now }
{
    row.name == *name && row.version != version && !is_ordered(orders, name, version, ticket)
}

/// Whether one of the orders is for the submission of this exercise with this ticket, and for this version.
pub fn is_ordered(orders: &[OrderRow], name: &Bytes, version: u32, ticket: u64) -> bool
    ensures value { result ≡ list_any (is_for name.now version ticket) orders.now }
{
    orders
        .iter()
        .any(|order| is_for(name, version, ticket, order))
}

/// Whether the order is for the submission of this exercise with this ticket, and for this version.
fn is_for(name: &Bytes, version: u32, ticket: u64, order: &OrderRow) -> bool
    ensures value { result ≡ is_for name.now version ticket order.now }
{
    order.name == *name && order.version == version && ticket <= order.upto
}
