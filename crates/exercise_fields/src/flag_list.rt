ghost use Rattle.std.specs.Prelude.{◌≡◌, Ok, IfOk};
ghost use Rattle.toml.specs.View.{array_view, table_view};
ghost use Rattle.exercise_fields.specs.Faults.{IsFault};
ghost use Rattle.exercise_fields.specs.Lists.{all_flags, flags_of};

use crate::fault::FieldFault;
use crate::field::Field;
use crate::values::{of_other_type, out_of_range, value_at};
use lists::Listed;
use std::alloc::{AllocError, Global};
use toml::Table;
use toml::value::Array;

/// The truth values of the field, which should be so many.
pub fn flags(
    alloc: Global,
    table: &Table,
    field: Field,
    count: usize,
) -> Result<Listed<bool>, FieldFault>
    ensures read { IfOk result (λ bs. flags_of field count (table_view table.now) ≡ Ok bs) }
    ensures refused { IsFault (flags_of field count (table_view table.now)) result }
{
    let Some(value) = value_at(table, field.key) else {
        return Err(of_other_type(field));
    };
    let Some(items) = value.as_array() else {
        return Err(of_other_type(field));
    };
    match each_flag(alloc, items)? {
        Some(flags) => {
            if flags.len() == count {
                Ok(flags)
            } else {
                Err(out_of_range(field))
            }
        }
        None => Err(of_other_type(field)),
    }
}

/// The truth values that the items are; none where one of them isn't one.
fn each_flag(alloc: Global, items: &Array) -> Result<Option<Listed<bool>>, AllocError>
    ensures value { IfOk result (λ found. found ≡ all_flags (array_view items.now)) }
{
    let mut flags = Listed::new(alloc);
    for item in items {
        match item.as_bool() {
            Some(flag) => flags.add(flag)?,
            None => return Ok(None),
        }
    }
    Ok(Some(flags))
}
