ghost use Rattle.std.specs.Prelude.{◌≡◌, option_map, ℤ};
ghost use Rattle.std.specs.Result.{result_map_both};
ghost use Rattle.toml.specs.Data.{get_member};
ghost use Rattle.toml.specs.View.{view, table_view};
ghost use Rattle.exercise_fields.specs.Values.{whole_of, text_of, is_between, within};

use crate::fault::FieldFault;
use crate::field::Field;
use toml::{Table, Value};

/// The refusal of a field that is missing, or of another type or word than it should be.
pub(crate) fn of_other_type(field: Field) -> FieldFault
    ensures { result ≡ FieldFault.Refused 2 field.number }
{
    FieldFault::Refused(2, field.number)
}

/// The refusal of a field that is out of its range, or has another number of items than it should have.
pub(crate) fn out_of_range(field: Field) -> FieldFault
    ensures { result ≡ FieldFault.Refused 3 field.number }
{
    FieldFault::Refused(3, field.number)
}

/// The value at the key.
pub(crate) fn value_at<'a>(table: &'a Table, key: &str) -> Option<&'a Value>
    ensures { option_map (λ v. view v.now) result ≡ get_member key.now (table_view table.now) }
{
    table.get(key)
}

/// Whether the field may have so much.
pub fn has_room(field: Field, size: usize) -> bool
    ensures value { result ≡ is_between field.least field.most size }
{
    size >= field.least as usize && size <= field.most as usize
}

/// The whole number of the field.
pub fn whole(table: &Table, field: Field) -> Result<u32, FieldFault>
    ensures value { result ≡ whole_of field (table_view table.now) }
{
    match value_at(table, field.key) {
        Some(value) => match value.as_integer() {
            Some(number) => number_within(field, number),
            None => Err(of_other_type(field)),
        },
        None => Err(of_other_type(field)),
    }
}

/// The number, if the field may have it.
fn number_within(field: Field, number: i64) -> Result<u32, FieldFault>
    ensures { result ≡ within field number }
{
    match u32::try_from(number) {
        Ok(number) => {
            if number >= field.least && number <= field.most {
                Ok(number)
            } else {
                Err(out_of_range(field))
            }
        }
        Err(_) => Err(out_of_range(field)),
    }
}

/// The text of the field.
pub fn text(table: &Table, field: Field) -> Result<&str, FieldFault>
    ensures value { result_map_both (λ t. t.now) (λ e. e) result ≡ text_of field (table_view table.now) }
{
    match value_at(table, field.key) {
        Some(value) => match value.as_str() {
            Some(text) => {
                if has_room(field, text.len()) {
                    Ok(text)
                } else {
                    Err(out_of_range(field))
                }
            }
            None => Err(of_other_type(field)),
        },
        None => Err(of_other_type(field)),
    }
}
