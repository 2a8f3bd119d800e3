ghost use Rattle.std.specs.Prelude.{◌≡◌, Ok, IfOk};
ghost use Rattle.toml.specs.View.{array_view, table_view};
ghost use Rattle.exercise_fields.specs.Faults.{IsFault};
ghost use Rattle.exercise_fields.specs.Lists.{all_texts, any_texts_of, texts_of};

use crate::fault::FieldFault;
use crate::field::Field;
use crate::values::{has_room, of_other_type, out_of_range, value_at};
use lists::Listed;
use std::alloc::{AllocError, Global};
use toml::Table;
use toml::value::Array;

/// Texts in their order.
type Texts = Listed<Listed<u8>>;

/// The texts of the field, however many there are.
pub fn any_texts(
    alloc: Global,
    table: &Table,
    field: Field,
) -> Result<Listed<Listed<u8>>, FieldFault>
    ensures read { IfOk result (λ ts. any_texts_of field (table_view table.now) ≡ Ok ts) }
    ensures refused { IsFault (any_texts_of field (table_view table.now)) result }
{
    let Some(value) = value_at(table, field.key) else {
        return Err(of_other_type(field));
    };
    let Some(items) = value.as_array() else {
        return Err(of_other_type(field));
    };
    match each_text(alloc, items)? {
        Some(texts) => Ok(texts),
        None => Err(of_other_type(field)),
    }
}

/// The texts of the field, of which there are as many as it may have.
pub fn texts(alloc: Global, table: &Table, field: Field) -> Result<Listed<Listed<u8>>, FieldFault>
    ensures read { IfOk result (λ ts. texts_of field (table_view table.now) ≡ Ok ts) }
    ensures refused { IsFault (texts_of field (table_view table.now)) result }
{
    let texts = any_texts(alloc, table, field)?;
    if has_room(field, texts.len()) {
        Ok(texts)
    } else {
        Err(out_of_range(field))
    }
}

/// The texts that the items are; none where one of them isn't a text.
fn each_text(alloc: Global, items: &Array) -> Result<Option<Texts>, AllocError>
    ensures value { IfOk result (λ found. found ≡ all_texts (array_view items.now)) }
{
    let mut texts = Listed::new(alloc);
    for item in items {
        match item.as_str() {
            Some(text) => texts.add(Listed::from_slice(alloc, text.as_bytes())?)?,
            None => return Ok(None),
        }
    }
    Ok(Some(texts))
}
