ghost use Rattle.std.specs.Prelude.{◌≡◌};
ghost use Rattle.toml.specs.View.{table_view};
ghost use Rattle.exercise_fields.specs.Kinds as spec;
ghost use Rattle.exercise_fields.specs.Kinds.{kind_of};

use crate::fault::FieldFault;
use crate::field::Field;
use crate::values::{of_other_type, value_at};
use toml::Table;

/// What a student hands in, and how it is judged.
#[derive(Clone, Copy, Debug, PartialEq, Eq)]
pub enum Kind {
    /// A proof of the goal from the premises.
    Proof,
    /// A proof of the goal from the premises, or a world in which the premises are true and the goal is false.
    Argument,
    /// A world in which each sentence has its value.
    World,
    /// Sentences that agree with the exercise's, one by one, in each of its worlds.
    Sentences,
    /// The truth table of the sentences, with answers to questions about it.
    Table,
}

/// The kind of the exercise.
pub fn read_kind(table: &Table) -> Result<Kind, FieldFault>
    ensures value { result ≡ kind_of (table_view table.now) }
{
    let Some(value) = value_at(table, Field::KIND.key) else {
        return Err(of_other_type(Field::KIND));
    };
    let Some(name) = value.as_str() else {
        return Err(of_other_type(Field::KIND));
    };
    match kind_named(name.as_bytes()) {
        Some(kind) => Ok(kind),
        None => Err(of_other_type(Field::KIND)),
    }
}

/// The kind of this name.
fn kind_named(name: &[u8]) -> Option<Kind>
    ensures value { result ≡ spec.kind_named name.now }
{
    if name == b"proof".as_slice() {
        Some(Kind::Proof)
    } else if name == b"argument".as_slice() {
        Some(Kind::Argument)
    } else if name == b"world".as_slice() {
        Some(Kind::World)
    } else if name == b"sentences".as_slice() {
        Some(Kind::Sentences)
    } else if name == b"table".as_slice() {
        Some(Kind::Table)
    } else {
        None
    }
}
