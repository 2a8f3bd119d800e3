ghost use Rattle.std.specs.Prelude.{◌≡◌, IfOk, IfErr, Some};
ghost use Rattle.toml.specs.View.{table_view};
ghost use Rattle.exercise_fields.specs.Document.{document_of, IsNoDocument};

use crate::fault::FieldFault;
use std::alloc::Global;
use toml::Table;

/// The most bytes that an exercise's text may have.
pub const LONGEST_TEXT: usize = 65_536;

/// The table that the text of an exercise writes in TOML 1.1. It is refused with code 1 at field 0 where it is longer than
/// 65,536 bytes, isn't UTF-8 or isn't TOML.
pub fn read_document(alloc: Global, text: &[u8]) -> Result<Table, FieldFault>
    ensures read { IfOk result (λ table. document_of text.now ≡ Some (table_view table)) }
    ensures refused { IfErr result (λ fault. IsNoDocument (document_of text.now) fault) }
{
    if text.len() > LONGEST_TEXT {
        return Err(FieldFault::Refused(1, 0));
    }
    let Ok(text) = str::from_utf8(text) else {
        return Err(FieldFault::Refused(1, 0));
    };
    match toml::table_from_str(alloc, text) {
        Ok(table) => Ok(table),
        Err(error) => {
            if error.is_memory() {
                Err(FieldFault::Memory)
            } else {
                Err(FieldFault::Refused(1, 0))
            }
        }
    }
}
