ghost use Rattle.std.specs.Prelude.{◌<◌, map, IfOk};
ghost use Rattle.fol_core.specs.Size.{total, nodes};
ghost use Rattle.tutor_app.specs.TableLaws.{table_known, table_only};
ghost use Rattle.tutor_app.specs.Table.{table_answers, IsTableReply};

use crate::report::{letters_reply, list_reply, no_sentence_reply};
use crate::tool::{Reply, Tool};
use boole_table::{TableFault, make_table, print_table};
use fol_core::Sents;
use sentence_lists::read_sentences;
use std::alloc::{AllocError, Global};

/// The most sentences of which a table is made.
const MOST_SENTENCES: usize = 8;

/// The command `table`: reads a list of sentences, and prints their truth table.
pub struct Tabulate;

impl Tool for Tabulate {
    ghost answers = { λ _. table_answers };

    ghost known = { λ _ bytes reply is. table_known bytes reply is };

    ghost only = { λ _ bytes r q is also. table_only bytes r q is also };

    fn answer(&self, alloc: Global, input: &[u8]) -> Result<Reply, AllocError> {
        match read_sentences(alloc, input, MOST_SENTENCES) {
            Ok(sentences) => tabulated(alloc, &sentences),
            Err((line, fault)) => list_reply(alloc, line, fault),
        }
    }
}

/// The reply with the table of the sentences; or that there is none, or that they have too many letters.
fn tabulated(alloc: Global, sentences: &Sents) -> Result<Reply, AllocError>
    requires small { total (map nodes sentences.now) < 4294967296 }
    ensures reply { IfOk result (λ reply. IsTableReply sentences.now reply) }
{
    if sentences.len() == 0 {
        return no_sentence_reply(alloc);
    }
    match make_table(alloc, sentences) {
        Ok(table) => Ok(Reply {
            code: 0,
            text: print_table(alloc, &table)?,
        }),
        Err(TableFault::TooManyLetters(count)) => letters_reply(alloc, count),
        Err(TableFault::Memory) => Err(AllocError),
    }
}
