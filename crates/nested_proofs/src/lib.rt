//! Nested Fitch proofs: their scope, the tests of their lines, their soundness, and how all of this
//! is read off flat lines.
#![tactic(auto)]

mod cites;
mod count;
mod fresh;
mod kind;
mod laws;
mod lines;
mod nesting;
mod read_off;
mod shape;
mod visibility;

pub use cites::cites_ok;
pub use count::{Count, takes_lines, takes_subproofs, wants_box};
pub use fresh::fresh_at;
pub use kind::{RuleKind, kind_of};
pub use laws::{nesting_laws, soundness_laws, visibility_laws};
pub use lines::{Lines, MOST_LINES};
pub use nesting::{level, opens};
pub use read_off::{cited_conclusion, cited_sentence, only_cited};
pub use shape::{are_in_form, is_shaped};
pub use visibility::{line_visible, sub_visible};
