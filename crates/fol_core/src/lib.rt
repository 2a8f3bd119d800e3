//! Sentences of first-order logic: what they are made of, when two are one or alike, their sizes, whether they are
//! closed, which names stand in them, and substitution.
#![tactic(auto)]

mod alike;
mod closed;
mod copies;
mod ident;
mod instance;
mod occurrence;
mod replacement;
mod sent;
mod size;
mod substitution;

pub use alike::{contains, same, same_term};
pub use closed::{is_closed, is_closed_term};
pub use copies::{copy, copy_term};
pub use ident::{Ident, same_ident};
pub use instance::{instance_term, is_instance, is_instance_by, is_some_instance};
pub use occurrence::occurs;
pub use replacement::replaces;
pub use sent::{Args, Parts, Sent, SentFault, Sents, Term, Terms};
pub use size::within;
pub use substitution::subst;
