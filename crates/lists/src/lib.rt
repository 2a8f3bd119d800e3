//! Lists that contracts see as the list of their items: of any number of items, of at least one, and of at least two.
#![tactic(auto)]

mod bytes;
mod copied;
mod listed;
mod nonempty;
mod order;
mod several;

pub use copied::Copied;
pub use listed::Listed;
pub use nonempty::Nonempty;
pub use several::Several;
