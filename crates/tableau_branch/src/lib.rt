//! A branch of the tableau as a trail that grows and is cut back, with what the search asks of it: what stands on it, which
//! terms it has, and whether it is closed.
#![tactic(auto)]

mod branch;
mod indexed;
mod places;
mod terms;
mod trail;
mod weight;

pub use branch::Branch;
pub use trail::Trail;
