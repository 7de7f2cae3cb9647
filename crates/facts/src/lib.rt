// Facts that data-flow problems compute with: what a kind of fact is, sets, and depths.
#![tactic(auto)]

mod depth;
mod fact;
mod set;

pub use depth::{Depth, Level};
pub use fact::Fact;
pub use set::Set64;
