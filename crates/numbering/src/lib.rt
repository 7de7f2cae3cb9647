// A list that numbers different elements.
#![tactic(auto)]

mod list;

pub use list::{NoRoom, Numbering};
