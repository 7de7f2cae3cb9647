// A draft: the lines of a program that is being written, numbered from 1.
#![tactic(auto)]

mod draft;
mod edit;

pub use draft::{Draft, MOST_LINES};
pub use edit::{Edit, Replayed, replay};
