// Programs: drafts that were found to be programs, sealed.
#![tactic(auto)]

mod expression;
mod sealed;
mod sealing;
mod successors;

pub use expression::Expression;
pub use sealed::Sealed;
