// Data-flow problems on graphs, and the solver that finds the greatest solution of any of them.
#![tactic(auto)]

mod distance;
mod gen_kill;
mod problem;
mod queue;
mod solver;

pub use distance::Distance;
pub use gen_kill::{Effect, GenKill};
pub use problem::Problem;
pub use solver::solve;
