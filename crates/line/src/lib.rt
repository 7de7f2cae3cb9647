// One line of a door program: its types, its reader and its printer.
#![tactic(auto)]

mod class;
mod cursor;
mod label;
mod parse;
mod print;
mod range;
mod reader;
mod syntax;
mod variable;
mod word;

pub use label::Label;
pub use print::LONGEST;
pub use reader::read;
pub use syntax::{Action, Line, Operand, Operator, Statement};
pub use variable::Variable;
