// Numbers that 32 signed bits do not hold.
ghost use Rattle.std.specs.Prelude.{◌≡◌};
ghost use Rattle.std.specs.Result.{result_ok};
ghost use Rattle.line.specs.Pieces.{pieces};
ghost use Rattle.line.specs.Ranges.{is_beyond, beyond_at, narrowed_operand, narrowed_action, narrowed_statement, narrowed_line};

use crate::cursor::Cursor;
use crate::syntax::{Action, Line, Operand, Statement};
use numeral::{NumeralError, numeral_of};
use std::num::TryFromIntError;

fn beyond(token: &[u8]) -> bool
    ensures { result ≡ is_beyond token.now }
{
    numeral_of(token) == Err(NumeralError::OutOfRange)
}

// The column of the first number that 32 signed bits do not hold.
pub(crate) fn first_beyond(text: &[u8]) -> Option<usize>
    ensures { result ≡ beyond_at (pieces 1 text.now) }
{
    Cursor::new(text)
        .find(|token| beyond(token.text))
        .map(|token| token.column)
}

// The same operand, where 32 signed bits hold its number.
impl TryFrom<Operand<i64>> for Operand {
    type Error = TryFromIntError;

    ghost try_from_gives = { λ operand r. result_ok r ≡ narrowed_operand operand };

    fn try_from(operand: Operand<i64>) -> Result<Operand, TryFromIntError> {
        match operand {
            Operand::Var(v) => Ok(Operand::Var(v)),
            Operand::Num(n) => Ok(Operand::Num(i32::try_from(n)?)),
        }
    }
}

impl TryFrom<Action<i64>> for Action {
    type Error = TryFromIntError;

    ghost try_from_gives = { λ action r. result_ok r ≡ narrowed_action action };

    fn try_from(action: Action<i64>) -> Result<Action, TryFromIntError> {
        match action {
            Action::Pass => Ok(Action::Pass),
            Action::Set(v, o) => Ok(Action::Set(v, o.try_into()?)),
            Action::Compute(v, a, operator, b) => Ok(Action::Compute(
                v,
                a.try_into()?,
                operator,
                b.try_into()?,
            )),
            Action::Get(v) => Ok(Action::Get(v)),
            Action::Put(o) => Ok(Action::Put(o.try_into()?)),
        }
    }
}

impl TryFrom<Statement<i64>> for Statement {
    type Error = TryFromIntError;

    ghost try_from_gives = { λ statement r. result_ok r ≡ narrowed_statement statement };

    fn try_from(statement: Statement<i64>) -> Result<Statement, TryFromIntError> {
        match statement {
            Statement::Then(action, next) => Ok(Statement::Then(action.try_into()?, next)),
            Statement::If(o, first, second) => Ok(Statement::If(o.try_into()?, first, second)),
            Statement::Halt => Ok(Statement::Halt),
        }
    }
}

impl TryFrom<Line<i64>> for Line {
    type Error = TryFromIntError;

    ghost try_from_gives = { λ line r. result_ok r ≡ narrowed_line line };

    fn try_from(line: Line<i64>) -> Result<Line, TryFromIntError> {
        Ok(Line {
            label: line.label,
            statement: line.statement.try_into()?,
        })
    }
}
