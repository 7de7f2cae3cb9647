// The readers of a line's parts. Each takes its tokens from the cursor, and leaves there the part
// of the line that the next reader goes on with.
ghost use Rattle.std.specs.Prelude.{◌≡◌};
ghost use Rattle.std.specs.Fn.{FnOnceReturnsAt};
ghost use Rattle.line.specs.Cursors.{ahead};
ghost use Rattle.line.specs.Words.{exactly, label_of, operand_spelt};
ghost use Rattle.line.specs.States.{Gave, Takes, Took, Stated, Assigned, Joined, Pointed, start, run, column_of, parsed};

use crate::cursor::{Cursor, Token};
use crate::label::Label;
use crate::syntax::{Action, Line, Operand, Statement};
use crate::variable::Variable;
use crate::word::{Keyword, is_exactly, keyword_of, operand_of, operator_of};

// A statement whose successors are still to be read. It is a rule of the project that the reader of statements
// hands the rest of the line on to the reader of successors.
#[derive(Clone, Copy)]
pub(crate) enum Head {
    Act(Action<i64>),
    Test(Operand<i64>),
    Halt,
}

// Where the tokens stop to begin a line: at the one in that column, or too early, at the end. An error with its
// own words and no `Option<usize>`, of which a reader of `Err(None)` would not know what it says.
#[derive(Clone, Copy, PartialEq, Eq, Debug)]
pub(crate) enum Stop {
    At(usize),
    TooEarly,
}

impl Stop {
    // The column, where the line ends before the column `end`.
    fn column(self, end: usize) -> usize
        ensures { result ≡ column_of end self }
    {
        match self {
            Stop::At(column) => column,
            Stop::TooEarly => end,
        }
    }
}

fn take_token<'a>(cursor: &mut Cursor<'a>) -> Result<Token<'a>, Stop>
    ensures { Gave (ahead cursor.old) result (ahead cursor.new) }
{
    cursor.next().ok_or(Stop::TooEarly)
}

// The next token, as the test reads it.
fn take<T: Drop, F: FnOnce(&[u8]) -> Option<T>>(cursor: &mut Cursor<'_>, test: F) -> Result<T, Stop>
    requires { F.IsAlwaysCallable test }
    ensures { Takes (FnOnceReturnsAt F.FnOnce test) (ahead cursor.old) result (ahead cursor.new) }
{
    let token = take_token(cursor)?;
    test(token.text).ok_or(Stop::At(token.column))
}

fn take_label(cursor: &mut Cursor<'_>) -> Result<Label, Stop>
    ensures { Took label_of (ahead cursor.old) result (ahead cursor.new) }
{
    take(cursor, Label::from_token)
}

fn take_operand(cursor: &mut Cursor<'_>) -> Result<Operand<i64>, Stop>
    ensures { Took operand_spelt (ahead cursor.old) result (ahead cursor.new) }
{
    take(cursor, operand_of)
}

// A token that is spelt just so.
fn take_exactly(cursor: &mut Cursor<'_>, spelling: &str) -> Result<(), Stop>
    ensures { Took (exactly spelling.now) (ahead cursor.old) result (ahead cursor.new) }
{
    take(cursor, |text| is_exactly(text, spelling).then_some(()))
}

// What may follow `v = o`: an operator and an operand, or nothing.
fn take_second(
    cursor: &mut Cursor<'_>,
    v: Variable,
    first: Operand<i64>,
) -> Result<Action<i64>, Stop>
    ensures { Joined v first (ahead cursor.old) result (ahead cursor.new) }
{
    let mut peek = *cursor;
    let Some(operator) = peek.next().and_then(|token| operator_of(token.text)) else {
        return Ok(Action::Set(v, first));
    };
    *cursor = peek;
    let second = take_operand(cursor)?;
    Ok(Action::Compute(v, first, operator, second))
}

// What follows `v`: `= get`, `= o` or `= o op o`.
fn take_assignment(cursor: &mut Cursor<'_>, v: Variable) -> Result<Action<i64>, Stop>
    ensures { Assigned v (ahead cursor.old) result (ahead cursor.new) }
{
    take_exactly(cursor, "=")?;
    let token = take_token(cursor)?;
    if keyword_of(token.text) == Some(Keyword::Get) {
        return Ok(Action::Get(v));
    }
    let first = operand_of(token.text).ok_or(Stop::At(token.column))?;
    take_second(cursor, v, first)
}

fn take_statement(cursor: &mut Cursor<'_>) -> Result<Head, Stop>
    ensures { Stated (ahead cursor.old) result (ahead cursor.new) }
{
    let token = take_token(cursor)?;
    match keyword_of(token.text) {
        Some(Keyword::Pass) => Ok(Head::Act(Action::Pass)),
        Some(Keyword::Halt) => Ok(Head::Halt),
        Some(Keyword::If) => Ok(Head::Test(take_operand(cursor)?)),
        Some(Keyword::Put) => Ok(Head::Act(Action::Put(take_operand(cursor)?))),
        Some(Keyword::Get) => Err(Stop::At(token.column)),
        None => {
            let v = Variable::from_token(token.text).ok_or(Stop::At(token.column))?;
            Ok(Head::Act(take_assignment(cursor, v)?))
        }
    }
}

fn take_successors(cursor: &mut Cursor<'_>, head: Head) -> Result<Statement<i64>, Stop>
    ensures { Pointed head (ahead cursor.old) result (ahead cursor.new) }
{
    match head {
        Head::Halt => Ok(Statement::Halt),
        Head::Act(action) => {
            take_exactly(cursor, "->")?;
            let next = take_label(cursor)?;
            Ok(Statement::Then(action, next))
        }
        Head::Test(tested) => {
            take_exactly(cursor, "->")?;
            let first = take_label(cursor)?;
            let second = take_label(cursor)?;
            Ok(Statement::If(tested, first, second))
        }
    }
}

fn take_line(cursor: &mut Cursor<'_>) -> Result<Line<i64>, Stop>
    ensures { result ≡ run start (ahead cursor.old) }
{
    let label = take_label(cursor)?;
    let head = take_statement(cursor)?;
    let statement = take_successors(cursor, head)?;
    if let Some(token) = cursor.next() {
        return Err(Stop::At(token.column));
    }
    Ok(Line { label, statement })
}

// The line that the tokens spell, its numbers not yet held to 32 bits, or the column of the first
// token that no line has there, or one past the last byte where the tokens stop too early.
pub(crate) fn parse(text: &[u8]) -> Result<Line<i64>, usize>
    ensures { result ≡ parsed text.now }
{
    let mut cursor = Cursor::new(text);
    take_line(&mut cursor).map_err(|stop| stop.column(text.len() + 1))
}
