// A line as text: its tokens parted by single spaces.
ghost use Rattle.std.specs.Prelude.{◌≡◌, ℕ, ◌+◌, ◌≤◌, ◌∷◌, ◌++◌, length, Ok};
ghost use Rattle.arrayvec.specs.ArrayVec.{array_vec_len};
ghost use Rattle.line.specs.Grammar.{spell_operand, spell_operator, spell_action, spell_statement, spaced, printed, EachOperand, EachAction, EachStatement, Fits, Prints};
ghost use Rattle.line.specs.Readings.{reading};

use crate::syntax::{Action, Line, Operand, Operator, Statement};
use arrayvec::ArrayVec;
use fault::{Flaw, Kind};
use itoa::Buffer;

// The most bytes that a printed line can have.
pub const LONGEST: usize = 51;

// A text that is written from its start on. No `Display` writes it: std's contract of `write!` does not say
// when it succeeds, so `print` could not promise that it does. The room that each function below asks for is
// its own, so no one invariant of a sheet could say it.
type Sheet = ArrayVec<u8, LONGEST>;

fn put(sheet: &mut Sheet, text: &[u8])
    requires { array_vec_len sheet.old + length text.now ≤ LONGEST }
    ensures { sheet.new.items ≡ sheet.old.items ++ text.now }
{
    let Ok(()) = sheet.try_extend_from_slice(text) else {
        unreachable()
    };
}

fn put_word(sheet: &mut Sheet, word: &[u8])
    requires { array_vec_len sheet.old + 1 + length word.now ≤ LONGEST }
    ensures { sheet.new.items ≡ sheet.old.items ++ 32 ∷ word.now }
{
    sheet.push(b' ');
    put(sheet, word);
}

fn put_operand(sheet: &mut Sheet, operand: Operand)
    requires { array_vec_len sheet.old + 12 ≤ LONGEST }
    ensures ink { sheet.new.items ≡ sheet.old.items ++ 32 ∷ spell_operand operand }
    ensures short { length (spell_operand operand) ≤ 11 }
    ensures fits { EachOperand Fits operand }
{
    match operand {
        Operand::Var(v) => put_word(sheet, &[v.letter()]),
        Operand::Num(n) => {
            let mut digits = Buffer::new();
            put_word(sheet, digits.format(n).as_bytes());
        }
    }
}

fn spelling(operator: Operator) -> &'static str
    ensures text { result.now ≡ spell_operator operator }
    ensures short { length result.now ≤ 2 }
{
    match operator {
        Operator::Add => "+",
        Operator::Sub => "-",
        Operator::Mul => "*",
        Operator::Div => "/",
        Operator::Rem => "%",
        Operator::Less => "<",
        Operator::Equal => "==",
        Operator::And => "&",
    }
}

fn put_action(sheet: &mut Sheet, action: Action)
    requires { array_vec_len sheet.old ≤ 8 }
    ensures ink { sheet.new.items ≡ sheet.old.items ++ spaced (spell_action action) }
    ensures short { length (spaced (spell_action action)) ≤ 31 }
    ensures fits { EachAction Fits action }
{
    match action {
        Action::Pass => put_word(sheet, b"pass"),
        Action::Set(v, o) => {
            put_word(sheet, &[v.letter()]);
            put_word(sheet, b"=");
            put_operand(sheet, o);
        }
        Action::Compute(v, a, operator, b) => {
            put_word(sheet, &[v.letter()]);
            put_word(sheet, b"=");
            put_operand(sheet, a);
            put_word(sheet, spelling(operator).as_bytes());
            put_operand(sheet, b);
        }
        Action::Get(v) => {
            put_word(sheet, &[v.letter()]);
            put_word(sheet, b"=");
            put_word(sheet, b"get");
        }
        Action::Put(o) => {
            put_word(sheet, b"put");
            put_operand(sheet, o);
        }
    }
}

fn put_statement(sheet: &mut Sheet, statement: Statement)
    requires { array_vec_len sheet.old ≤ 8 }
    ensures ink { sheet.new.items ≡ sheet.old.items ++ spaced (spell_statement statement) }
    ensures short { length (spaced (spell_statement statement)) ≤ 43 }
    ensures fits { EachStatement Fits statement }
{
    match statement {
        Statement::Then(action, next) => {
            put_action(sheet, action);
            put_word(sheet, b"->");
            put_word(sheet, next.text());
        }
        Statement::If(o, first, second) => {
            put_word(sheet, b"if");
            put_operand(sheet, o);
            put_word(sheet, b"->");
            put_word(sheet, first.text());
            put_word(sheet, second.text());
        }
        Statement::Halt => put_word(sheet, b"halt"),
    }
}

// Copies the text to the buffer's start and answers its length.
fn copy_out(text: &[u8], out: &mut [u8]) -> Result<usize, Flaw>
    ensures { Prints text.now out.old result out.new }
{
    let size = text.len();
    if out.len() < size {
        return Err(Kind::ShortBuffer.at(0));
    }
    out[..size].copy_from_slice(text);
    Ok(size)
}

impl Line {
    // The line's text.
    fn written(&self) -> Sheet
        ensures ink { result.items ≡ printed self.now }
        ensures longest { length (printed self.now) ≤ 51 }
        ensures back { reading (printed self.now) ≡ Ok self.now }
    {
        let mut sheet = Sheet::new();
        put(&mut sheet, self.label.text());
        put_statement(&mut sheet, self.statement);
        sheet
    }

    // Writes the line to the buffer's start and answers its length.
    pub fn print(&self, out: &mut [u8]) -> Result<usize, Flaw>
        ensures prints { Prints (printed self.now) out.old result out.new }
        ensures longest { length (printed self.now) ≤ 51 }
        ensures back { reading (printed self.now) ≡ Ok self.now }
    {
        let sheet = self.written();
        copy_out(sheet.as_slice(), out)
    }
}
