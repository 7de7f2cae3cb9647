// What one token is, taken alone.
ghost use Rattle.std.specs.Prelude.{◌≡◌};
ghost use Rattle.std.specs.Str.{bytes_eq};
ghost use Rattle.line.specs.Words.{keyword_of, sign_of, double_of, operator_spelt, operand_spelt};

use crate::syntax::{Operand, Operator};
use crate::variable::Variable;
use numeral::wide_value;
use std::str::from_utf8;

#[derive(Clone, Copy, PartialEq, Eq, Debug)]
pub(crate) enum Keyword {
    Pass,
    Halt,
    If,
    Get,
    Put,
}

pub(crate) fn is_exactly(token: &[u8], spelling: &str) -> bool
    ensures { result ≡ bytes_eq token.now spelling.now }
{
    token == spelling.as_bytes()
}

pub(crate) fn keyword_of(token: &[u8]) -> Option<Keyword>
    ensures { result ≡ keyword_of token.now }
{
    match from_utf8(token).ok()? {
        "pass" => Some(Keyword::Pass),
        "halt" => Some(Keyword::Halt),
        "if" => Some(Keyword::If),
        "get" => Some(Keyword::Get),
        "put" => Some(Keyword::Put),
        _ => None,
    }
}

// The operator of one character. It is a rule of the project that operators are told by cases of characters
// and texts.
fn operator_of_sign(sign: char) -> Option<Operator>
    ensures { result ≡ sign_of sign }
{
    match sign {
        '+' => Some(Operator::Add),
        '-' => Some(Operator::Sub),
        '*' => Some(Operator::Mul),
        '/' => Some(Operator::Div),
        '%' => Some(Operator::Rem),
        '<' => Some(Operator::Less),
        '&' => Some(Operator::And),
        _ => None,
    }
}

// The operator of two characters.
fn operator_of_pair(token: &[u8]) -> Option<Operator>
    ensures { result ≡ double_of token.now }
{
    match from_utf8(token).ok()? {
        "==" => Some(Operator::Equal),
        _ => None,
    }
}

pub(crate) fn operator_of(token: &[u8]) -> Option<Operator>
    ensures { result ≡ operator_spelt token.now }
{
    match token {
        [sign] => operator_of_sign(char::from(*sign)),
        _ => operator_of_pair(token),
    }
}

pub(crate) fn operand_of(token: &[u8]) -> Option<Operand<i64>>
    ensures { result ≡ operand_spelt token.now }
{
    Variable::from_token(token)
        .map(Operand::Var)
        .or_else(|| wide_value(token).map(Operand::Num))
}
