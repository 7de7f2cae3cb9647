// Numbers as text: `0`, or an optional `-`, a digit 1 to 9 and at most nine more digits.
#![tactic(auto)]

ghost use Rattle.std.specs.Prelude.{◌≡◌, true, false, Some, None};
ghost use Rattle.std.specs.Str.{all_ascii_digits};
ghost use Rattle.numeral.specs.Numbers.{leads, shaped, int_of, wide_of, narrow_of, numeral_spelt, Spelt};

use std::str::from_utf8;

// Why a text is no number of 32 signed bits.
#[derive(Clone, Copy, PartialEq, Eq, Debug)]
pub enum NumeralError {
    NotANumber,
    OutOfRange,
}

fn all_digits(text: &[u8]) -> bool
    ensures { result ≡ all_ascii_digits text.now }
{
    text.iter().all(|d| d.is_ascii_digit())
}

// A digit 1 to 9 and at most nine more digits.
fn leading(text: &[u8]) -> bool
    ensures { result ≡ leads text.now }
{
    match text {
        [b'1'..=b'9', rest @ ..] => rest.len() <= 9 && all_digits(rest),
        _ => false,
    }
}

// `0`, or an optional `-` and such digits.
fn has_shape(text: &[u8]) -> bool
    ensures { result ≡ shaped text.now }
{
    match text {
        [] => false,
        [b'-', rest @ ..] => leading(rest),
        [b'0', rest @ ..] => rest.is_empty(),
        _ => leading(text),
    }
}

// Whether the text spells a number of at most ten digits.
fn is_number(text: &[u8]) -> bool
    ensures value { result ≡ shaped text.now }
    ensures none { result ≡ false → Spelt text.now None }
{
    has_shape(text)
}

// The number that such a text spells.
fn spelt_number(text: &[u8]) -> i64
    requires { shaped text.now ≡ true }
    ensures value { result ≡ int_of text.now }
    ensures spelt { Spelt text.now (Some result) }
{
    let Ok(digits) = from_utf8(text) else {
        unreachable()
    };
    let Ok(number) = digits.parse::<i64>() else {
        unreachable()
    };
    number
}

// The number of at most ten digits that the text spells.
pub fn wide_value(text: &[u8]) -> Option<i64>
    ensures value { result ≡ wide_of text.now }
    ensures spelt { Spelt text.now result }
{
    is_number(text).then(|| spelt_number(text))
}

// The same number, where 32 signed bits hold it: std's conversion, with the rule's word in its contract.
pub fn narrow(number: i64) -> Option<i32>
    ensures { result ≡ narrow_of number }
{
    i32::try_from(number).ok()
}

// The number of 32 signed bits that the text spells.
pub fn numeral_of(text: &[u8]) -> Result<i32, NumeralError>
    ensures { result ≡ numeral_spelt text.now }
{
    let number = wide_value(text).ok_or(NumeralError::NotANumber)?;
    narrow(number).ok_or(NumeralError::OutOfRange)
}
