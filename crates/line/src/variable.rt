// A variable: one letter.
ghost use Rattle.std.specs.Prelude.{◌≡◌, true};
ghost use Rattle.std.specs.Char.{is_ascii_lowercase};

use crate::class::is_letter;

#[derive(Clone, Copy, PartialEq, Eq, Debug)]
pub struct Variable {
    letter: u8,
    ghost ok: { is_ascii_lowercase letter ≡ true },
}

impl Variable {
    ghost use Rattle.line.specs.Words.{variable_of};

    // The variable that the token spells. No `TryFrom`, for the reason at a label's.
    pub(crate) fn from_token(token: &[u8]) -> Option<Variable>
        ensures { result ≡ variable_of token.now }
    {
        match token {
            [letter] if is_letter(*letter) => Some(Variable { letter: *letter }),
            _ => None,
        }
    }

    // No `From`, which would not say which byte of a variable it gives.
    pub fn letter(self) -> u8
        ensures { result ≡ self.letter }
    {
        self.letter
    }
}
