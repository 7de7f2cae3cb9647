// A label: 1 to 8 letters.
ghost use Rattle.std.specs.Prelude.{◌≡◌, ◌≤◌, true, length, Decides};
ghost use Rattle.line.specs.Names.{is_name, only_letters};

use crate::class::is_letter;

// The letters stand first, and zeros after them: an array with a length beside it, since a label is `Copy`.
#[derive(Clone, Copy, Debug)]
pub struct Label {
    letters: [u8; 8],
    size: usize,
    ghost ok: { is_name letters size ≡ true },
}

fn all_letters(token: &[u8]) -> bool
    ensures { result ≡ only_letters token.now }
{
    token.iter().all(|b| is_letter(*b))
}

impl Label {
    ghost use Rattle.line.specs.Words.{label_of, label_text};

    // The label that the token spells. No `TryFrom`: its error would say nothing, and every caller has a column to say.
    pub(crate) fn from_token(token: &[u8]) -> Option<Label>
        ensures { result ≡ label_of token.now }
    {
        let size = token.len();
        if !(1..=8).contains(&size) || !all_letters(token) {
            return None;
        }
        let mut letters = [0u8; 8];
        letters[..size].copy_from_slice(token);
        Some(Label { letters, size })
    }

    // Its letters.
    pub fn text(&self) -> &[u8]
        ensures text { result.now ≡ label_text self.now }
        ensures few { length result.now ≤ 8 }
    {
        &self.letters[..self.size]
    }
}

// By hand, since it promises that labels with the same letters are equal: a derive promises only what it compares.
impl PartialEq for Label {
    ghost use Rattle.std.specs.Cmp.{decided, partial_equiv_from_equiv};
    ghost use Rattle.line.specs.Words.{same_label};
    ghost use Rattle.line.specs.Tokens.{label_decides};

    ghost eq = { same_label };

    ghost laws = { partial_equiv_from_equiv (decided same_label label_decides) };

    fn eq(&self, other: &Label) -> bool
        ensures value { result ≡ same_label self.now other.now }
        ensures equal { Decides result (self.now ≡ other.now) }
    {
        self.text() == other.text()
    }
}

impl Eq for Label {
    ghost use Rattle.std.specs.Cmp.{decided};
    ghost use Rattle.line.specs.Words.{same_label};
    ghost use Rattle.line.specs.Tokens.{label_decides};

    ghost laws = { decided same_label label_decides };
}
