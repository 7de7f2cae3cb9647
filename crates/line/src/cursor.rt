// The tokens of a line, one after the other: each is a part of the line, with its column.
ghost use Rattle.std.specs.Prelude.{◌≡◌, ℕ, ◌+◌, ◌^◌, ◌<◌, ◌≤◌, length};
ghost use Rattle.line.specs.Pieces.{CountsLeading, Runs};

use crate::class::is_space;

#[derive(Clone, Copy)]
pub(crate) struct Token<'a> {
    pub(crate) text: &'a [u8],
    pub(crate) column: usize,
}

// What is left of a line, and the column of its first byte. No model of the tokens ahead: with a lifetime a type
// with a model is not `Copy`, and the reader of `v = o` goes on with a copy where no operator follows.
#[derive(Clone, Copy)]
pub(crate) struct Cursor<'a> {
    rest: &'a [u8],
    column: usize,
    ghost ends: { column + length rest.now < 2 ^ 64 },
}

// How many bytes lead that pass the test.
fn leading<F: Fn(u8) -> bool>(s: &[u8], test: F) -> usize
    requires { F.IsAlwaysCallable test }
    ensures within { result ≤ length s.now }
    ensures value { CountsLeading (F.post test) s.now result }
{
    s.iter().take_while(|b| test(**b)).count()
}

impl<'a> Cursor<'a> {
    ghost use Rattle.line.specs.Cursors.{ahead};

    // At the start of a line, whose tokens are its longest runs without spaces.
    pub(crate) fn new(line: &'a [u8]) -> Cursor<'a>
        ensures rest { result.rest.now ≡ line.now }
        ensures column { result.column ≡ 1 }
        ensures tokens { Runs 1 line.now (ahead result) }
    {
        Cursor {
            rest: line,
            column: 1,
        }
    }
}

impl<'a> Iterator for Cursor<'a> {
    ghost use Rattle.std.specs.Iterator.{YieldsFirstBy, item_count};
    ghost use Rattle.line.specs.Cursors.{ahead, piece_of};

    type Item = Token<'a>;

    ghost next_gives = { YieldsFirstBy piece_of ahead };

    ghost remaining = { item_count ahead };

    // The next token, or none where only spaces are left.
    fn next(&mut self) -> Option<Token<'a>> {
        let start = leading(self.rest, is_space);
        let rest = &self.rest[start..];
        let column = self.column + start;
        let (text, after) = rest.split_at(leading(rest, |b| !is_space(b)));
        *self = Cursor {
            rest: after,
            column: column + text.len(),
        };
        if text.is_empty() {
            return None;
        }
        Some(Token { text, column })
    }
}
