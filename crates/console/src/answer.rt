// What the console answers.
ghost use Rattle.std.specs.Prelude.{◌≡◌};
ghost use Rattle.console.specs.Shows.{visible_of, too_early};

use crate::command::Reason;
use fault::{Fault, Kind};
use std::fmt;

pub(crate) const HELP: &str = "add TEXT     put TEXT last, as a new line
mend K TEXT  put TEXT in the place of line K
strike       take the last line away
list         print the lines with their numbers
help         print this
A blank line, or one that begins with #, is passed over.";

// The most bytes of a text that are shown: as many as a line can have, and the first one too many.
const MOST_SHOWN: usize = 81;

// The byte itself where it is printable ASCII, else a question mark.
fn visible(byte: u8) -> char
    ensures { result ≡ visible_of byte }
{
    match byte {
        b' '..=b'~' => char::from(byte),
        _ => '?',
    }
}

// Bytes that need not be text, one column each.
#[derive(Clone, Copy, PartialEq, Eq, Debug)]
pub(crate) struct Shown<'a>(pub(crate) &'a [u8]);

impl fmt::Display for Shown<'_> {
    fn fmt<W: fmt::Write>(&self, f: &mut fmt::Formatter<W>) -> fmt::Result {
        for b in self.0.iter().take(MOST_SHOWN) {
            f.write_char(visible(*b))?;
        }
        if self.0.len() > MOST_SHOWN {
            f.write_str(" ..")?;
        }
        Ok(())
    }
}

// A refusal of the draft, and the text that was refused.
#[derive(Clone, Copy, PartialEq, Eq, Debug)]
pub(crate) struct Refusal<'a> {
    pub(crate) fault: Fault,
    pub(crate) text: &'a [u8],
}

impl Refusal<'_> {
    // Whether the tokens begin a line, and there are too few of them.
    fn stops_early(&self) -> bool
        ensures { result ≡ too_early self.now }
    {
        self.fault.kind == Kind::NotALine && self.text.len() < self.fault.column
    }
}

// Where a column has a meaning, the text stands below the words, with a mark under the column.
impl fmt::Display for Refusal<'_> {
    fn fmt<W: fmt::Write>(&self, f: &mut fmt::Formatter<W>) -> fmt::Result {
        let fault = self.fault;
        let Fault { kind, column, .. } = fault;
        write!(f, "refused {fault}\n    ")?;
        if self.stops_early() {
            f.write_str("the text stops too early to be a line")?;
        } else {
            write!(f, "{kind}")?;
        }
        if column > 0 {
            write!(f, "\n    {}\n    {:>column$}", Shown(self.text), '^')?;
        }
        Ok(())
    }
}

impl fmt::Display for Reason<'_> {
    fn fmt<W: fmt::Write>(&self, f: &mut fmt::Formatter<W>) -> fmt::Result {
        match self {
            Reason::NoCommand(name) => {
                write!(f, "no command is called {}; help lists them", Shown(name))
            }
            Reason::NothingMore(name) => write!(f, "nothing may follow {}", Shown(name)),
            Reason::NoNumber => f.write_str("mend takes a line number and a text"),
            Reason::BadNumber(digits) => write!(f, "{} is no line number", Shown(digits)),
        }
    }
}
