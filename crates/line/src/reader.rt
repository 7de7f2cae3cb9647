// A line from its text, or the first flaw in it.
ghost use Rattle.std.specs.Prelude.{◌≡◌};
ghost use Rattle.line.specs.Readings.{reading, Clean, Reads, Sorts};

use crate::class::first_foreign;
use crate::parse::parse;
use crate::range::first_beyond;
use crate::syntax::Line;
use fault::{Flaw, Kind};

// The most bytes that a line's text can have.
const MOST: usize = 80;

// A text of at most 80 bytes, none of them foreign.
fn read_clean(text: &[u8]) -> Result<Line, Flaw>
    requires { Clean text.now }
    ensures value { result ≡ reading text.now }
    ensures grammar { Reads text.now result }
{
    let wide = parse(text).map_err(|column| Kind::NotALine.at(column))?;
    if let Some(column) = first_beyond(text) {
        return Err(Kind::OutOfRange.at(column));
    }
    let Ok(line) = Line::try_from(wide) else {
        unreachable()
    };
    Ok(line)
}

// Refuses a text that is too long or has a foreign byte.
fn check_clean(text: &[u8]) -> Result<(), Flaw>
    ensures { Sorts text.now result }
{
    if text.len() > MOST {
        return Err(Kind::TooLong.at(MOST + 1));
    }
    if let Some(column) = first_foreign(text) {
        return Err(Kind::ForeignByte.at(column));
    }
    Ok(())
}

// The line that the text spells, or the first flaw that fits.
pub fn read(text: &[u8]) -> Result<Line, Flaw>
    ensures value { result ≡ reading text.now }
    ensures grammar { Reads text.now result }
{
    check_clean(text)?;
    read_clean(text)
}
