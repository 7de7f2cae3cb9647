// The lines of a program that is being written; each call does what a plain list of lines does.
ghost use Rattle.std.specs.Prelude.{◌≡◌, ◌≤◌, [], length, ℤ, IfOk, Some, vec_len, vec_capacity};
ghost use Rattle.std.specs.Option.{option_map};
ghost use Rattle.line.specs.declared.syntax.Line.{Line};
ghost use Rattle.draft.specs.Plain.{Lines, added, mended, struck, line_at, Answered, PrintsLine, ReadsBack};

use fault::{Fault, Kind};
use line::{Line, read};
use std::alloc::{AllocError, Global};
use std::marker::Model;

// The most lines that a draft can have.
pub const MOST_LINES: usize = 96;

// Memory for the most lines is had when the draft is opened, so no edit can want any.
#[derive(Drop)]
pub struct Draft {
    lines: Vec<Line>,
}

impl Model for Draft {
    ghost Value = { Lines };

    ghost view = { λ d. d.lines.items };

    ghost invariant = { λ d. (vec_len d.lines ≤ 96) × (96 ≤ vec_capacity d.lines) };
}

impl Draft {
    // A draft without lines, or a refusal where there is no memory for 96.
    pub fn new(heap: Global) -> Result<Draft, AllocError>
        ensures { IfOk result (λ d. d ≡ []) }
    {
        let lines = Vec::with_capacity(heap, MOST_LINES)?;
        Ok(Draft { lines })
    }

    // How many lines there are.
    pub fn len(&self) -> usize
        ensures value { result ≡ length self.now }
        ensures few { result ≤ 96 }
    {
        self.lines.len()
    }

    // The lines in their order.
    pub fn lines(&self) -> &[Line]
        ensures lines { result.now ≡ self.now }
        ensures few { length result.now ≤ 96 }
    {
        self.lines.as_slice()
    }

    // The line of that number.
    fn line(&self, number: usize) -> Option<&Line>
        ensures value { option_map (λ x. x.now) result ≡ line_at number self.now }
        ensures few { length self.now ≤ 96 }
    {
        self.lines.get(number.checked_sub(1)?)
    }

    // Puts the text last and answers its number.
    pub fn add(&mut self, text: &[u8]) -> Result<usize, Fault>
        ensures value { Answered (added text.now self.old) result self.new }
        ensures few { length self.new ≤ 96 }
    {
        let number = self.lines.len() + 1;
        let line = read(text).map_err(|flaw| flaw.on(number))?;
        if number > MOST_LINES {
            return Err(Kind::DraftFull.on(number));
        }
        self.lines.push_reserved(line);
        Ok(number)
    }

    // Puts the text in the place of the line of that number, and answers the number. The number is refused before
    // the text is read, so the line is put in by its index after both, and no `&mut` to it is held meanwhile.
    #[tactic(auto, using(crate::proofs::Numbered::absent_from_none))]
    pub fn mend(&mut self, number: usize, text: &[u8]) -> Result<usize, Fault>
        ensures value { Answered (mended number text.now self.old) result self.new }
        ensures few { length self.new ≤ 96 }
    {
        if self.line(number).is_none() {
            return Err(Kind::NoSuchLine.on(number));
        }
        let line = read(text).map_err(|flaw| flaw.on(number))?;
        self.lines[number - 1] = line;
        Ok(number)
    }

    // Takes the last line away and answers the number that it had.
    pub fn strike(&mut self) -> Result<usize, Fault>
        ensures value { Answered (struck self.old) result self.new }
        ensures few { length self.new ≤ 96 }
    {
        let number = self.lines.len();
        self.lines
            .pop()
            .map(|_| number)
            .ok_or(Kind::NoSuchLine.on(0))
    }

    // Writes the line of that number to the buffer's start and answers its length.
    pub fn print(&self, number: usize, out: &mut [u8]) -> Result<usize, Fault>
        ensures prints { PrintsLine number self.now out.old result out.new }
        ensures few { length self.now ≤ 96 }
        ensures back { (x : Line ℤ) → line_at number self.now ≡ Some x → ReadsBack x }
    {
        let line = self.line(number).ok_or(Kind::NoSuchLine.on(number))?;
        line.print(out).map_err(|flaw| flaw.on(number))
    }
}
