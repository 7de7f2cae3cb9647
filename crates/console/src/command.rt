// What one line of input asks for.
ghost use Rattle.std.specs.Prelude.{◌≡◌, ◌==◌, position};
ghost use Rattle.console.specs.Commands.{word, after, only_blank, verb_of, NumberOf, Mends, Alone, Named, Asks};

use draft::Edit;
use std::str::from_utf8;

// The text of an edit is a part of the line of input.
#[derive(Clone, Copy, PartialEq, Eq, Debug)]
pub(crate) enum Command<'a> {
    Edit(Edit<'a>),
    List,
    Help,
}

// Why a line of input asks for nothing that can be done.
#[derive(Clone, Copy, PartialEq, Eq, Debug)]
pub(crate) enum Reason<'a> {
    // no command has this name
    NoCommand(&'a [u8]),
    // nothing may follow this command
    NothingMore(&'a [u8]),
    // no line number follows
    NoNumber,
    // this is no line number
    BadNumber(&'a [u8]),
}

// The word that a command begins with.
#[derive(Clone, Copy, PartialEq, Eq, Debug)]
enum Verb {
    Add,
    Mend,
    Strike,
    List,
    Help,
}

impl Verb {
    #[tactic(auto, using(crate::proofs::Strike::strikes))]
    fn from_word(word: &[u8]) -> Option<Verb>
        ensures { result ≡ verb_of word.now }
    {
        match word {
            b"add" => Some(Verb::Add),
            b"mend" => Some(Verb::Mend),
            b"strike" => Some(Verb::Strike),
            b"list" => Some(Verb::List),
            b"help" => Some(Verb::Help),
            _ => None,
        }
    }
}

// A function of its own, since a chain is followed to its result only where a contract says it.
fn first_space(line: &[u8]) -> Option<usize>
    ensures { result ≡ position (λ b. b == 32) line.now }
{
    line.iter().position(|b| *b == b' ')
}

// The bytes before the first space, and those after it.
fn cut(line: &[u8]) -> (&[u8], &[u8])
    ensures word { result.0.now ≡ word line.now }
    ensures rest { result.1.now ≡ after line.now }
{
    match first_space(line) {
        Some(i) => (&line[..i], &line[i + 1..]),
        None => (line, b""),
    }
}

fn all_blank(text: &[u8]) -> bool
    ensures { result ≡ only_blank text.now }
{
    text.iter().all(|b| *b == b' ')
}

// The number that the decimal digits spell. No sign may lead, though `parse` takes a plus.
#[tactic(auto, using(crate::proofs::Digits::utf8_digits))]
fn number_of(digits: &[u8]) -> Option<usize>
    ensures { NumberOf digits.now result }
{
    if digits.starts_with(b"+") {
        return None;
    }
    from_utf8(digits).ok()?.parse().ok()
}

// `K TEXT`, after `mend` and a space.
fn mend_of(rest: &[u8]) -> Result<Command<'_>, Reason<'_>>
    ensures { Mends rest.now result }
{
    let (digits, text) = cut(rest);
    if digits.is_empty() {
        return Err(Reason::NoNumber);
    }
    let number = number_of(digits).ok_or(Reason::BadNumber(digits))?;
    Ok(Command::Edit(Edit::Mend(number, text)))
}

// A command that stands alone; spaces may trail.
fn alone<'a>(command: Command<'a>, name: &'a [u8], rest: &[u8]) -> Result<Command<'a>, Reason<'a>>
    ensures { Alone command.entry name.now rest.now result }
{
    if all_blank(rest) {
        Ok(command)
    } else {
        Err(Reason::NothingMore(name))
    }
}

// The command that the name begins, with what follows the name.
fn command_of<'a>(name: &'a [u8], rest: &'a [u8]) -> Result<Command<'a>, Reason<'a>>
    ensures { Named (verb_of name.now) name.now rest.now result }
{
    match Verb::from_word(name).ok_or(Reason::NoCommand(name))? {
        Verb::Add => Ok(Command::Edit(Edit::Add(rest))),
        Verb::Mend => mend_of(rest),
        Verb::Strike => alone(Command::Edit(Edit::Strike), name, rest),
        Verb::List => alone(Command::List, name, rest),
        Verb::Help => alone(Command::Help, name, rest),
    }
}

impl Command<'_> {
    // What the line asks for; a blank line and a remark ask for nothing. White space before the
    // command is passed over.
    pub(crate) fn parse(line: &[u8]) -> Result<Option<Command<'_>>, Reason<'_>>
        ensures { Asks line.now result }
    {
        let (name, rest) = cut(line.trim_ascii_start());
        if name.is_empty() || name.starts_with(b"#") {
            return Ok(None);
        }
        command_of(name, rest).map(Some)
    }
}
