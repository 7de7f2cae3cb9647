// A session: commands in, answers out.
ghost use Rattle.std.specs.Prelude.{◌≡◌};
ghost use Rattle.console.specs.Changes.{changed, Heeds};

use crate::answer::{HELP, Refusal, Shown};
use crate::command::Command;
use draft::{Draft, Edit};
use fault::Fault;
use line::LONGEST;
use std::alloc::Global;
use std::io;
use std::io::BufRead;

// The text that the edit brings.
fn text_of(edit: Edit<'_>) -> &[u8] {
    match edit {
        Edit::Add(text) | Edit::Mend(_, text) => text,
        Edit::Strike => b"",
    }
}

// The number of the line that is kept or gone, or the refusal.
fn tell(rt: &impl Print, edit: Edit<'_>, answer: Result<usize, Fault>) -> io::Result<()> {
    match answer {
        Ok(number) if edit == Edit::Strike => println!(rt; "struck line {number}"),
        Ok(number) => println!(rt; "line {number}"),
        Err(fault) => rt.println(Refusal {
            fault,
            text: text_of(edit),
        }),
    }
}

fn list_line(rt: &impl Print, draft: &Draft, number: usize) -> io::Result<()> {
    // An array and a length: it is a rule of the project that a line is printed to a buffer of the caller's.
    let mut buffer = [0u8; LONGEST];
    match draft.print(number, &mut buffer) {
        Ok(size) => println!(rt; "{number:>2}  {}", Shown(&buffer[..size])),
        Err(fault) => rt.println(Refusal { fault, text: b"" }),
    }
}

fn list(rt: &impl Print, draft: &Draft) -> io::Result<()> {
    if draft.len() == 0 {
        return rt.println("no lines");
    }
    // By number, since the draft's call prints a line by its number.
    for number in 1..=draft.len() {
        list_line(rt, draft, number)?;
    }
    Ok(())
}

fn obey(rt: &impl Print, draft: &mut Draft, command: Command<'_>) -> io::Result<()>
    ensures { draft.new ≡ changed command.entry draft.old }
{
    match command {
        Command::Edit(edit) => tell(rt, edit, draft.apply(edit)),
        Command::List => list(rt, draft),
        Command::Help => rt.println(HELP),
    }
}

fn answer(rt: &impl Print, draft: &mut Draft, line: &[u8]) -> io::Result<()>
    ensures { Heeds line.now draft.old draft.new }
{
    match Command::parse(line) {
        Ok(Some(command)) => obey(rt, draft, command),
        Ok(None) => Ok(()),
        Err(reason) => println!(rt; "not done: {reason}"),
    }
}

// Answers each line of the input, to its end. The draft opens empty.
pub(crate) fn talk<B: BufRead + Drop>(
    rt: &impl Print,
    heap: Global,
    input: B,
) -> anyhow::Result<()> {
    let mut draft = Draft::new(heap)?;
    for part in input.split(heap, b'\n') {
        let line = part?;
        answer(rt, &mut draft, &line)?;
    }
    Ok(())
}
