// Refusals: what is wrong, of which layer, under which number, and where.
#![tactic(auto)]

ghost use Rattle.std.specs.Prelude.{◌≡◌, Some};
ghost use Rattle.fault.specs.Shown.{layer_text, fault_text};
ghost use Rattle.fault.specs.Table.{layer_of, number_of, flaw_at, placed, plain_fault};

use std::fmt;

// The part of the tool that refuses.
#[derive(Clone, Copy, PartialEq, Eq, Debug)]
pub enum Layer {
    Text,
    Draft,
    Seal,
}

// What is wrong, by the number under which it is known.
#[derive(Clone, Copy, PartialEq, Eq, Debug)]
pub enum Kind {
    // a text of more than 80 bytes
    TooLong = 1,
    // a byte that no line has
    ForeignByte = 2,
    // tokens that spell no line
    NotALine = 3,
    // a number that 32 signed bits do not hold
    OutOfRange = 4,
    // a line more than a draft can hold
    DraftFull = 5,
    // a line number that the draft does not have
    NoSuchLine = 6,
    // a draft without lines
    NoLines = 7,
    // a label that an earlier line has
    RepeatedLabel = 8,
    // a successor label that stands on no line
    UnknownSuccessor = 9,
    // no line that halts, or a second one
    NotOneHalt = 10,
    // an edge that leads to the first line
    EdgeToEntry = 11,
    // a line that the first line cannot reach
    Unreachable = 12,
    // a line that cannot reach the halt
    DeadEnd = 13,
    // an expression more than a program can have
    TooManyExpressions = 14,
    // a buffer shorter than the text to be printed
    ShortBuffer = 16,
}

// What is wrong in one text, and at which column of it.
#[derive(Clone, Copy, PartialEq, Eq, Debug)]
pub struct Flaw {
    pub kind: Kind,
    // no Option: it is a rule of the project that a column without a meaning is 0, and is printed so
    pub column: usize,
}

// What is wrong, on which line of the draft and at which column.
#[derive(Clone, Copy, PartialEq, Eq, Debug)]
pub struct Fault {
    pub kind: Kind,
    // no Options: it is a rule of the project that a line or column without a meaning is 0, and is printed so
    pub line: usize,
    pub column: usize,
}

impl Kind {
    pub fn layer(self) -> Layer
        ensures { result ≡ layer_of self }
    {
        match self {
            Kind::TooLong
            | Kind::ForeignByte
            | Kind::NotALine
            | Kind::OutOfRange
            | Kind::ShortBuffer => Layer::Text,
            Kind::DraftFull | Kind::NoSuchLine => Layer::Draft,
            Kind::NoLines
            | Kind::RepeatedLabel
            | Kind::UnknownSuccessor
            | Kind::NotOneHalt
            | Kind::EdgeToEntry
            | Kind::Unreachable
            | Kind::DeadEnd
            | Kind::TooManyExpressions => Layer::Seal,
        }
    }

    // The number under which the refusal is known.
    pub fn number(self) -> u8
        ensures { result ≡ number_of self }
    {
        self as u8
    }

    // What is wrong, at that column of one text.
    pub fn at(self, column: usize) -> Flaw
        ensures { result ≡ flaw_at self column }
    {
        Flaw { kind: self, column }
    }

    // A refusal of that line, where no column has a meaning.
    pub fn on(self, line: usize) -> Fault
        ensures { result ≡ plain_fault self line }
    {
        self.at(0).on(line)
    }
}

impl Flaw {
    // The same flaw, of the text on the given line.
    pub fn on(self, line: usize) -> Fault
        ensures { result ≡ placed self line }
    {
        Fault {
            kind: self.kind,
            line,
            column: self.column,
        }
    }
}

impl fmt::Display for Layer {
    ghost output = { λ l. Some (layer_text l) };

    fn fmt<W: fmt::Write>(&self, f: &mut fmt::Formatter<W>) -> fmt::Result {
        f.write_str(match self {
            Layer::Text => "text",
            Layer::Draft => "draft",
            Layer::Seal => "seal",
        })
    }
}

// What the refusal means, for a person.
impl fmt::Display for Kind {
    fn fmt<W: fmt::Write>(&self, f: &mut fmt::Formatter<W>) -> fmt::Result {
        f.write_str(match self {
            Kind::TooLong => "a line has at most 80 bytes",
            Kind::ForeignByte =>
                "no line has this byte: only a to z, 0 to 9, + - * / % < = & > and spaces",
            Kind::NotALine => "no line goes on like this",
            Kind::OutOfRange => "a number lies between -2147483648 and 2147483647",
            Kind::DraftFull => "a draft has at most 96 lines",
            Kind::NoSuchLine => "the draft has no such line",
            Kind::NoLines => "the draft has no lines",
            Kind::RepeatedLabel => "an earlier line has this label",
            Kind::UnknownSuccessor => "a successor label stands on no line",
            Kind::NotOneHalt => "exactly one line of a program halts",
            Kind::EdgeToEntry => "no line may lead to the first line",
            Kind::Unreachable => "the first line cannot reach this line",
            Kind::DeadEnd => "this line cannot reach the line that halts",
            Kind::TooManyExpressions => "a program has at most 64 expressions",
            Kind::ShortBuffer => "the buffer is shorter than the line to be printed",
        })
    }
}

// Layer, number, line and column, in this order.
impl fmt::Display for Fault {
    ghost output = { λ f. Some (fault_text f) };

    fn fmt<W: fmt::Write>(&self, f: &mut fmt::Formatter<W>) -> fmt::Result {
        write!(
            f,
            "{} {} {} {}",
            self.kind.layer(),
            self.kind.number(),
            self.line,
            self.column
        )
    }
}
