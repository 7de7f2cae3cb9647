// The labels of a line's successors.
ghost use Rattle.std.specs.Prelude.{◌≡◌};
ghost use Rattle.program.specs.Asked.{nexts};
ghost use Rattle.program.specs.Led.{labels_in};

use line::{Label, Line, Statement};

// As many labels as there are, and no `ArrayVec`, which asks a default of its elements: a label has none.
#[derive(Clone, Copy)]
pub(crate) enum Successors {
    Nowhere,
    One([Label; 1]),
    Two([Label; 2]),
}

impl Successors {
    pub(crate) fn of(line: &Line) -> Successors
        ensures { labels_in result ≡ nexts line.now }
    {
        match line.statement {
            Statement::Then(_, next) => Successors::One([next]),
            Statement::If(_, first, second) => Successors::Two([first, second]),
            Statement::Halt => Successors::Nowhere,
        }
    }

    // In their order.
    pub(crate) fn labels(&self) -> &[Label]
        ensures { result.now ≡ labels_in self.now }
    {
        match self {
            Successors::Nowhere => &[],
            Successors::One(labels) => labels,
            Successors::Two(labels) => labels,
        }
    }
}
