// The checks on labels: a label twice, and successors by their labels.
ghost use Rattle.std.specs.Prelude.{◌≡◌, ◌≤◌, [], length, None};
ghost use Rattle.wellformed.specs.Faults.{Repeated, Fits};
ghost use Rattle.program.specs.Asked.{asks};
ghost use Rattle.program.specs.Refusals.{LowestLine, Leads, labels_of};

use crate::successors::Successors;
use line::{Label, Line};
use numbering::Numbering;

// Numbers the labels, and answers the lowest line whose label an earlier line has: no Result, since with such
// a line the list is of use to nobody, and is let go.
pub(crate) fn first_repeated(lines: &[Line], labels: &mut Numbering<'_, Label>) -> Option<usize>
    requires empty { labels.old.items ≡ [] }
    requires room { length lines.now ≤ labels.old.room }
    ensures lowest { LowestLine (Fits asks lines.now Repeated) result }
    ensures labels { result ≡ None → labels.new.items ≡ labels_of lines.now }
{
    for (number, line) in lines.iter().enumerate() {
        if labels.number(line.label) != Ok(number) {
            return Some(number);
        }
    }
    None
}

// At most 96 lines with their labels, of which none stands twice, so that each has its line's number.
#[derive(Drop)]
pub(crate) struct Labelled<'l, 'n> {
    pub(crate) lines: &'l [Line],
    pub(crate) labels: Numbering<'n, Label>,
    ghost few: { length lines.now ≤ 96 },
    ghost named: { labels.items ≡ labels_of lines.now },
}

impl Labelled<'_, '_> {
    // The lowest line with a successor label that stands on that line, or on none.
    // It is a rule of the project that this is a search over lines and, inside, over labels, left by a label.
    pub(crate) fn first_leading(&self, to: Option<usize>) -> Option<usize>
        ensures { LowestLine (Leads self.now.lines.now to) result }
    {
        'found: {
            for (number, line) in self.lines.iter().enumerate() {
                for label in Successors::of(line).labels() {
                    if self.labels.find(label) == to {
                        break 'found Some(number);
                    }
                }
            }
            None
        }
    }
}
