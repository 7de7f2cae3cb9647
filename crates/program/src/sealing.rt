// Sealing: the checks of a draft, by rising number.
mod expressions;
mod halt;
mod labels;
mod wires;

ghost use Rattle.std.specs.Prelude.{◌≡◌, ◌≤◌, length, MatchResult};
ghost use Rattle.graph.specs.Made.{shape_in};
ghost use Rattle.wellformed.specs.Faults.{Clean};
ghost use Rattle.wellformed.specs.Lines.{graph_of};
ghost use Rattle.program.specs.Asked.{asks};
ghost use Rattle.program.specs.Refusals.{Refused};

use draft::MOST_LINES;
pub(crate) use expressions::first_crowding;
use fault::{Fault, Kind};
use graph::{EdgeGraph, Reversed};
use halt::only_halt;
use labels::{Labelled, first_repeated};
use line::Line;
use numbering::Numbering;
use reach::{first_stuck, first_unreached};

impl Labelled<'_, '_> {
    // The lines as a graph in which the first line reaches every line, and every line the one that halts.
    // That no fault fits that was checked before is said in clauses: at each step it is another fact.
    fn connect(&self) -> Result<EdgeGraph, Fault>
        requires { Clean asks self.now.lines.now 10 }
        ensures { MatchResult result (λ g. (shape_in g ≡ graph_of asks self.now.lines.now) × Clean asks self.now.lines.now 14) (Refused self.now.lines.now) }
    {
        let exit = only_halt(self.lines)?;
        if let Some(number) = self.first_leading(Some(0)) {
            return Err(Kind::EdgeToEntry.on(number + 1));
        }
        let graph = self.graph(exit);
        if let Some(number) = first_unreached(&graph) {
            return Err(Kind::Unreachable.on(number + 1));
        }
        let turned = Reversed::new(graph);
        if let Some(number) = first_stuck(&turned) {
            return Err(Kind::DeadEnd.on(number + 1));
        }
        Ok(turned.back())
    }
}

// The lines as a graph, or the first refusal up to that of a dead end. The call that seals, which is still to
// come, makes this check and then `first_crowding`.
pub(crate) fn check_lines(lines: &[Line]) -> Result<EdgeGraph, Fault>
    requires { length lines.now ≤ 96 }
    ensures { MatchResult result (λ g. (shape_in g ≡ graph_of asks lines.now) × Clean asks lines.now 14) (Refused lines.now) }
{
    if lines.is_empty() {
        return Err(Kind::NoLines.on(0));
    }
    let mut slots = [lines[0].label; MOST_LINES];
    let mut labels = Numbering::new(&mut slots);
    if let Some(number) = first_repeated(lines, &mut labels) {
        return Err(Kind::RepeatedLabel.on(number + 1));
    }
    let labelled = Labelled { lines, labels };
    if let Some(number) = labelled.first_leading(None) {
        return Err(Kind::UnknownSuccessor.on(number + 1));
    }
    labelled.connect()
}
