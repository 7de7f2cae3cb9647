// The lines as a graph.
ghost use Rattle.std.specs.Prelude.{◌≡◌, ◌+◌, ◌≤◌, true, ◌++◌, length};
ghost use Rattle.graph.specs.Made.{shape_in};
ghost use Rattle.wellformed.specs.Faults.{Clean};
ghost use Rattle.wellformed.specs.Lines.{fan, graph_of};
ghost use Rattle.program.specs.Asked.{asks, nexts};
ghost use Rattle.program.specs.Refusals.{every_known, places_of};
ghost use Rattle.program.specs.Written.{edges_in, exit_line};

use crate::sealing::labels::Labelled;
use crate::successors::Successors;
use arrayvec::ArrayVec;
use draft::MOST_LINES;
use graph::{Edge, EdgeGraph};
use line::Line;

// The most edges of a program: two for each line.
const MOST_EDGES: usize = 2 * MOST_LINES;

impl Labelled<'_, '_> {
    // Puts an edge to each successor of the line behind those that there are. By `push`: `extend` answers a
    // Result, of which one arm cannot be here.
    fn put_edges(&self, number: usize, line: &Line, edges: &mut ArrayVec<Edge, MOST_EDGES>)
        requires room { length edges.old.items + length (nexts line.now) ≤ 192 }
        requires known { every_known self.now.labels.items (nexts line.now) ≡ true }
        ensures { edges.new.items ≡ edges.old.items ++ fan number (places_of self.now.labels.items (nexts line.now)) }
    {
        for label in Successors::of(line).labels() {
            if let Some(head) = self.labels.find(label) {
                edges.push(Edge { tail: number, head });
            }
        }
    }

    // One edge for each successor, by line and then by place. That no earlier fault fits is a clause, as at `connect`.
    fn edges(&self) -> ArrayVec<Edge, MOST_EDGES>
        requires { Clean asks self.now.lines.now 10 }
        ensures { result.items ≡ edges_in self.now.lines.now }
    {
        let mut edges = ArrayVec::new();
        for (number, line) in self.lines.iter().enumerate() {
            self.put_edges(number, line, &mut edges);
        }
        edges
    }

    pub(crate) fn graph(&self, exit: usize) -> EdgeGraph
        requires halts { exit ≡ exit_line self.now.lines.now }
        requires clean { Clean asks self.now.lines.now 11 }
        ensures { shape_in result ≡ graph_of asks self.now.lines.now }
    {
        let edges = self.edges();
        let Some(graph) = EdgeGraph::new(self.lines.len(), 0, exit, edges.as_slice()) else {
            unreachable()
        };
        graph
    }
}
