// Flow graphs by their meaning.
ghost use Rattle.std.specs.Prelude.{◌≡◌};
ghost use Rattle.std.specs.List.{slice_get};
ghost use Rattle.graph.specs.Neighbours.{ahead};
ghost use Rattle.graph.specs.Shapes.{Shape, Sized, SameEdges};

use crate::neighbours::{Direction, Neighbours};

// The most nodes that a graph can have. That a number is below it is said in clauses and by no type of its
// own, which would be taken apart at each index and each count.
pub const MOST_NODES: usize = 288;

// Nodes are numbered from 0 on. A node's successors and predecessors stand in lists, one for each
// edge; past the end of a list, and for a number that is no node's, there is none.
pub trait Graph {
    ghost shape: { Self → Shape };

    fn count(&self) -> usize
        ensures { result ≡ (shape self.now).count };

    fn entry(&self) -> usize
        ensures { result ≡ (shape self.now).entry };

    fn exit(&self) -> usize
        ensures { result ≡ (shape self.now).exit };

    // The k-th successor of node n, counted from 0.
    fn successor(&self, n: usize, k: usize) -> Option<usize>
        ensures { result ≡ slice_get ((shape self.now).succs n) k };

    // The k-th predecessor of node n, counted from 0.
    fn predecessor(&self, n: usize, k: usize) -> Option<usize>
        ensures { result ≡ slice_get ((shape self.now).preds n) k };

    ghost sized: { (g : Self) → Sized (shape g) };

    ghost edges: { (g : Self) → SameEdges (shape g) };

    // The successors of node n, one for each edge from it.
    final fn each_successor(&self, n: usize) -> Neighbours<'_, Self>
    where
        Self: Sized,
        ensures { ahead shape result ≡ (shape self.now).succs n }
    {
        Neighbours::new(self, Direction::Outgoing, n)
    }

    // The predecessors of node n, one for each edge to it.
    final fn each_predecessor(&self, n: usize) -> Neighbours<'_, Self>
    where
        Self: Sized,
        ensures { ahead shape result ≡ (shape self.now).preds n }
    {
        Neighbours::new(self, Direction::Incoming, n)
    }
}
