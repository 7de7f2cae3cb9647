// A graph turned round: entry and exit, and the two lists of each node, change places.
ghost use Rattle.std.specs.Prelude.{◌≡◌};
ghost use Rattle.graph.specs.Shapes.{turned};
ghost use Rattle.std.proofs.Common.{rules};

use crate::flow_graph::Graph;

#[derive(Drop)]
pub struct Reversed<G> {
    of: G,
}

impl<G: Graph> Reversed<G> {
    pub fn new(of: G) -> Reversed<G>
        ensures { result.of ≡ of }
    {
        Reversed { of }
    }

    // The graph as it was.
    pub fn back(self) -> G
        ensures { result ≡ self.of }
    {
        self.of
    }
}

impl<G: Graph> Graph for Reversed<G> {
    ghost shape = { λ r. turned (G.Graph.shape r.of) };

    ghost sized = { Prim.search rules };

    ghost edges = { Prim.search rules };

    fn count(&self) -> usize {
        self.of.count()
    }

    fn entry(&self) -> usize {
        self.of.exit()
    }

    fn exit(&self) -> usize {
        self.of.entry()
    }

    fn successor(&self, n: usize, k: usize) -> Option<usize> {
        self.of.predecessor(n, k)
    }

    fn predecessor(&self, n: usize, k: usize) -> Option<usize> {
        self.of.successor(n, k)
    }
}
