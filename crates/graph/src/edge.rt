// Edges.
ghost use Rattle.std.specs.Prelude.{◌≡◌};

// An edge from one node to another.
#[derive(Clone, Copy, Default, PartialEq, Eq, Debug)]
pub struct Edge {
    pub tail: usize,
    pub head: usize,
}

impl Edge {
    ghost use Rattle.graph.specs.Edges.{turned_edge};

    pub(crate) fn turned(self) -> Edge
        ensures { result ≡ turned_edge self }
    {
        Edge {
            tail: self.head,
            head: self.tail,
        }
    }
}
