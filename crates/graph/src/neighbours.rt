// A node's neighbours, one after the other.
ghost use Rattle.std.specs.Prelude.{◌≡◌};
ghost use Rattle.graph.specs.Neighbours.{listed, ahead};

use crate::flow_graph::Graph;

// Which of a node's neighbours.
#[derive(Clone, Copy)]
pub(crate) enum Direction {
    Outgoing,
    Incoming,
}

// What is left of a node's neighbours. Each is asked for by its place, so that a graph which computes its
// neighbours need hold no list of them.
#[derive(Drop)]
pub struct Neighbours<'a, G> {
    graph: &'a G,
    direction: Direction,
    node: usize,
    place: usize,
}

impl<'a, G: Graph> Neighbours<'a, G> {
    pub(crate) fn new(graph: &'a G, direction: Direction, node: usize) -> Neighbours<'a, G>
        ensures { ahead G.Graph.shape result ≡ listed (G.Graph.shape graph.now) direction node }
    {
        Neighbours {
            graph,
            direction,
            node,
            place: 0,
        }
    }
}

impl<G: Graph> Iterator for Neighbours<'_, G> {
    ghost use Rattle.std.specs.Iterator.{YieldsFirst, item_count};

    type Item = usize;

    ghost next_gives = { YieldsFirst (ahead G.Graph.shape) };

    ghost remaining = { item_count (ahead G.Graph.shape) };

    fn next(&mut self) -> Option<usize> {
        let neighbour = match self.direction {
            Direction::Outgoing => self.graph.successor(self.node, self.place),
            Direction::Incoming => self.graph.predecessor(self.node, self.place),
        }?;
        self.place += 1;
        Some(neighbour)
    }
}
