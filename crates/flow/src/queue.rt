// The nodes that wait to be visited: they leave in the order in which they came, and none waits twice.
ghost use Rattle.std.specs.Prelude.{◌≡◌, ℕ, List, [], ◌∷◌, ◌<◌, ◌≤◌, All, length, MatchOption};
ghost use Rattle.graph.specs.Neighbours.{ahead};
ghost use Rattle.graph.specs.Shapes.{times, AllBelow};
ghost use Rattle.flow.specs.Rings.{places, joined, joined_all, Ring};

use graph::{Graph, MOST_NODES, Neighbours};
use std::marker::Model;

// A ring, of which `len` places from `head` on are taken, and a mark at each node that waits.
// Arrays and no `VecDeque`, since solving must not fail for want of memory.
#[derive(Drop)]
pub(crate) struct Queue {
    ring: [usize; MOST_NODES],
    marks: [bool; MOST_NODES],
    head: usize,
    len: usize,
}

impl Model for Queue {
    ghost Value = { List ℕ };

    ghost view = { λ q. places q.ring q.head q.len };

    ghost invariant = { λ q. Ring q.ring q.marks q.head q.len };
}

impl Queue {
    fn new() -> Queue
        ensures { result ≡ [] }
    {
        Queue {
            ring: [0; MOST_NODES],
            marks: [false; MOST_NODES],
            head: 0,
            len: 0,
        }
    }

    // Every node below the count waits. `few`, here and below, says the invariant again to callers, who see the
    // list alone.
    pub(crate) fn of_all(count: usize) -> Queue
        requires { count ≤ MOST_NODES }
        ensures inside { AllBelow count result }
        ensures each { (n : ℕ) → n < count → 0 < times n result }
        ensures few { length result ≤ MOST_NODES }
    {
        let mut queue = Queue::new();
        for n in 0..count {
            queue.push(n);
        }
        queue
    }

    // The node waits last, unless it waits already.
    pub(crate) fn push(&mut self, n: usize)
        requires { n < MOST_NODES }
        ensures joins { self.new ≡ joined n self.old }
        ensures few { length self.new ≤ MOST_NODES }
    {
        if !self.marks[n] {
            let at = (self.head + self.len) % MOST_NODES;
            self.ring[at] = n;
            self.marks[n] = true;
            self.len += 1;
        }
    }

    // Each of the nodes waits, in turn.
    pub(crate) fn push_all<G: Graph>(&mut self, nodes: Neighbours<'_, G>)
        requires { All (λ n. n < MOST_NODES) (ahead G.Graph.shape nodes) }
        ensures joins { self.new ≡ joined_all (ahead G.Graph.shape nodes.entry) self.old }
        ensures few { length self.old ≤ MOST_NODES → length self.new ≤ MOST_NODES }
    {
        for n in nodes {
            self.push(n);
        }
    }

    // The node that waited longest.
    pub(crate) fn pop(&mut self) -> Option<usize>
        ensures { MatchOption result ((self.old ≡ []) × (self.new ≡ [])) (λ n. self.old ≡ n ∷ self.new) }
    {
        if self.len == 0 {
            return None;
        }
        let n = self.ring[self.head];
        self.marks[n] = false;
        self.head = (self.head + 1) % MOST_NODES;
        self.len -= 1;
        Some(n)
    }
}
