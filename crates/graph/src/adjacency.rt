// Lists of neighbours, one for each node, in two arrays.
ghost use Rattle.std.specs.Prelude.{◌≡◌, ℕ, ◌+◌, ◌<◌, ◌≤◌, length, take, slice_index};
ghost use Rattle.graph.specs.Edges.{heads_from};
ghost use Rattle.graph.specs.declared.adjacency.TheConstants.{MOST_EDGES};
ghost use Rattle.graph.specs.declared.flow_graph.TheConstants.{MOST_NODES};

use crate::edge::Edge;
use crate::flow_graph::MOST_NODES;

// The most edges that a graph made from its edges can have.
pub(crate) const MOST_EDGES: usize = 384;

// The neighbours of node n stand from starts[n] up to starts[n + 1] in `ends`.
// Arrays and not an `ArrayVec`, which is not `Copy` as a graph is.
#[derive(Clone, Copy)]
pub(crate) struct Adjacency {
    starts: [usize; MOST_NODES + 1],
    ends: [usize; MOST_EDGES],
    ghost rising: { (n : ℕ) → n < MOST_NODES → slice_index starts n ≤ slice_index starts (n + 1) },
    ghost inside: { (n : ℕ) → n ≤ MOST_NODES → slice_index starts n ≤ MOST_EDGES },
}

// Writes the heads of the edges from n to the front of `ends`, and answers how many they are.
// Not by `push` to an `ArrayVec`: with those a small graph took more than twice as long to make.
fn write_heads(edges: &[Edge], n: usize, ends: &mut [usize]) -> usize
    requires { length (heads_from n edges.now) ≤ length ends.old }
    ensures count { result ≡ length (heads_from n edges.now) }
    ensures front { take result ends.new ≡ heads_from n edges.now }
{
    let mut written = 0;
    for edge in edges {
        if edge.tail == n {
            ends[written] = edge.head;
            written += 1;
        }
    }
    written
}

impl Adjacency {
    ghost use Rattle.graph.specs.Rows.{row, row_values_below};

    // The heads of the edges, by their tails.
    // Not inlined, since its result, some 5 KB, would then be copied more often.
    #[inline(never)]
    pub(crate) fn new(count: usize, edges: &[Edge]) -> Adjacency
        requires few { count ≤ MOST_NODES }
        requires short { length edges.now ≤ MOST_EDGES }
        ensures { (n : ℕ) → n < count → row result n ≡ heads_from n edges.now }
    {
        let mut lists = Adjacency {
            starts: [0; MOST_NODES + 1],
            ends: [0; MOST_EDGES],
        };
        // What is no node has no neighbours, and its list starts at the end.
        lists.starts[1..].fill(edges.len());
        for n in 0..count {
            let start = lists.starts[n];
            lists.starts[n + 1] = start + write_heads(edges, n, &mut lists.ends[start..]);
        }
        lists
    }

    // The neighbours of node n.
    pub(crate) fn row(&self, n: usize) -> &[usize]
        requires { n < MOST_NODES }
        ensures { result.now ≡ row self.now n }
    {
        &self.ends[self.starts[n]..self.starts[n + 1]]
    }

    // The neighbours of node n, or none where it is no node below the count.
    pub(crate) fn row_below(&self, count: usize, n: usize) -> &[usize]
        requires { count ≤ MOST_NODES }
        ensures { result.now ≡ row_values_below count self.now n }
    {
        if n < count { self.row(n) } else { &[] }
    }
}
