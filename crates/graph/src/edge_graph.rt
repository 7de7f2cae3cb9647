// A graph made from its edges.
ghost use Rattle.std.specs.Prelude.{◌≡◌, ℕ, ◌<◌, ◌≤◌, ◌↔◌, IsTrue, All, map, length, take};
ghost use Rattle.std.specs.List.{slice_get};
ghost use Rattle.graph.specs.Edges.{turned_edge};
ghost use Rattle.graph.specs.Rows.{row, row_values_below};
ghost use Rattle.graph.specs.Shapes.{times};
ghost use Rattle.graph.specs.declared.flow_graph.TheConstants.{MOST_NODES};

use crate::adjacency::{Adjacency, MOST_EDGES};
use crate::edge::Edge;
use crate::flow_graph::{Graph, MOST_NODES};

// Each node's successors and predecessors are found without a search.
// The facts stand here for both lists, and not in `Adjacency`, since a list alone knows neither the count nor the other.
#[derive(Clone, Copy)]
pub struct EdgeGraph {
    count: usize,
    entry: usize,
    exit: usize,
    outgoing: Adjacency,
    incoming: Adjacency,
    ghost most: { count ≤ MOST_NODES },
    ghost enters: { entry < count },
    ghost leaves: { exit < count },
    ghost heads: { (n : ℕ) → All (λ m. m < count) (row_values_below count outgoing n) },
    ghost tails: { (n : ℕ) → All (λ m. m < count) (row_values_below count incoming n) },
    ghost few_heads: { (n : ℕ) → length (row_values_below count outgoing n) ≤ MOST_NODES },
    ghost few_tails: { (n : ℕ) → length (row_values_below count incoming n) ≤ MOST_NODES },
    ghost same: { (m n : ℕ) → times n (row_values_below count outgoing m) ≡ times m (row_values_below count incoming n) },
}

// Whether every edge joins nodes below the count. The two stay two parameters, as in `EdgeGraph::new`: a struct
// of them would be taken apart in each function.
fn all_within(count: usize, edges: &[Edge]) -> bool
    ensures { IsTrue result ↔ All (λ edge. (edge.tail < count) × (edge.head < count)) edges.now }
{
    edges
        .iter()
        .all(|edge| edge.tail < count && edge.head < count)
}

// The edges turned round, and behind them edges that are of no account.
// An array and not an `ArrayVec`, for the reason at `write_heads`.
fn turned_round(edges: &[Edge]) -> [Edge; MOST_EDGES]
    requires { length edges.now ≤ MOST_EDGES }
    ensures { take (length edges.now) result ≡ map turned_edge edges.now }
{
    let mut turned = [Edge { tail: 0, head: 0 }; MOST_EDGES];
    for (place, edge) in edges.iter().enumerate() {
        turned[place] = edge.turned();
    }
    turned
}

// Whether no node has more neighbours than a graph can have nodes.
fn all_narrow(count: usize, lists: &Adjacency) -> bool
    requires { count ≤ MOST_NODES }
    ensures { IsTrue result ↔ ((n : ℕ) → n < count → length (row lists.now n) ≤ MOST_NODES) }
{
    (0..count).all(|n| lists.row(n).len() <= MOST_NODES)
}

// The k-th node of a list. A function of its own, where the proof reads no more of a graph than this list.
fn nth(list: &[usize], k: usize) -> Option<usize>
    ensures { result ≡ slice_get list.now k }
{
    list.get(k).copied()
}

impl EdgeGraph {
    ghost use Rattle.graph.specs.Made.{Makes, shape_in};

    // The graph of these edges, or none if they make no graph or are more than 384.
    pub fn new(count: usize, entry: usize, exit: usize, edges: &[Edge]) -> Option<EdgeGraph>
        ensures { Makes count entry exit edges.now result }
    {
        if count > MOST_NODES || entry >= count || exit >= count || edges.len() > MOST_EDGES {
            return None;
        }
        if !all_within(count, edges) {
            return None;
        }
        let turned = turned_round(edges);
        let outgoing = Adjacency::new(count, edges);
        let incoming = Adjacency::new(count, &turned[..edges.len()]);
        if !all_narrow(count, &outgoing) || !all_narrow(count, &incoming) {
            return None;
        }
        Some(EdgeGraph {
            count,
            entry,
            exit,
            outgoing,
            incoming,
        })
    }

    // The successors of node n, one for each edge from it.
    pub fn successors(&self, n: usize) -> &[usize]
        ensures { result.now ≡ (shape_in self.now).succs n }
    {
        self.outgoing.row_below(self.count, n)
    }

    // The predecessors of node n, one for each edge to it.
    pub fn predecessors(&self, n: usize) -> &[usize]
        ensures { result.now ≡ (shape_in self.now).preds n }
    {
        self.incoming.row_below(self.count, n)
    }
}

impl Graph for EdgeGraph {
    ghost use Rattle.std.proofs.Common.{arith};
    ghost use Rattle.graph.specs.Made.{shape_in};
    ghost use Rattle.graph.specs.EdgeLists.{below_fact};
    ghost use Rattle.graph.specs.Making.{row_none};

    ghost shape = { shape_in };

    ghost sized = { λ g.
        let e = g.enters in
        record {
          some = omega arith;
          most = g.most;
          entry_in = e;
          exit_in = g.leaves;
          succs_in = λ n. below_fact g.count (row_values_below g.count g.outgoing n) (g.heads n);
          preds_in = λ n. below_fact g.count (row_values_below g.count g.incoming n) (g.tails n);
          succs_short = g.few_heads;
          preds_short = g.few_tails;
          succs_none = row_none g.count g.outgoing;
          preds_none = row_none g.count g.incoming;
        } };

    ghost edges = { λ g. g.same };

    fn count(&self) -> usize {
        self.count
    }

    fn entry(&self) -> usize {
        self.entry
    }

    fn exit(&self) -> usize {
        self.exit
    }

    fn successor(&self, n: usize, k: usize) -> Option<usize> {
        nth(self.successors(n), k)
    }

    fn predecessor(&self, n: usize, k: usize) -> Option<usize> {
        nth(self.predecessors(n), k)
    }
}
