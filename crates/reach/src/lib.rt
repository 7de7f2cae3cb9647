// Which nodes of a graph the entry reaches, and which reach the exit, told by depths.
#![tactic(auto)]

ghost use Rattle.std.specs.Prelude.{◌≤◌, T, None, is_none, slice_index_or};
ghost use Rattle.graph.specs.Paths.{Reaches};
ghost use Rattle.reach.specs.Lowest.{Lowest};

use facts::Depth;
use flow::{Distance, solve};
use graph::{Graph, MOST_NODES, Reversed};

// The lowest node without a depth.
fn first_missing(depths: &[Depth; MOST_NODES], count: usize) -> Option<usize>
    requires { count ≤ MOST_NODES }
    ensures { Lowest (λ n. T (is_none (slice_index_or depths.now n None)) → ⊥) count result }
{
    depths[..count].iter().position(Option::is_none)
}

// The lowest node that the entry cannot reach.
pub fn first_unreached<G: Graph>(g: &G) -> Option<usize>
    ensures { Lowest (Reaches (G.Graph.shape g.now) (G.Graph.shape g.now).entry) (G.Graph.shape g.now).count result }
{
    let depths = solve(g, &Distance);
    first_missing(&depths, g.count())
}

// The lowest node that cannot reach the exit, told in the graph turned round.
pub fn first_stuck<G: Graph>(g: &Reversed<G>) -> Option<usize>
    ensures { Lowest (λ n. Reaches (G.Graph.shape g.now.of) n (G.Graph.shape g.now.of).exit) (G.Graph.shape g.now.of).count result }
{
    first_unreached(g)
}
