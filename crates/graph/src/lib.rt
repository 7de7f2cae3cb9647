// Flow graphs: what one is, one made from its edges, and one read against its edges.
#![tactic(auto)]

mod adjacency;
mod edge;
mod edge_graph;
mod flow_graph;
mod neighbours;
mod reversed;

pub use edge::Edge;
pub use edge_graph::EdgeGraph;
pub use flow_graph::{Graph, MOST_NODES};
pub use neighbours::Neighbours;
pub use reversed::Reversed;
