// The greatest solution of a data-flow problem, by a queue of nodes to visit.
ghost use Rattle.std.specs.Prelude.{◌≡◌, ◌<◌, get_or, MatchBool, slice_index_or};
ghost use Rattle.facts.specs.Order.{Below};
ghost use Rattle.flow.specs.Equations.{inflow, Solution};
ghost use Rattle.flow.specs.Visits.{Revised};

use crate::problem::Problem;
use crate::queue::Queue;
use facts::Fact;
use graph::{Graph, MOST_NODES};

// Whether b lies not above a, so that a falls when they are met.
fn lowers<F: Fact>(a: F, b: F) -> bool
    ensures { MatchBool result (Below F.Fact.meet a b → ⊥) (Below F.Fact.meet a b) }
{
    a.meet(b) != a
}

// What a problem asks of the nodes of a graph.
#[derive(Drop)]
struct Equations<'a, G, P> {
    graph: &'a G,
    problem: &'a P,
}

impl<G: Graph, P: Problem> Equations<'_, G, P> {
    // The meet, over the edges that lead to n, of the tail's step on the tail's fact.
    fn incoming(&self, facts: &[P::Fact; MOST_NODES], n: usize) -> P::Fact
        ensures { result ≡ inflow P.Fact.Fact.top P.Fact.Fact.meet (P.Problem.step self.now.problem.now) (λ m. get_or facts.now m P.Fact.Fact.top) ((G.Graph.shape self.now.graph.now).preds n) }
    {
        // As a slice, whose size in memory the proof knows.
        let facts = facts.as_slice();
        // A loop and no `fold`: in its closure it stayed open that every neighbour has a fact.
        let mut all = <P::Fact as Fact>::top();
        for m in self.graph.each_predecessor(n) {
            all = all.meet(self.problem.step(m, facts[m]));
        }
        all
    }

    // What comes in at n, where that is lower than the fact there.
    fn revised(&self, facts: &[P::Fact; MOST_NODES], n: usize) -> Option<P::Fact>
        requires { n < MOST_NODES }
        ensures { Revised P.Fact.Fact.meet (slice_index_or facts.now n P.Fact.Fact.top) (inflow P.Fact.Fact.top P.Fact.Fact.meet (P.Problem.step self.now.problem.now) (λ m. get_or facts.now m P.Fact.Fact.top) ((G.Graph.shape self.now.graph.now).preds n)) result }
    {
        let new = self.incoming(facts, n);
        lowers(facts[n], new).then_some(new)
    }
}

// The entry has its given fact, any other node what comes in there, and every other solution lies
// below this one. Past the last node stands the top.
pub fn solve<G: Graph, P: Problem>(graph: &G, problem: &P) -> [P::Fact; MOST_NODES]
    ensures { Solution (G.Graph.shape graph.now) P.Fact.Fact.top P.Fact.Fact.meet (P.Problem.given problem.now) (P.Problem.step problem.now) (λ n. get_or result n P.Fact.Fact.top) }
{
    let equations = Equations { graph, problem };
    let first = graph.entry();
    let count = graph.count();
    let mut facts = [<P::Fact as Fact>::top(); MOST_NODES];
    facts[first] = problem.at_entry();
    let mut queue = Queue::of_all(count);
    // Counted only to prove that this ends: nodes wait again only after a fall, and each node's fact
    // falls at most HEIGHT times.
    let mut falls_left = count * P::HEIGHT as usize;
    while let Some(n) = queue.pop() {
        if n != first
            && let Some(new) = equations.revised(&facts, n)
        {
            facts[n] = new;
            queue.push_all(graph.each_successor(n));
            falls_left -= 1;
        }
    }
    facts
}
