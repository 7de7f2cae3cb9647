// Sealed programs.
ghost use Rattle.std.specs.Prelude.{◌≡◌, ℕ, ◌≤◌, true, [], length, Ok, IfOk, vec_len, vec_capacity, codes};
ghost use Rattle.graph.specs.Edges.{edge_shape, heads_from, tails_to};
ghost use Rattle.graph.specs.Made.{shape_in};
ghost use Rattle.graph.specs.Rows.{row_values_below};
ghost use Rattle.line.specs.declared.syntax.Statement.TheVariants.{Halt};
ghost use Rattle.line.specs.Readings.{reading};
ghost use Rattle.program.specs.Written.{sound, exit_line, edges_in, expressions_in, numbers_in};

use crate::expression::Expression;
use draft::MOST_LINES;
use graph::EdgeGraph;
use line::{Line, Operand, Operator, read};
use std::alloc::{AllocError, Global};

// The most expressions that a program can have.
pub const MOST_EXPRESSIONS: usize = 64;

// What stands in the unused places of a table of expressions, for the call that seals, which is still to come.
const FILLER: Expression = Expression {
    operator: Operator::Add,
    first: Operand::Num(0),
    second: Operand::Num(0),
};

// The lines as written; their different expressions by number, and by line the number of what it
// computes; and the lines as a graph. Memory for the largest program is had from the start.
// `numbers` stands beside `lines`, and not in one list with them, since `lines()` lends the lines as a slice.
// No model of its lines, since the facts below are wanted of every program, and a model's value has none.
#[derive(Drop)]
pub struct Sealed {
    lines: Vec<Line>,
    expressions: Vec<Expression>,
    numbers: Vec<Option<usize>>,
    graph: EdgeGraph,
    ghost few: { vec_len lines ≤ 96 },
    ghost line_room: { 96 ≤ vec_capacity lines },
    ghost expression_room: { 64 ≤ vec_capacity expressions },
    ghost number_room: { 96 ≤ vec_capacity numbers },
    ghost faultless: { sound lines.items ≡ true },
    ghost listed: { expressions.items ≡ expressions_in lines.items },
    ghost numbered: { numbers.items ≡ numbers_in lines.items },
    ghost nodes: { graph.count ≡ vec_len lines },
    ghost enters: { graph.entry ≡ 0 },
    ghost leaves: { graph.exit ≡ exit_line lines.items },
    ghost leads: { (n : ℕ) → row_values_below graph.count graph.outgoing n ≡ heads_from n (edges_in lines.items) },
    ghost follows: { (n : ℕ) → row_values_below graph.count graph.incoming n ≡ tails_to n (edges_in lines.items) },
}

fn end_halt() -> Line
    ensures reads { reading (codes "end halt") ≡ Ok result }
    ensures halt { result.statement ≡ Halt }
{
    let Ok(line) = read(b"end halt") else {
        unreachable()
    };
    line
}

// A graph of one node.
fn lone_node() -> EdgeGraph
    ensures { shape_in result ≡ edge_shape 1 0 0 [] }
{
    let Some(graph) = EdgeGraph::new(1, 0, 0, &[]) else {
        unreachable()
    };
    graph
}

// Puts the items in the place of those that the list has. By hand, since `extend_from_slice` may ask for memory.
fn refill<T: Copy>(list: &mut Vec<T>, items: &[T])
    requires { length items.now ≤ vec_capacity list.old }
    ensures items { list.new.items ≡ items.now }
    ensures capacity { vec_capacity list.new ≡ vec_capacity list.old }
{
    list.clear();
    for item in items {
        list.push_reserved(*item);
    }
}

impl Sealed {
    ghost use Rattle.program.specs.Meaning.{lines_of, EndHalt, number_at};

    // The one line `end halt`, or a refusal where there is no memory for the largest program.
    pub fn new(heap: Global) -> Result<Sealed, AllocError>
        ensures { IfOk result (λ p. EndHalt (lines_of p)) }
    {
        let mut lines = Vec::with_capacity(heap, MOST_LINES)?;
        let expressions = Vec::with_capacity(heap, MOST_EXPRESSIONS)?;
        let mut numbers = Vec::with_capacity(heap, MOST_LINES)?;
        lines.push_reserved(end_halt());
        numbers.push_reserved(None);
        let graph = lone_node();
        Ok(Sealed {
            lines,
            expressions,
            numbers,
            graph,
        })
    }

    // The lines as written.
    pub fn lines(&self) -> &[Line]
        ensures { result.now ≡ lines_of self.now }
    {
        self.lines.as_slice()
    }

    // The different expressions, in the order of their numbers.
    pub fn expressions(&self) -> &[Expression]
        ensures { result.now ≡ expressions_in (lines_of self.now) }
    {
        self.expressions.as_slice()
    }

    // The number of the expression that the line computes; lines are counted from 0.
    pub fn computes(&self, line: usize) -> Option<usize>
        ensures { result ≡ number_at (lines_of self.now) line }
    {
        self.numbers.get(line).copied().flatten()
    }
}
