// Expressions.
ghost use Rattle.std.specs.Prelude.{◌≡◌, Decides};
ghost use Rattle.program.specs.Sames.{operands_same};

use line::{Action, Line, Operand, Operator, Statement};

// An operator with its two operands; it is the same as another where all three parts are equal.
#[derive(Clone, Copy, Debug)]
pub struct Expression {
    pub operator: Operator,
    pub first: Operand,
    pub second: Operand,
}

// Whether both are the same variable, or the same number. Not by the derived `==`: an operand is generic, and
// from its contract it stayed open that it compares so.
fn same_operand(a: Operand, b: Operand) -> bool
    ensures { result ≡ operands_same a b }
{
    match (a, b) {
        (Operand::Var(v), Operand::Var(w)) => v == w,
        (Operand::Num(m), Operand::Num(n)) => m == n,
        _ => false,
    }
}

// By hand, since it promises to be true of equal expressions and of no others: a derive promises only what it
// compares.
impl PartialEq for Expression {
    ghost use Rattle.std.specs.Cmp.{decided, partial_equiv_from_equiv};
    ghost use Rattle.program.specs.Sames.{same_expression};
    ghost use Rattle.program.specs.SamesLemmas.{expression_decides};

    ghost eq = { same_expression };

    ghost laws = { partial_equiv_from_equiv (decided same_expression expression_decides) };

    fn eq(&self, other: &Expression) -> bool
        ensures value { result ≡ same_expression self.now other.now }
        ensures equal { Decides result (self.now ≡ other.now) }
    {
        self.operator == other.operator
            && same_operand(self.first, other.first)
            && same_operand(self.second, other.second)
    }
}

impl Eq for Expression {
    ghost use Rattle.std.specs.Cmp.{decided};
    ghost use Rattle.program.specs.Sames.{same_expression};
    ghost use Rattle.program.specs.SamesLemmas.{expression_decides};

    ghost laws = { decided same_expression expression_decides };
}

impl Expression {
    ghost use Rattle.program.specs.Asked.{computes};

    // What the line computes; and of any two expressions, `==` says whether they are equal.
    // No `TryFrom`, since a line that computes nothing is no error.
    #[tactic(auto, using(crate::specs::SamesLemmas::expression_decides))]
    pub fn of(line: &Line) -> Option<Expression>
        ensures value { result ≡ computes line.now }
        ensures equal { (a b : Expression) → Decides (⟦<Expression as PartialEq>⟧.eq a b) (a ≡ b) }
    {
        match line.statement {
            Statement::Then(Action::Compute(_, first, operator, second), _) => Some(Expression {
                operator,
                first,
                second,
            }),
            _ => None,
        }
    }
}
