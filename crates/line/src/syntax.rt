// What a line says. Numbers have 32 signed bits; the parser reads them wider first, so that a
// number out of range is still known for a number, and N is then i64.
use crate::label::Label;
use crate::variable::Variable;

#[derive(Clone, Copy, PartialEq, Eq, Debug)]
pub enum Operand<N = i32> {
    Var(Variable),
    Num(N),
}

#[derive(Clone, Copy, PartialEq, Eq, Debug)]
pub enum Operator {
    Add,
    Sub,
    Mul,
    Div,
    Rem,
    Less,
    Equal,
    And,
}

// What a line does that has one successor.
#[derive(Clone, Copy, PartialEq, Eq, Debug)]
pub enum Action<N = i32> {
    Pass,
    // v = o
    Set(Variable, Operand<N>),
    // v = o op o
    Compute(Variable, Operand<N>, Operator, Operand<N>),
    // v = get
    Get(Variable),
    // put o
    Put(Operand<N>),
}

// What a line does, and the labels of its successors.
#[derive(Clone, Copy, PartialEq, Eq, Debug)]
pub enum Statement<N = i32> {
    Then(Action<N>, Label),
    // if o: the first label if o is not 0, else the second
    If(Operand<N>, Label, Label),
    Halt,
}

#[derive(Clone, Copy, PartialEq, Eq, Debug)]
pub struct Line<N = i32> {
    pub label: Label,
    pub statement: Statement<N>,
}
