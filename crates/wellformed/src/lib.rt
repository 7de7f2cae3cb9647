// What sealing refuses, whatever lines, labels and expressions are: each function's contract is a theorem.
#![tactic(auto)]

ghost use Rattle.wellformed.specs.Verdicts.{VerdictRight};

// The computed verdict is the first fault that fits, and at the lowest line.
pub fn verdict_right<X, L, E>()
    ensures { VerdictRight X L E }
{}
