// What is asked of a graph: a fact at the entry, and what each node makes of a fact.
ghost use Rattle.std.specs.Prelude.{◌≡◌, ℕ, ◌≤◌, List, length};
ghost use Rattle.facts.specs.Order.{Below, Fell};

use facts::Fact;

pub trait Problem {
    type Fact: Fact;

    // The most times that a fact can fall.
    const HEIGHT: u32;

    ghost HEIGHT: { ℕ };

    ghost given: { Self → Self.Fact };

    ghost step: { Self → ℕ → Self.Fact → Self.Fact };

    // The entry's fact.
    fn at_entry(&self) -> Self::Fact
        ensures { result ≡ given self.now };

    // What node n makes of a fact.
    fn step(&self, n: usize, fact: Self::Fact) -> Self::Fact
        ensures { result ≡ step self.now n fact };

    ghost monotone: { (p : Self) (n : ℕ) (a b : Self.Fact) → Below Self.Fact.Fact.meet a b → Below Self.Fact.Fact.meet (step p n a) (step p n b) };

    ghost falls: { (a : Self.Fact) (from : List (Self.Fact)) → Fell Self.Fact.Fact.meet a from → length from ≤ HEIGHT };
}
