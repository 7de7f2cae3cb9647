// Kinds of facts: a meet with a top.
ghost use Rattle.std.specs.Prelude.{◌≡◌, T};

// A fact lies below another if their meet is the fact itself.
pub trait Fact: Eq + Copy {
    ghost top: { Self };

    ghost meet: { Self → Self → Self };

    fn top() -> Self
        ensures { result ≡ top };

    // Same facts are equal.
    fn meet(self, other: Self) -> Self
        ensures value { result ≡ meet self other }
        ensures exact { (a b : Self) → T (Self.PartialEq.eq a b) → a ≡ b };

    ghost associative: { (a b c : Self) → meet (meet a b) c ≡ meet a (meet b c) };

    ghost commutative: { (a b : Self) → meet a b ≡ meet b a };

    ghost idempotent: { (a : Self) → meet a a ≡ a };

    ghost neutral: { (a : Self) → meet top a ≡ a };
}
