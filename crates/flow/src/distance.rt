// How many edges lead from the entry to each node, up to 1,000.
ghost use Rattle.std.specs.Prelude.{◌≡◌};
ghost use Rattle.flow.specs.Distances.{at_entry, deeper, further};
ghost use Rattle.flow.specs.Heights.{depths_keep, depths_fall};

use crate::problem::Problem;
use facts::{Depth, Level};

#[derive(Clone, Copy, PartialEq, Eq, Debug)]
pub struct Distance;

// One more edge, as far as that matters.
fn deeper(level: Level) -> Level
    ensures { result ≡ deeper level }
{
    Level {
        at: (level.at + 1).min(1000),
    }
}

impl Problem for Distance {
    type Fact = Depth;

    const HEIGHT: u32 = 1001;

    ghost HEIGHT = { 1001 };

    ghost given = { λ _. at_entry };

    ghost step = { λ _ _ d. further d };

    ghost monotone = { λ p n. depths_keep };

    ghost falls = { depths_fall };

    fn at_entry(&self) -> Depth {
        Some(Level { at: 0 })
    }

    fn step(&self, _n: usize, fact: Depth) -> Depth {
        fact.map(deeper)
    }
}
