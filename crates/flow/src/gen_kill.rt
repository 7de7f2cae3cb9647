// Sets to which each node adds some members, after it kept some of those that came.
ghost use Rattle.std.specs.Prelude.{◌≡◌, slice_index_or};
ghost use Rattle.flow.specs.Heights.{sets_keep, sets_fall};

use crate::problem::Problem;
use facts::{Fact, Set64};
use graph::MOST_NODES;

// What a node does to a set.
#[derive(Clone, Copy)]
pub struct Effect {
    // what it keeps of the set
    pub kept: Set64,
    // what it adds then
    pub added: Set64,
}

impl Effect {
    ghost use Rattle.flow.specs.Effects.{affected, filling};

    // The effect of what is no node.
    fn filling() -> Effect
        ensures { result ≡ filling }
    {
        let all = <Set64 as Fact>::top();
        Effect {
            kept: all,
            added: all,
        }
    }

    fn apply(self, set: Set64) -> Set64
        ensures { result ≡ affected self set }
    {
        set.meet(self.kept).union(self.added)
    }
}

#[derive(Clone, Copy)]
pub struct GenKill {
    // the entry's fact
    pub given: Set64,
    // by node
    pub effects: [Effect; MOST_NODES],
}

impl Problem for GenKill {
    ghost use Rattle.flow.specs.Effects.{affected, filling};

    type Fact = Set64;

    const HEIGHT: u32 = 64;

    ghost HEIGHT = { 64 };

    ghost given = { λ p. p.given };

    ghost step = { λ p n. affected (slice_index_or p.effects n filling) };

    ghost monotone = { λ p n a b. let e = slice_index_or p.effects n filling in sets_keep a b e.kept e.added };

    ghost falls = { sets_fall };

    fn at_entry(&self) -> Set64 {
        self.given
    }

    fn step(&self, n: usize, fact: Set64) -> Set64 {
        let effect = self.effects.get(n).copied();
        effect.unwrap_or(Effect::filling()).apply(fact)
    }
}
