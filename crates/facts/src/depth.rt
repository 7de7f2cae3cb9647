// Depths: how many edges lead to a node, as far as that matters. A missing depth is the top, and two
// depths are met by the smaller.
ghost use Rattle.std.specs.Prelude.{◌≤◌, None};
ghost use Rattle.std.proofs.Common.{rules};

use crate::fact::Fact;

// A number from 0 to 1,000.
#[derive(Clone, Copy, PartialEq, Eq, PartialOrd, Ord, Debug)]
pub struct Level {
    pub at: u16,
    ghost ok: { at ≤ 1000 },
}

// How many edges lead to a node, or none where the node is not reached.
pub type Depth = Option<Level>;

impl Fact for Depth {
    ghost use Rattle.facts.specs.Depths.{shallower};
    ghost use Rattle.facts.specs.Levels.{shallower_comm};

    ghost top = { None };

    ghost meet = { shallower };

    ghost associative = { Prim.search rules };

    ghost commutative = { shallower_comm };

    ghost idempotent = { Prim.search rules };

    ghost neutral = { Prim.search rules };

    fn top() -> Depth {
        None
    }

    #[tactic(auto, using(crate::specs::Levels::ord_min_at, crate::specs::Levels::same_depths))]
    fn meet(self, other: Depth) -> Depth {
        match (self, other) {
            (Some(a), Some(b)) => Some(a.min(b)),
            _ => self.or(other),
        }
    }
}
