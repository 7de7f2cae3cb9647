// Sets of numbers below 64, met by what they have in common.
ghost use Rattle.std.specs.Prelude.{◌≡◌, ℕ, ◌^◌, ◌<◌, false, ◌&&◌, ◌||◌, T, nat_lt};

use crate::fact::Fact;

// A number is a member if the bit of that place is set.
#[derive(Clone, Copy, PartialEq, Eq, Debug)]
pub struct Set64 {
    bits: u64,
    ghost ok: { bits < 2 ^ 64 },
}

impl Fact for Set64 {
    ghost use Rattle.facts.specs.Sets.{everything, common, has};
    ghost use Rattle.facts.specs.Bitsets.{common_assoc, common_comm, common_idem, everything_neutral};

    ghost top = { everything };

    ghost meet = { common };

    ghost associative = { common_assoc };

    ghost commutative = { common_comm };

    ghost idempotent = { common_idem };

    ghost neutral = { everything_neutral };

    // All numbers below 64.
    #[tactic(auto, using(crate::specs::Bitsets::has_everything))]
    fn top() -> Set64
        ensures value { result ≡ everything }
        ensures members { (k : ℕ) → has result k ≡ nat_lt k 64 }
    {
        Set64 { bits: u64::MAX }
    }

    #[tactic(auto, using(crate::specs::Bitsets::has_common))]
    fn meet(self, other: Set64) -> Set64
        ensures value { result ≡ common self other }
        ensures exact { (a b : Set64) → T (⟦<Set64 as PartialEq>⟧.eq a b) → a ≡ b }
        ensures members { (k : ℕ) → has result k ≡ (has self k && has other k) }
    {
        Set64 {
            bits: self.bits & other.bits,
        }
    }
}

impl Set64 {
    ghost use Rattle.facts.specs.Sets.{either, has, Singled};

    // The set without members.
    pub fn empty() -> Set64
        ensures { (k : ℕ) → has result k ≡ false }
    {
        Set64 { bits: 0 }
    }

    // The set whose one member is k, if k is below 64.
    pub fn single(k: usize) -> Option<Set64>
        ensures { Singled k result }
    {
        if k >= 64 {
            return None;
        }
        Some(Set64 { bits: 1 << k })
    }

    // The members of either set.
    #[tactic(auto, using(crate::specs::Bitsets::has_either))]
    pub fn union(self, other: Set64) -> Set64
        ensures value { result ≡ either self other }
        ensures members { (k : ℕ) → has result k ≡ (has self k || has other k) }
    {
        Set64 {
            bits: self.bits | other.bits,
        }
    }

    #[tactic(auto, using(crate::specs::Bitsets::has_none))]
    pub fn has(self, k: usize) -> bool
        ensures { result ≡ has self k }
    {
        k < 64 && (self.bits >> k) & 1 == 1
    }
}
