//! The state of one cache set: the blocks whose age has a bound.

ghost use Rattle.std.specs.Prelude.{◌≡◌, ℕ, ◌<◌, ◌≤◌, List, [], length, true};
ghost use Rattle.std.specs.Option.{option_copied};
ghost use Rattle.age_model.specs.Ages.{AreUpperAges};
ghost use Rattle.domain_laws.specs.Maps.{value_at};
ghost use Rattle.must_domain.specs.Order.{leq};
ghost use Rattle.must_domain.specs.States.{IsUpper, Uppers, age_of};

use std::alloc::Global;
use std::marker::Model;

/// Upper ages of one cache set: a bound for the age of some blocks, below the ways of the set. Any other block may be
/// absent.
#[derive(Debug, Drop)]
pub struct Upper {
    /// The number of ways of the set.
    pub(crate) ways: u32,
    /// The blocks with a bound, by rising number, each with its bound.
    pub(crate) ages: Vec<(u32, u32)>,
}

impl Model for Upper {
    ghost use Rattle.must_domain.specs.States.{IsUpper, Uppers};

    ghost Value = { Uppers };

    ghost view = { λ state. record { ways = state.ways; ages = state.ages.items } };

    ghost invariant = { λ state. IsUpper state.ways (record { ways = state.ways; ages = state.ages.items }) };
}

/// The bound of a block, if it has one. It looks at the blocks one by one: few have a bound.
pub(crate) fn age_in(ages: &[(u32, u32)], block: u32) -> Option<u32>
    ensures { result ≡ value_at block ages.now }
{
    for entry in ages {
        if block == entry.0 {
            return Some(entry.1);
        }
    }
    None
}

impl Upper {
    /// Nothing is known of the set. It takes no memory.
    pub fn unknown(alloc: Global, ways: u32) -> Upper
        requires { 0 < ways }
        ensures value { result ≡ record { ways = ways; ages = [] } }
        ensures top { (state : Uppers) → IsUpper ways state → leq state result ≡ true }
        ensures covers { (blocks : List ℕ) → length blocks ≤ ways → AreUpperAges ways (age_of result) blocks }
    {
        Upper {
            ways,
            ages: Vec::new(alloc),
        }
    }

    /// The bound of a block's age: at least the number of blocks that stand before it, and the number of ways if the
    /// block may be absent. It takes no memory.
    pub fn age(&self, block: u32) -> u32
        ensures value { result ≡ age_of self.now block }
        ensures most { result ≤ self.now.ways }
    {
        match age_in(&self.ages, block) {
            Some(age) => age,
            None => self.ways,
        }
    }
}
