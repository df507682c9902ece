//! The state of one cache set: the blocks with a bound of their own, and the bound of all others.

ghost use Rattle.std.specs.Prelude.{◌≡◌, ℕ, ◌<◌, ◌≤◌, List, [], length, true, false, OnOk, OnErr};
ghost use Rattle.age_model.specs.Ages.{AreLowerAges};
ghost use Rattle.domain_laws.specs.Maps.{value_at};
ghost use Rattle.lru_concrete.specs.Sets.{is_in};
ghost use Rattle.may_domain.specs.Order.{leq};
ghost use Rattle.may_domain.specs.States.{IsLower, Lowers, age_of};
ghost use Rattle.may_domain.specs.Touches.{named};

use domain_laws::{put_in, value_in};
use std::alloc::{AllocError, Global};
use std::marker::Model;

/// Lower ages of one cache set: the age of a block is at least its bound. The named blocks have bounds of their own,
/// and all others share one.
#[derive(Debug, Drop)]
pub struct Lower {
    /// The number of ways of the set.
    pub(crate) ways: u32,
    /// The bound that all blocks without a name share, from 0 to the ways.
    pub(crate) shared: u32,
    /// The named blocks, by rising number, each with its bound, from 0 to the ways.
    pub(crate) ages: Vec<(u32, u32)>,
}

impl Model for Lower {
    ghost use Rattle.may_domain.specs.States.{IsLower, Lowers};

    ghost Value = { Lowers };

    ghost view = { λ state. record { ways = state.ways; shared = state.shared; ages = state.ages.items } };

    ghost invariant = { λ state. IsLower state.ways
        (record { ways = state.ways; shared = state.shared; ages = state.ages.items }) };
}

/// The bound of a block, if it is named. It looks at the named blocks one by one.
pub(crate) fn age_in(ages: &[(u32, u32)], block: u32) -> Option<u32>
    ensures { result ≡ value_at block ages.now }
{
    for entry in ages {
        if block == entry.0 {
            return Some(entry.1);
        }
    }
    None
}

impl Lower {
    /// Nothing is known of the set, and no block is named. It takes no memory.
    pub fn unknown(alloc: Global, ways: u32) -> Lower
        requires { 0 < ways }
        ensures value { result ≡ record { ways = ways; shared = 0; ages = [] } }
        ensures top { (state : Lowers) → leq state result ≡ true }
        ensures covers { (blocks : List ℕ) → AreLowerAges ways (age_of result) blocks }
    {
        Lower {
            ways,
            shared: 0,
            ages: Vec::new(alloc),
        }
    }

    /// The bound of a block's age: at most the number of blocks that stand before it. The block is absent if the bound is
    /// the number of ways. It takes no memory.
    pub fn age(&self, block: u32) -> u32
        ensures value { result ≡ age_of self.now block }
        ensures most { result ≤ self.now.ways }
        ensures absent { result ≡ self.now.ways → (blocks : List ℕ) → length blocks ≤ self.now.ways →
            AreLowerAges self.now.ways (age_of self.now) blocks → is_in blocks block ≡ false }
    {
        match value_in(&self.ages, block) {
            Some(age) => *age,
            None => self.shared,
        }
    }

    /// Gives a block a name, with the bound that it has; a named block stays as it is. Refused for want of memory, it
    /// changes nothing.
    pub fn name(&mut self, block: u32) -> Result<(), AllocError>
        ensures value { OnOk result (self.new ≡ named block self.old) }
        ensures ages { OnOk result ((other : ℕ) → age_of self.new other ≡ age_of self.old other) }
        ensures err { OnErr result (self.new ≡ self.old) }
    {
        let age = self.age(block);
        put_in(&mut self.ages, block, age)?;
        Ok(())
    }
}
