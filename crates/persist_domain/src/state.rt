//! The state of one block: the other blocks that may have been touched since its last touch.

ghost use Rattle.std.specs.Prelude.{◌≡◌, ℕ, ◌<◌, ◌≤◌, List, [], length, true};
ghost use Rattle.age_model.specs.Since.{after_touches};
ghost use Rattle.lru_concrete.specs.Sets.{is_in};
ghost use Rattle.persist_domain.specs.States.{Conflicting, Covers, IsConflicting, count_of, none_of};

use domain_laws::Capped;
use std::alloc::Global;
use std::marker::Model;

/// The conflicts of one block: the other blocks that may have been touched since the block was, or since its scope was
/// entered. As many as the ways of the set are all blocks.
#[derive(Debug, Drop)]
pub struct Conflicts {
    /// Where the set of other blocks takes its memory.
    pub(crate) alloc: Global,
    /// The number of ways of the set.
    pub(crate) ways: u32,
    /// The block.
    pub(crate) block: u32,
    /// The other blocks, fewer than the ways, or all.
    pub(crate) others: Capped,
}

impl Model for Conflicts {
    ghost use Rattle.persist_domain.specs.States.{Conflicting, IsConflicting};

    ghost Value = { Conflicting };

    ghost view = { λ state. record { block = state.block; others = state.others } };

    ghost invariant = { λ state. IsConflicting state.ways state.block
        (record { block = state.block; others = state.others }) };
}

impl Conflicts {
    /// No other block was touched yet, as where a scope is entered. It takes no memory.
    pub fn entering(alloc: Global, ways: u32, block: u32) -> Conflicts
        requires { 0 < ways }
        ensures value { result ≡ none_of ways block }
        ensures covers { Covers result [] }
    {
        Conflicts {
            alloc,
            ways,
            block,
            others: Capped::none(alloc, ways),
        }
    }

    /// How many blocks are in conflict; the number of ways, if these may be as many or more. A block with fewer conflicts
    /// is in its set, once it was touched. It takes no memory.
    pub fn count(&self) -> u32
        ensures value { result ≡ count_of self.now }
        ensures most { result ≤ self.now.others.limit }
        ensures kept { result < self.now.others.limit → (blocks touches : List ℕ) → Covers self.now touches →
            is_in touches self.now.block ≡ true →
            is_in (after_touches self.now.others.limit blocks touches) self.now.block ≡ true }
    {
        match self.others.items() {
            Some(items) => items.len() as u32,
            None => self.ways,
        }
    }
}
