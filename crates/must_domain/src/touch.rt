//! What an access does to upper ages.

ghost use Rattle.std.specs.Prelude.{◌≡◌, ℕ, ◌<◌, ◌≤◌, List, length, true, OnOk, OnErr};
ghost use Rattle.age_model.specs.Ages.{AreUpperAges, doubtful_upper, oldest, sure_upper};
ghost use Rattle.age_model.specs.Candidates.{AreCandidates, blocks_of};
ghost use Rattle.lru_concrete.specs.Sets.{is_in, touched};
ghost use Rattle.must_domain.specs.Order.{leq};
ghost use Rattle.must_domain.specs.States.{IsUpper, Uppers, age_of};
ghost use Rattle.must_domain.specs.Touches.{doubted, sured};

use crate::change::{Grow, Touch, change_all};
use crate::state::Upper;
use age_model::Candidates;
use domain_laws::put_in;
use std::alloc::AllocError;

impl Upper {
    /// A touch of a block that takes place: the block gets the age 0, and each block that was younger grows by one.
    /// Refused for want of memory, it changes nothing.
    pub fn sure(&mut self, block: u32) -> Result<(), AllocError>
        ensures value { OnOk result (self.new ≡ sured block self.old) }
        ensures ages { OnOk result ((other : ℕ) →
            age_of self.new other ≡ sure_upper block (age_of self.old) other) }
        ensures covers { OnOk result ((blocks : List ℕ) → length blocks ≤ self.old.ways →
            AreUpperAges self.old.ways (age_of self.old) blocks →
            AreUpperAges self.old.ways (age_of self.new) (touched self.old.ways blocks block)) }
        ensures shape { OnOk result (IsUpper self.old.ways self.new) }
        ensures rises { OnOk result ((more : Uppers) → IsUpper self.old.ways more → leq self.old more ≡ true →
            leq self.new (sured block more) ≡ true) }
        ensures err { OnErr result (self.new ≡ self.old) }
    {
        let limit = self.age(block);
        put_in(&mut self.ages, block, 0)?;
        let others = Grow {
            limit,
            ways: self.ways,
        };
        change_all(&Touch { block, others }, &mut self.ages);
        Ok(())
    }

    /// The greatest bound of the candidates. It passes each candidate that has one, and stops at the first without: they
    /// differ, so that these are at most one more than the blocks with a bound.
    fn oldest(&self, candidates: &Candidates) -> u32
        requires { AreCandidates candidates.now }
        ensures { result ≡ oldest (age_of self.now) (blocks_of candidates.now) }
    {
        let mut rest = *candidates;
        let mut oldest = self.age(rest.first);
        while oldest < self.ways {
            let Some(more) = rest.after_first() else {
                return oldest;
            };
            rest = more;
            oldest = oldest.max(self.age(rest.first));
        }
        oldest
    }

    /// A touch of any of the candidates, or none: each block grows by one if some other candidate is older. It takes no
    /// memory.
    pub fn doubtful(&mut self, candidates: &Candidates) -> Result<(), AllocError>
        requires { AreCandidates candidates.now }
        ensures value { OnOk result (self.new ≡ doubted candidates.now self.old) }
        ensures ages { OnOk result ((other : ℕ) →
            age_of self.new other ≡ doubtful_upper (blocks_of candidates.now) (age_of self.old) other) }
        ensures stays { OnOk result ((blocks : List ℕ) → AreUpperAges self.old.ways (age_of self.old) blocks →
            AreUpperAges self.old.ways (age_of self.new) blocks) }
        ensures covers { OnOk result ((blocks : List ℕ) (block : ℕ) → length blocks ≤ self.old.ways →
            is_in (blocks_of candidates.now) block ≡ true → AreUpperAges self.old.ways (age_of self.old) blocks →
            AreUpperAges self.old.ways (age_of self.new) (touched self.old.ways blocks block)) }
        ensures shape { OnOk result (IsUpper self.old.ways self.new) }
        ensures rises { OnOk result ((more : Uppers) → IsUpper self.old.ways more → leq self.old more ≡ true →
            leq self.new (doubted candidates.now more) ≡ true) }
        ensures err { OnErr result (self.new ≡ self.old) }
    {
        let limit = self.oldest(candidates);
        let grow = Grow {
            limit,
            ways: self.ways,
        };
        change_all(&grow, &mut self.ages);
        Ok(())
    }
}
