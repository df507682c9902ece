//! What an access does to lower ages.

ghost use Rattle.std.specs.Prelude.{◌≡◌, ℕ, ◌<◌, ◌≤◌, List, [], ◌∷◌, length, true, OnOk, OnErr, IfSome};
ghost use Rattle.age_model.specs.Ages.{AreLowerAges, sure_lower};
ghost use Rattle.age_model.specs.Candidates.{AreCandidates, blocks_of};
ghost use Rattle.domain_laws.specs.Maps.{value_at};
ghost use Rattle.lru_concrete.specs.Sets.{is_in, touched};
ghost use Rattle.may_domain.specs.Order.{leq};
ghost use Rattle.may_domain.specs.States.{IsLower, IsNamed, Lowers, age_of, names_in};
ghost use Rattle.may_domain.specs.Touches.{all_named, doubted, doubted_shared, doubtful_lower, made_young, sured};

use crate::change::{Doubt, Touch, change_all, grown_up_to};
use crate::state::Lower;
use age_model::Candidates;
use domain_laws::{put_in, value_in};
use std::alloc::AllocError;

impl Lower {
    /// Puts the state after a touch in place of this one.
    fn touch(&mut self, block: u32) -> Result<(), AllocError>
        ensures value { OnOk result (self.new ≡ sured block self.old) }
        ensures err { OnErr result (self.new ≡ self.old) }
    {
        let limit = self.age(block);
        put_in(&mut self.ages, block, 0)?;
        self.shared = grown_up_to(self.ways, self.shared, limit);
        let touch = Touch {
            block,
            limit,
            ways: self.ways,
        };
        change_all(&touch, &mut self.ages);
        Ok(())
    }

    /// A touch of a block that takes place: the block gets a name and the age 0, and each bound that was at most its own
    /// grows by one, that of the blocks without a name too. Refused for want of memory, it changes nothing.
    pub fn sure(&mut self, block: u32) -> Result<(), AllocError>
        ensures value { OnOk result (self.new ≡ sured block self.old) }
        ensures ages { OnOk result ((other : ℕ) →
            age_of self.new other ≡ sure_lower self.old.ways block (age_of self.old) other) }
        ensures covers { OnOk result ((blocks : List ℕ) → length blocks ≤ self.old.ways →
            AreLowerAges self.old.ways (age_of self.old) blocks →
            AreLowerAges self.old.ways (age_of self.new) (touched self.old.ways blocks block)) }
        ensures shape { OnOk result (is_in (names_in self.old.ages) block ≡ true →
            IsNamed self.old.ways (names_in self.old.ages) self.new) }
        ensures rises { OnOk result ((more : Lowers) → IsNamed self.old.ways (names_in self.old.ages) more →
            leq self.old more ≡ true → leq self.new (sured block more) ≡ true) }
        ensures err { OnErr result (self.new ≡ self.old) }
    {
        let _ways = self.ways;
        self.touch(block)?;
        Ok(())
    }

    /// Whether all candidates are named. It stops at the first one that isn't: the candidates differ, so that these are
    /// at most one more than the named blocks.
    fn names_all(&self, candidates: &Candidates) -> bool
        requires { AreCandidates candidates.now }
        ensures { result ≡ all_named self.now.ages (blocks_of candidates.now) }
    {
        let mut rest = *candidates;
        while value_in(&self.ages, rest.first).is_some() {
            let Some(more) = rest.after_first() else {
                return true;
            };
            rest = more;
        }
        false
    }

    /// The shared bound after a touch of any of several candidates.
    fn shared_after(&self, candidates: &Candidates) -> u32
        requires { AreCandidates candidates.now }
        ensures { result ≡ doubted_shared (blocks_of candidates.now) self.now }
    {
        if self.names_all(candidates) {
            return self.shared;
        }
        0
    }

    /// Gives a block a name and the age 0. Refused for want of memory, it changes nothing.
    fn make_young(&mut self, block: u32) -> Result<(), AllocError>
        ensures value { OnOk result (self.new ≡ made_young block self.old) }
        ensures lower { OnOk result (IsLower self.old.ways self.new) }
        ensures err { OnErr result (self.new ≡ self.old) }
    {
        put_in(&mut self.ages, block, 0)?;
        Ok(())
    }

    /// Puts the state after a touch of any of the candidates, or none, in place of this one.
    fn doubt(&mut self, candidates: &Candidates) -> Result<(), AllocError>
        requires { AreCandidates candidates.now }
        ensures value { OnOk result (self.new ≡ doubted candidates.now self.old) }
        ensures lower { OnOk result (IsLower self.old.ways self.new) }
        ensures err { OnErr result (self.new ≡ self.old) }
    {
        if candidates.after_first().is_none() {
            self.make_young(candidates.first)?;
            return Ok(());
        }
        self.shared = self.shared_after(candidates);
        let doubt = Doubt {
            candidates: *candidates,
        };
        change_all(&doubt, &mut self.ages);
        Ok(())
    }

    /// A touch of any of the candidates, or none: each named candidate gets the age 0, and the shared bound becomes 0 if
    /// some candidate has no name. A single candidate gets a name. Refused for want of memory, it changes nothing.
    pub fn doubtful(&mut self, candidates: &Candidates) -> Result<(), AllocError>
        requires { AreCandidates candidates.now }
        ensures value { OnOk result (self.new ≡ doubted candidates.now self.old) }
        ensures ages { OnOk result ((other : ℕ) → age_of self.new other
            ≡ doubtful_lower (blocks_of candidates.now) self.old other) }
        ensures stays { OnOk result ((blocks : List ℕ) → AreLowerAges self.old.ways (age_of self.old) blocks →
            AreLowerAges self.old.ways (age_of self.new) blocks) }
        ensures covers { OnOk result ((blocks : List ℕ) (block : ℕ) → length blocks ≤ self.old.ways →
            is_in (blocks_of candidates.now) block ≡ true → AreLowerAges self.old.ways (age_of self.old) blocks →
            AreLowerAges self.old.ways (age_of self.new) (touched self.old.ways blocks block)) }
        ensures shape { OnOk result ((blocks_of candidates.now ≡ candidates.now.first ∷ [] →
            is_in (names_in self.old.ages) candidates.now.first ≡ true) →
            IsNamed self.old.ways (names_in self.old.ages) self.new) }
        ensures rises { OnOk result ((more : Lowers) → IsNamed self.old.ways (names_in self.old.ages) more →
            leq self.old more ≡ true → leq self.new (doubted candidates.now more) ≡ true) }
        ensures err { OnErr result (self.new ≡ self.old) }
    {
        let _ways = self.ways;
        self.doubt(candidates)?;
        Ok(())
    }
}
