//! What an access does to the conflicts of a block.

ghost use Rattle.std.specs.Prelude.{◌≡◌, ℕ, ◌∷◌, List, true, OnOk};
ghost use Rattle.age_model.specs.Candidates.{AreCandidates, blocks_of};
ghost use Rattle.lru_concrete.specs.Sets.{is_in};
ghost use Rattle.persist_domain.specs.Order.{leq};
ghost use Rattle.persist_domain.specs.States.{Conflicting, Covers, IsConflicting};
ghost use Rattle.persist_domain.specs.Touches.{doubted, sured, with_other};

use crate::state::Conflicts;
use age_model::Candidates;
use domain_laws::Capped;
use std::alloc::AllocError;

impl Conflicts {
    /// Another block than the state's own may have been touched.
    fn meet(&mut self, block: u32) -> Result<(), AllocError>
        ensures { OnOk result (self.new ≡ with_other block self.old) }
    {
        if block == self.block {
            return Ok(());
        }
        self.others.add(block)?;
        Ok(())
    }

    /// A touch of a block that takes place. That of the state's own block clears the conflicts; any other block becomes one.
    pub fn sure(&mut self, block: u32) -> Result<(), AllocError>
        ensures value { OnOk result (self.new ≡ sured block self.old) }
        ensures covers { OnOk result ((touches : List ℕ) → Covers self.old touches → Covers self.new (block ∷ touches)) }
        ensures shape { OnOk result (IsConflicting self.old.others.limit self.old.block self.new) }
        ensures rises { OnOk result ((more : Conflicting) → IsConflicting self.old.others.limit self.old.block more →
            leq self.old more ≡ true → leq self.new (sured block more) ≡ true) }
    {
        if block == self.block {
            self.others = Capped::none(self.alloc, self.ways);
            return Ok(());
        }
        self.meet(block)?;
        Ok(())
    }

    /// Each of the candidates may have been touched. It stops once all blocks are conflicts.
    fn meet_all(&mut self, candidates: &Candidates) -> Result<(), AllocError>
        requires { AreCandidates candidates.now }
        ensures { OnOk result (self.new ≡ doubted candidates.now self.old) }
    {
        let mut rest = *candidates;
        while self.others.items().is_some() {
            self.meet(rest.first)?;
            let Some(more) = rest.after_first() else {
                return Ok(());
            };
            rest = more;
        }
        Ok(())
    }

    /// A touch of any of the candidates, or none: all of them but the state's own block become conflicts, and none goes. It
    /// passes at most one candidate more than the ways, as the candidates differ.
    pub fn doubtful(&mut self, candidates: &Candidates) -> Result<(), AllocError>
        requires { AreCandidates candidates.now }
        ensures value { OnOk result (self.new ≡ doubted candidates.now self.old) }
        ensures stays { OnOk result ((touches : List ℕ) → Covers self.old touches → Covers self.new touches) }
        ensures covers { OnOk result ((touches : List ℕ) (block : ℕ) → is_in (blocks_of candidates.now) block ≡ true →
            Covers self.old touches → Covers self.new (block ∷ touches)) }
        ensures shape { OnOk result (IsConflicting self.old.others.limit self.old.block self.new) }
        ensures rises { OnOk result ((more : Conflicting) → IsConflicting self.old.others.limit self.old.block more →
            leq self.old more ≡ true → leq self.new (doubted candidates.now more) ≡ true) }
    {
        let _ways = self.ways;
        self.meet_all(candidates)?;
        Ok(())
    }
}
