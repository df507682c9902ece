//! The blocks that an access may touch.

ghost use Rattle.std.specs.Prelude.{◌≡◌, ◌∷◌, [], ◌<◌, ◌-◌, IfSome, IfNone};
ghost use Rattle.age_model.specs.Candidates.{AreCandidates, blocks_of};
ghost use Rattle.lru_concrete.specs.Sets.{is_in};

/// The blocks that an access may touch in one cache set: the first one, and then a block a step up to the last one.
#[derive(Debug, Clone, Copy, PartialEq, Eq)]
pub struct Candidates {
    /// The number of the first block.
    pub first: u32,
    /// A number that no block's exceeds.
    pub last: u32,
    /// How far one block's number lies from the next one's.
    pub step: u32,
}

impl Candidates {
    /// Whether a block is one of the candidates.
    pub fn holds(&self, block: u32) -> bool
        requires { AreCandidates self.now }
        ensures { result ≡ is_in (blocks_of self.now) block }
    {
        if block < self.first {
            return false;
        }
        if block > self.last {
            return false;
        }
        (block - self.first) % self.step == 0
    }

    /// The candidates after the first one, if there are any.
    pub fn after_first(&self) -> Option<Candidates>
        requires { AreCandidates self.now }
        ensures some { IfSome result AreCandidates }
        ensures all { IfSome result (λ more. blocks_of self.now ≡ self.now.first ∷ blocks_of more) }
        ensures same { IfSome result (λ more. more.last ≡ self.now.last) }
        ensures later { IfSome result (λ more. self.now.first < more.first) }
        ensures one { IfNone result (blocks_of self.now ≡ self.now.first ∷ []) }
    {
        if self.last - self.first < self.step {
            return None;
        }
        Some(Candidates {
            first: self.first + self.step,
            last: self.last,
            step: self.step,
        })
    }
}
