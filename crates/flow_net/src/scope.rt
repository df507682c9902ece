//! Which scopes hold which places.

ghost use Rattle.std.specs.Prelude.{◌≡◌, All};
ghost use Rattle.std.specs.Bool.{OnFalse, OnTrue};
ghost use Rattle.flow_net.specs.Numbers.{IsNumberOf, IsNumberOrZero};
ghost use Rattle.flow_net.specs.Scopes.{AreRound, ChainsEnd, HasScopes, Holds, IsWithin, holds_of, scopes_round};

use crate::net::{LoopInst, Net};

impl Net {
    /// Whether the scope holds the place. Scope 0, the run, holds each place. It takes no memory, and
    /// a step for each scope around the place.
    pub fn held(&self, place: u32, scope: u32) -> bool
        requires place { IsNumberOf self.now.places place }
        requires scopes { HasScopes self.now }
        ensures held { OnTrue result (Holds self.now scope place) }
        ensures free { OnFalse result (Holds self.now scope place → ⊥) }
        // As a function: the scope is one of those round the place, which are all that hold it.
        ensures told { result ≡ holds_of self.now scope place }
        ensures round { AreRound self.now place (scopes_round self.now place) }
    {
        let innermost = self.places.as_slice()[place as usize - 1].scope;
        is_within(self.loops.as_slice(), innermost, scope)
    }
}

/// Whether a scope is another one or lies within it, by the chain from the inner one outward.
fn is_within(loops: &[LoopInst], inner: u32, outer: u32) -> bool
    requires inner { IsNumberOrZero loops.now inner }
    requires loops { All (λ inst. IsNumberOrZero loops.now inst.outer) loops.now }
    requires chains { ChainsEnd loops.now }
    ensures within { OnTrue result (IsWithin loops.now outer inner) }
    ensures apart { OnFalse result (IsWithin loops.now outer inner → ⊥) }
{
    let mut scope = inner;
    while scope != outer {
        if scope == 0 {
            return false;
        }
        scope = loops[scope as usize - 1].outer;
    }
    true
}
