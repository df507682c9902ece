//! What the places and arcs of a net make of a state.

ghost use Rattle.std.specs.Prelude.{◌≡◌, ℕ, IfOk};
ghost use Rattle.domain_laws.specs.Shapes.{Shape};
ghost use Rattle.domain_laws.specs.Transfers.{IsTransfer};

use crate::lattice::Lattice;
use std::alloc::AllocError;

/// How a state changes in a place of a net and along an arc.
///
/// Its outcomes are monotone: a state that knows less gives an outcome that knows no more.
pub trait Transfer<D: Lattice> {
    /// Which numbers of places it serves.
    ghost serves_place: { Self → ℕ → Type 0 };

    /// Which numbers of arcs it serves.
    ghost serves_arc: { Self → ℕ → Type 0 };

    /// The shape of the states that it takes and gives.
    ghost shape: { Self → Shape };

    /// The state after the unit of a place, from the state before it.
    ghost stepped: { Self → ℕ → D → D };

    /// The state at the end of an arc, from the state after the place that it leaves.
    ghost moved: { Self → ℕ → D → D };

    /// The state after the unit of a place.
    fn step(&self, place: u32, before: &D) -> Result<D, AllocError>
        requires served { serves_place self.now place }
        requires shaped { D.has before.now (shape self.now) }
        ensures { IfOk result (λ after. after ≡ stepped self.now place before.now) };

    /// The state at the end of an arc.
    fn along(&self, arc: u32, after: &D) -> Result<D, AllocError>
        requires served { serves_arc self.now arc }
        requires shaped { D.has after.now (shape self.now) }
        ensures { IfOk result (λ next. next ≡ moved self.now arc after.now) };

    ghost steps: { (t : Self) → IsTransfer D.has D.leq (serves_place t) (shape t) (stepped t) };

    ghost moves: { (t : Self) → IsTransfer D.has D.leq (serves_arc t) (shape t) (moved t) };
}
