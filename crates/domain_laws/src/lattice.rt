//! What a domain of abstract states owes: an order with joins, ranks that end each rise, and widening.

ghost use Rattle.std.specs.Prelude.{◌≡◌, ℕ, Bool, IfOk, OnOk, not};
ghost use Rattle.domain_laws.specs.Laws.{IsLattice, IsRanked, IsWidening};
ghost use Rattle.domain_laws.specs.Shapes.{HaveShape, Shape};

use std::alloc::AllocError;

/// Abstract states in an order, of which those with a common shape have least upper bounds.
///
/// A type keeps its allocator where it needs one, so that the calls take none.
pub trait Lattice: Sized + Drop {
    /// Which values have which shape. A value may have several.
    ghost has: { Self → Shape → Type 0 };

    /// Whether a value is under another one.
    ghost leq: { Self → Self → Bool };

    /// The least upper bound.
    ghost joined: { Self → Self → Self };

    /// An equal value.
    fn copy(&self) -> Result<Self, AllocError>
        ensures { IfOk result (λ copy. copy ≡ self.now) };

    /// Whether this value is under another one. It takes no memory.
    fn leq(&self, other: &Self) -> bool
        ensures { result ≡ leq self.now other.now };

    /// Makes this value the least upper bound of both, and tells whether it grew.
    fn join(&mut self, other: &Self) -> Result<bool, AllocError>
        requires { HaveShape has self.old other.now }
        ensures value { OnOk result (self.new ≡ joined self.old other.now) }
        ensures grew { IfOk result (λ grew. grew ≡ not (leq self.new self.old)) };

    ghost lattice: { IsLattice has leq joined };
}

/// A lattice with a rank for each value, which falls where a value grows, so that each rise ends.
pub trait Height: Lattice {
    /// The rank of a value. No call computes it.
    ghost rank: { Self → ℕ };

    /// A number that no rank reaches.
    ghost height: { ℕ };

    ghost ranked: { IsRanked Self.has Self.leq rank height };
}

/// A lattice in which a value may rise further than its join, so that it rises fewer times.
pub trait Widen: Height {
    /// The upper bound that widening takes.
    ghost widened: { Self → Self → Self };

    /// Makes this value an upper bound of both, and tells whether it grew.
    fn widen(&mut self, newer: &Self) -> Result<bool, AllocError>
        requires { HaveShape Self.has self.old newer.now }
        ensures value { OnOk result (self.new ≡ widened self.old newer.now) }
        ensures grew { IfOk result (λ grew. grew ≡ not (Self.leq self.new self.old)) };

    ghost widening: { IsWidening Self.has Self.leq widened };
}
