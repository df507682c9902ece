//! Operations bit by bit.

ghost use Rattle.std.specs.Prelude.{◌≡◌, ◌+◌, ◌-◌, ◌^◌, ◌≤◌, min};
ghost use Rattle.value_domain.specs.Results.{anded, nored, ored, xored};

use crate::strided::Strided;

/// The sum of the greatest numbers, or the greatest number of 32 bits: no bit of `x | y` is missing in x + y.
fn bits_end(a: &Strided, b: &Strided) -> u32
    ensures { result ≡ min (a.now.hi + b.now.hi) (2 ^ 32 - 1) }
{
    a.hi().saturating_add(b.hi())
}

/// `x & y`.
#[tactic(auto, unfolding(crate::specs::Results::anded))]
pub fn and(a: &Strided, b: &Strided) -> Strided
    ensures { result ≡ anded a.now b.now }
{
    if a.is_one() && b.is_one() {
        return Strided::one(a.lo() & b.lo());
    }
    Strided::between(0, a.hi().min(b.hi()))
}

/// `x | y`.
#[tactic(auto, unfolding(crate::specs::Results::ored))]
pub fn or(a: &Strided, b: &Strided) -> Strided
    ensures { result ≡ ored a.now b.now }
{
    if a.is_one() && b.is_one() {
        return Strided::one(a.lo() | b.lo());
    }
    Strided::between(a.lo().max(b.lo()), bits_end(a, b))
}

/// `x ^ y`.
#[tactic(auto, unfolding(crate::specs::Results::xored))]
pub fn xor(a: &Strided, b: &Strided) -> Strided
    ensures { result ≡ xored a.now b.now }
{
    if a.is_one() && b.is_one() {
        return Strided::one(a.lo() ^ b.lo());
    }
    Strided::between(0, bits_end(a, b))
}

/// `!(x | y)`.
#[tactic(auto, unfolding(crate::specs::Results::nored))]
pub fn nor(a: &Strided, b: &Strided) -> Strided
    ensures { result ≡ nored a.now b.now }
{
    or(a, b).inverted()
}
