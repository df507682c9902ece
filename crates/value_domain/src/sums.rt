//! Sums and differences modulo 2^32.

ghost use Rattle.std.specs.Prelude.{◌≡◌};
ghost use Rattle.value_domain.specs.Divisors.{gcd};
ghost use Rattle.value_domain.specs.Results.{added, taken_from, turned};
ghost use Rattle.value_domain.specs.Spans.{IsStrided};

use crate::divisors::gcd;
use crate::strided::Strided;

/// The step of sums and differences.
fn common_step(a: &Strided, b: &Strided) -> u32
    ensures value { result ≡ gcd a.now.step b.now.step }
    ensures left { IsStrided a.now }
    ensures right { IsStrided b.now }
{
    gcd(a.step(), b.step())
}

/// The sums.
#[tactic(auto, unfolding(crate::specs::Results::added))]
pub fn sum(a: &Strided, b: &Strided) -> Strided
    ensures { result ≡ added a.now b.now }
{
    let lo = u64::from(a.lo()) + u64::from(b.lo());
    let hi = u64::from(a.hi()) + u64::from(b.hi());
    let step = common_step(a, b);
    Strided::wrapped(lo, hi, u64::from(step))
}

/// The differences.
#[tactic(auto, unfolding(crate::specs::Results::taken_from))]
pub fn difference(a: &Strided, b: &Strided) -> Strided
    ensures { result ≡ taken_from a.now b.now }
{
    let lo = u64::from(a.lo()) + (0x1_0000_0000 - u64::from(b.hi()));
    let hi = u64::from(a.hi()) + (0x1_0000_0000 - u64::from(b.lo()));
    let step = common_step(a, b);
    Strided::wrapped(lo, hi, u64::from(step))
}

/// The numbers moved by 2^31, so that signed numbers are in the order of unsigned ones.
#[tactic(auto, unfolding(crate::specs::Results::turned))]
pub fn turned(a: &Strided) -> Strided
    ensures { result ≡ turned a.now }
{
    sum(a, &Strided::one(0x8000_0000))
}
