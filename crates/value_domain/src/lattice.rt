//! The order of strided values, their joins and their widening.

ghost use Rattle.std.specs.Prelude.{◌≡◌, ◌↔◌, ◌^◌, ℕ, nat_lt, true, if◌then◌else◌};
ghost use Rattle.domain_laws.specs.Plain.{plain_has, plain_lattice, plain_ranked, plain_widening};
ghost use Rattle.value_domain.specs.Order.{greatest_on, joined, least_on, leq, rank, widened};
ghost use Rattle.value_domain.specs.Spans.{Holds, IsStrided};
ghost use Rattle.value_domain.specs.LatticeLaws.{strided_laws, strided_ranks, strided_widening};

use crate::divisors::{divides, gcd};
use crate::strided::Strided;
use domain_laws::{Height, Lattice, Widen};
use std::alloc::AllocError;

/// Whether each number of a value is one of another.
fn is_under(a: &Strided, b: &Strided) -> bool
    ensures { result ≡ leq a.now b.now }
{
    b.lo() <= a.lo()
        && a.hi() <= b.hi()
        && divides(b.step(), a.lo() - b.lo())
        && divides(b.step(), a.step())
}

/// The least value with all numbers of both.
#[tactic(auto, unfolding(crate::specs::Order::joined))]
fn joined(a: &Strided, b: &Strided) -> Strided
    ensures { result ≡ joined a.now b.now }
{
    let least = a.lo().min(b.lo());
    let distance = a.lo().max(b.lo()) - least;
    let step = gcd(gcd(a.step(), b.step()), distance);
    Strided::spaced(least, a.hi().max(b.hi()), step)
}

/// The least number of a wider value: as far as the step lets it where the old value doesn't go so far.
fn low_end(old: u32, both: u32, step: u32) -> u32
    ensures { result ≡ (if nat_lt both old then least_on step both else both) }
{
    if old <= both || step == 0 {
        return both;
    }
    both % step
}

/// The greatest number of a wider value.
fn high_end(old: u32, both: u32, step: u32) -> u32
    ensures { result ≡ (if nat_lt old both then greatest_on step both else both) }
{
    if both <= old || step == 0 {
        return both;
    }
    0xffff_ffff - (0xffff_ffff - both) % step
}

/// The old value spread over the numbers of a newer one: an end that the old one doesn't have goes as far as the step
/// lets it (after Cousot and Cousot 1977).
#[tactic(auto, unfolding(crate::specs::Order::widened))]
fn widened(old: &Strided, newer: &Strided) -> Strided
    ensures { result ≡ widened old.now newer.now }
{
    let _shape = (old.step(), newer.step());
    let both = joined(old, newer);
    let lo = low_end(old.lo(), both.lo(), both.step());
    let hi = high_end(old.hi(), both.hi(), both.step());
    Strided::spaced(lo, hi, both.step())
}

impl Strided {
    /// The least value with all numbers of both.
    pub fn joined_with(&self, other: &Strided) -> Strided
        ensures { result ≡ joined self.now other.now }
    {
        joined(self, other)
    }

    /// This value widened by another one: an end that this one doesn't have goes as far as the step lets it, the other
    /// end stays.
    pub fn widened_by(&self, newer: &Strided) -> Strided
        ensures { result ≡ widened self.now newer.now }
    {
        widened(self, newer)
    }
}

impl Lattice for Strided {
    ghost has = { plain_has IsStrided };

    ghost leq = { leq };

    ghost joined = { joined };

    fn copy(&self) -> Result<Self, AllocError> {
        Ok(*self)
    }

    fn leq(&self, other: &Self) -> bool
        ensures value { result ≡ leq self.now other.now }
        ensures numbers { (result ≡ true) ↔ ((n : ℕ) → Holds self.now n → Holds other.now n) }
    {
        let _shape = (self.step(), other.step());
        is_under(self, other)
    }

    fn join(&mut self, other: &Self) -> Result<bool, AllocError> {
        let both = joined(self, other);
        let grew = !is_under(&both, self);
        *self = both;
        Ok(grew)
    }

    ghost lattice = { plain_lattice strided_laws };
}

impl Height for Strided {
    ghost rank = { rank };

    ghost height = { 2 ^ 65 };

    ghost ranked = { plain_ranked strided_ranks };
}

impl Widen for Strided {
    ghost widened = { widened };

    fn widen(&mut self, newer: &Self) -> Result<bool, AllocError> {
        let wider = widened(self, newer);
        let grew = !is_under(&wider, self);
        *self = wider;
        Ok(grew)
    }

    ghost widening = { plain_widening strided_widening };
}
