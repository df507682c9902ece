//! Numbers that rise by one step.

use crate::divisors::{divides, rest};
use std::marker::Model;

/// The numbers lo, lo + step and so on, up to hi, all of 32 bits. The step is 0 exactly where lo is hi, else it
/// divides hi - lo, so that equal values hold equal numbers. (Strided intervals: Reps and Balakrishnan 2008.)
#[derive(Clone, Copy, Debug, PartialEq, Eq)]
pub struct Strided {
    lo: u32,
    hi: u32,
    step: u32,
}

impl Model for Strided {
    ghost use Rattle.value_domain.specs.Spans.{IsStrided, Span};

    ghost Value = { Span };

    ghost view = { λ s. record { lo = s.lo; hi = s.hi; step = s.step } };

    ghost invariant = { λ s. IsStrided (record { lo = s.lo; hi = s.hi; step = s.step }) };

    ghost inverse = { λ n. record { lo = n.lo; hi = n.hi; step = n.step } };
}

ghost use Rattle.std.specs.Prelude.{◌≡◌, ◌↔◌, ◌≤◌, ◌<◌, ◌/◌, ◌%◌, ◌^◌, ℕ, true};
ghost use Rattle.domain_laws.specs.Laws.{IsCeiling};
ghost use Rattle.value_domain.specs.Order.{leq, widened};
ghost use Rattle.value_domain.specs.Spans.{Holds, IsStrided, IsWhole, between, everything, is_single, meets, single};
ghost use Rattle.value_domain.specs.Results.{inverted, wrapped};

impl Strided {
    /// One number. Values under it widen to it.
    pub fn one(n: u32) -> Strided
        ensures value { result ≡ single n }
        ensures ceiling { IsCeiling IsStrided leq widened result }
    {
        Strided {
            lo: n,
            hi: n,
            step: 0,
        }
    }

    /// Every number. No value widens past it.
    pub fn all() -> Strided
        ensures value { result ≡ everything }
        ensures ceiling { IsCeiling IsStrided leq widened result }
    {
        Strided {
            lo: 0,
            hi: 0xffff_ffff,
            step: 1,
        }
    }

    /// The numbers from one to another by a step.
    pub fn spaced(lo: u32, hi: u32, step: u32) -> Strided
        requires { IsStrided (record { lo = lo; hi = hi; step = step }) }
        ensures { result ≡ record { lo = lo; hi = hi; step = step } }
    {
        Strided { lo, hi, step }
    }

    /// Every number between two ends.
    pub fn between(lo: u32, hi: u32) -> Strided
        requires { lo ≤ hi }
        ensures { result ≡ between lo hi }
    {
        let step = if lo == hi { 0 } else { 1 };
        Strided { lo, hi, step }
    }

    /// The least number.
    pub fn lo(&self) -> u32
        ensures value { result ≡ self.now.lo }
        ensures order { result ≤ self.now.hi }
    {
        self.lo
    }

    /// The greatest number.
    pub fn hi(&self) -> u32
        ensures { result ≡ self.now.hi }
    {
        self.hi
    }

    /// How far each number is from the next; 0 where there is one alone.
    pub fn step(&self) -> u32
        ensures value { result ≡ self.now.step }
        ensures shape { IsStrided self.now }
    {
        self.step
    }

    /// Whether there is one number alone.
    pub fn is_one(&self) -> bool
        ensures { result ≡ is_single self.now }
    {
        self.lo == self.hi
    }

    /// Whether a number is held.
    pub fn holds(&self, n: u32) -> bool
        ensures { (result ≡ true) ↔ Holds self.now n }
    {
        if n < self.lo || self.hi < n {
            return false;
        }
        divides(self.step, n - self.lo)
    }

    /// Whether the least held number from one number on is before another one.
    #[tactic(auto, unfolding(crate::specs::Spans::meets))]
    fn is_met(&self, from: u64, to: u64) -> bool
        ensures { result ≡ meets self.now from to }
    {
        let (lo, hi) = (u64::from(self.lo), u64::from(self.hi));
        if hi < from {
            return false;
        }
        if from <= lo {
            return lo < to;
        }
        from + rest(hi - from, self.step) < to
    }

    /// Whether a held number lies from one number on before another one.
    pub fn meets(&self, from: u64, to: u64) -> bool
        ensures value { result ≡ meets self.now from to }
        ensures numbers { (result ≡ true) ↔ ((n : ℕ) × Holds self.now n × (from ≤ n) × (n < to)) }
    {
        let _shape = self.step();
        self.is_met(from, to)
    }

    /// Exact numbers modulo 2^32.
    pub(crate) fn wrapped(lo: u64, hi: u64, step: u64) -> Strided
        requires { IsWhole lo hi step }
        ensures { result ≡ wrapped lo hi step }
    {
        if lo / 0x1_0000_0000 == hi / 0x1_0000_0000 {
            return Strided {
                lo: (lo % 0x1_0000_0000) as u32,
                hi: (hi % 0x1_0000_0000) as u32,
                step: step as u32,
            };
        }
        Strided::all()
    }

    /// Each bit turned over.
    pub(crate) fn inverted(&self) -> Strided
        ensures { result ≡ inverted self.now }
    {
        Strided {
            lo: !self.hi,
            hi: !self.lo,
            step: self.step,
        }
    }

    /// Each number shifted to the right by bits that no number differs in.
    pub(crate) fn scaled_down(&self, by: u32) -> Strided
        requires small { by < 32 }
        requires kept { self.now.step % 2 ^ by ≡ 0 }
        ensures { result
            ≡ record { lo = self.now.lo / 2 ^ by; hi = self.now.hi / 2 ^ by; step = self.now.step / 2 ^ by } }
    {
        Strided {
            lo: self.lo >> by,
            hi: self.hi >> by,
            step: self.step >> by,
        }
    }
}
