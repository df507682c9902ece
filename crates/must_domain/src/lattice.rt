//! The order of upper ages and their joins: a state that knows less has greater bounds.

ghost use Rattle.std.specs.Prelude.{◌≡◌, ◌+◌, ◌*◌, ◌^◌, Some, nat_le};
ghost use Rattle.domain_laws.specs.Consequences.{joined_widening};
ghost use Rattle.domain_laws.specs.Maps.{map_leq, topped_leq, value_at};
ghost use Rattle.must_domain.specs.Laws.{upper_lattice, upper_ranked};
ghost use Rattle.must_domain.specs.Order.{joined, leq, rank, upper_has};

use crate::change::{Join, change_all};
use crate::state::{Upper, age_in};
use domain_laws::{Height, Lattice, Widen};
use std::alloc::AllocError;

/// Whether a bound is at least that of its block in other ages.
fn is_entry_above(entry: (u32, u32), ages: &[(u32, u32)]) -> bool
    ensures { result ≡ topped_leq nat_le (value_at entry.0 ages.now) (Some entry.1) }
{
    match age_in(ages, entry.0) {
        Some(age) => age <= entry.1,
        None => false,
    }
}

/// Whether each bound of the second ages is at least that of the first.
fn is_under(below: &[(u32, u32)], above: &[(u32, u32)]) -> bool
    ensures { result ≡ map_leq nat_le below.now above.now }
{
    for entry in above {
        if !is_entry_above(*entry, below) {
            return false;
        }
    }
    true
}

impl Lattice for Upper {
    ghost has = { upper_has };

    ghost leq = { leq };

    ghost joined = { joined };

    fn copy(&self) -> Result<Self, AllocError> {
        let ages = Vec::from_slice(*self.ages.allocator(), &self.ages)?;
        Ok(Upper {
            ways: self.ways,
            ages,
        })
    }

    fn leq(&self, other: &Self) -> bool {
        is_under(&self.ages, &other.ages)
    }

    fn join(&mut self, other: &Self) -> Result<bool, AllocError> {
        if other.leq(self) {
            return Ok(false);
        }
        let join = Join {
            others: &other.ages,
        };
        change_all(&join, &mut self.ages);
        Ok(true)
    }

    ghost lattice = { upper_lattice };
}

impl Height for Upper {
    ghost rank = { rank };

    ghost height = { 2 ^ 32 * 2 ^ 32 + 1 };

    ghost ranked = { upper_ranked };
}

impl Widen for Upper {
    ghost widened = { joined };

    fn widen(&mut self, newer: &Self) -> Result<bool, AllocError> {
        self.join(newer)
    }

    ghost widening = { joined_widening upper_lattice };
}
