//! The order of lower ages and their joins: a state that knows less has lesser bounds.

ghost use Rattle.std.specs.Prelude.{◌≡◌, ◌+◌, ◌*◌, ◌^◌, Some};
ghost use Rattle.domain_laws.specs.Consequences.{joined_widening};
ghost use Rattle.domain_laws.specs.Maps.{Rises, map_leq, topped_leq, value_at};
ghost use Rattle.may_domain.specs.Laws.{lower_lattice, lower_ranked};
ghost use Rattle.may_domain.specs.Order.{at_least, joined, leq, lower_has, rank};

use crate::change::{Join, change_all};
use crate::state::Lower;
use domain_laws::{Height, Lattice, Widen, value_in};
use std::alloc::AllocError;

/// Whether a bound is at most that of its block in other ages.
fn is_entry_above(entry: (u32, u32), ages: &[(u32, u32)]) -> bool
    requires { Rises 0 ages.now }
    ensures { result ≡ topped_leq at_least (value_at entry.0 ages.now) (Some entry.1) }
{
    match value_in(ages, entry.0) {
        Some(age) => entry.1 <= *age,
        None => false,
    }
}

/// Whether each bound of the second ages is at most that of the first.
fn is_under(below: &[(u32, u32)], above: &[(u32, u32)]) -> bool
    requires { Rises 0 below.now }
    ensures { result ≡ map_leq at_least below.now above.now }
{
    for entry in above {
        if !is_entry_above(*entry, below) {
            return false;
        }
    }
    true
}

impl Lattice for Lower {
    ghost has = { lower_has };

    ghost leq = { leq };

    ghost joined = { joined };

    fn copy(&self) -> Result<Self, AllocError> {
        let ages = Vec::from_slice(*self.ages.allocator(), &self.ages)?;
        Ok(Lower {
            ways: self.ways,
            shared: self.shared,
            ages,
        })
    }

    fn leq(&self, other: &Self) -> bool {
        self.shared >= other.shared && is_under(&self.ages, &other.ages)
    }

    fn join(&mut self, other: &Self) -> Result<bool, AllocError> {
        if other.leq(self) {
            return Ok(false);
        }
        self.shared = self.shared.min(other.shared);
        let join = Join {
            others: &other.ages,
        };
        change_all(&join, &mut self.ages);
        Ok(true)
    }

    ghost lattice = { lower_lattice };
}

impl Height for Lower {
    ghost rank = { rank };

    ghost height = { 2 ^ 32 * 2 ^ 32 + 1 + 2 ^ 32 };

    ghost ranked = { lower_ranked };
}

impl Widen for Lower {
    ghost widened = { joined };

    fn widen(&mut self, newer: &Self) -> Result<bool, AllocError> {
        self.join(newer)
    }

    ghost widening = { joined_widening lower_lattice };
}
