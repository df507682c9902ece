//! The order of conflicts and their joins: a state that knows less has more conflicts.

ghost use Rattle.std.specs.Prelude.{◌≡◌, ◌^◌};
ghost use Rattle.domain_laws.specs.Consequences.{joined_widening};
ghost use Rattle.persist_domain.specs.Laws.{conflicts_lattice, conflicts_ranked};
ghost use Rattle.persist_domain.specs.Order.{conflicts_have, joined, leq, rank};

use crate::state::Conflicts;
use domain_laws::{Height, Lattice, Widen};
use std::alloc::AllocError;

impl Lattice for Conflicts {
    ghost has = { conflicts_have };

    ghost leq = { leq };

    ghost joined = { joined };

    fn copy(&self) -> Result<Self, AllocError> {
        let others = self.others.copy()?;
        Ok(Conflicts {
            alloc: self.alloc,
            ways: self.ways,
            block: self.block,
            others,
        })
    }

    fn leq(&self, other: &Self) -> bool {
        self.others.leq(&other.others)
    }

    fn join(&mut self, other: &Self) -> Result<bool, AllocError> {
        if other.leq(self) {
            return Ok(false);
        }
        let mut others = self.others.copy()?;
        others.join(&other.others)?;
        self.others = others;
        Ok(true)
    }

    ghost lattice = { conflicts_lattice };
}

impl Height for Conflicts {
    ghost rank = { rank };

    ghost height = { 2 ^ 32 };

    ghost ranked = { conflicts_ranked };
}

impl Widen for Conflicts {
    ghost widened = { joined };

    fn widen(&mut self, newer: &Self) -> Result<bool, AllocError> {
        self.join(newer)
    }

    ghost widening = { joined_widening conflicts_lattice };
}
