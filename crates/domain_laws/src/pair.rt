//! Pairs of states: a pair is under another one where both parts are.

ghost use Rattle.std.specs.Prelude.{◌+◌};
ghost use Rattle.domain_laws.specs.Pairs.{pair_has, pair_joined, pair_lattice, pair_leq, pair_rank, pair_ranked, pair_widening};

use crate::lattice::{Height, Lattice, Widen};
use std::alloc::AllocError;

impl<A: Lattice, B: Lattice> Lattice for (A, B) {
    ghost has = { pair_has A.has B.has };

    ghost leq = { pair_leq A.leq B.leq };

    ghost joined = { pair_joined A.joined B.joined };

    fn copy(&self) -> Result<Self, AllocError> {
        Ok((self.0.copy()?, self.1.copy()?))
    }

    fn leq(&self, other: &Self) -> bool {
        self.0.leq(&other.0) && self.1.leq(&other.1)
    }

    fn join(&mut self, other: &Self) -> Result<bool, AllocError> {
        let left = self.0.join(&other.0)?;
        let right = self.1.join(&other.1)?;
        Ok(left || right)
    }

    ghost lattice = { pair_lattice A.lattice B.lattice };
}

impl<A: Height, B: Height> Height for (A, B) {
    ghost rank = { pair_rank A.rank B.rank };

    ghost height = { A.height + B.height };

    ghost ranked = { pair_ranked A.lattice B.lattice A.ranked B.ranked };
}

impl<A: Widen, B: Widen> Widen for (A, B) {
    ghost widened = { pair_joined A.widened B.widened };

    fn widen(&mut self, newer: &Self) -> Result<bool, AllocError> {
        let left = self.0.widen(&newer.0)?;
        let right = self.1.widen(&newer.1)?;
        Ok(left || right)
    }

    ghost widening = { pair_widening A.widening B.widening };
}
