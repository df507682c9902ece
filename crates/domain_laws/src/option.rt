//! Optional states: none is under every state, as that of a place that no way has come to.

ghost use Rattle.std.specs.Prelude.{◌+◌};
ghost use Rattle.domain_laws.specs.Options.{option_has, option_joined, option_lattice, option_leq, option_rank, option_ranked, option_widening};

use crate::lattice::{Height, Lattice, Widen};
use std::alloc::AllocError;

impl<D: Lattice> Lattice for Option<D> {
    ghost has = { option_has D.has };

    ghost leq = { option_leq D.leq };

    ghost joined = { option_joined D.joined };

    fn copy(&self) -> Result<Self, AllocError> {
        match self {
            Some(value) => Ok(Some(value.copy()?)),
            None => Ok(None),
        }
    }

    fn leq(&self, other: &Self) -> bool {
        match (self, other) {
            (None, _) => true,
            (Some(_), None) => false,
            (Some(value), Some(above)) => value.leq(above),
        }
    }

    fn join(&mut self, other: &Self) -> Result<bool, AllocError> {
        let Some(newer) = other else {
            return Ok(false);
        };
        match self {
            Some(value) => value.join(newer),
            None => {
                *self = Some(newer.copy()?);
                Ok(true)
            }
        }
    }

    ghost lattice = { option_lattice D.lattice };
}

impl<D: Height> Height for Option<D> {
    ghost rank = { option_rank D.rank D.height };

    ghost height = { D.height + 1 };

    ghost ranked = { option_ranked D.ranked };
}

impl<D: Widen> Widen for Option<D> {
    ghost widened = { option_joined D.widened };

    fn widen(&mut self, newer: &Self) -> Result<bool, AllocError> {
        let Some(newer) = newer else {
            return Ok(false);
        };
        match self {
            Some(value) => value.widen(newer),
            None => {
                *self = Some(newer.copy()?);
                Ok(true)
            }
        }
    }

    ghost widening = { option_widening D.lattice D.widening };
}
