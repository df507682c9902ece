//! The tables that are made of a net once.

ghost use Rattle.std.specs.Prelude.{IfOk};
ghost use Rattle.flow_net.specs.Nested.{IsNested};
ghost use Rattle.nest_solver.specs.Plain.{AreTables};
ghost use Rattle.nest_solver.specs.Tables.{IsFew};

use crate::headers::{backs_of, headed_of};
use crate::order::{Order, order_of};
use crate::scopes::{Scopes, scopes_of};
use flow_net::Net;
use std::alloc::{AllocError, Global};

/// What the levels of a net are solved by.
#[derive(Drop)]
pub struct Tables {
    pub scopes: Scopes,
    /// Of each place the loop instance whose header it is, 0 for none.
    pub headed: Vec<usize>,
    /// Whether each arc is a back arc.
    pub backs: Vec<bool>,
    pub order: Order,
}

/// The tables of a net, in a step for each scope round each of its scopes and sources, and for each arc and place.
pub fn tables_of(alloc: Global, net: &Net) -> Result<Tables, AllocError>
    requires nested { IsNested net.now }
    requires few { IsFew net.now }
    ensures tables { IfOk result (λ tables. AreTables net.now tables) }
{
    let scopes = scopes_of(alloc, net)?;
    let headed = headed_of(alloc, net)?;
    let backs = backs_of(alloc, net, &headed)?;
    let order = order_of(alloc, net, &backs)?;
    Ok(Tables {
        scopes,
        headed,
        backs,
        order,
    })
}
