//! What the arcs of a net cost, and how often they are taken at most.

ghost use Rattle.std.specs.Prelude.{◌≡◌, ◌==◌, ℕ, All, IfOk, length, pos};
ghost use Rattle.flow_net.specs.Numbers.{IsNumberOrZero};
ghost use Rattle.flow_net.specs.Scopes.{HasScopes};
ghost use Rattle.ipet_program.specs.Programs.{IsSmall};
ghost use Rattle.ipet_program.specs.Sums.{numbered};
ghost use Rattle.ipet_program.specs.Tables.{AreCaps, AreLow, AreTurns, AreValues, IsCap, IsPrice};

use crate::turns::place_turns;
use flow_net::Net;
use std::alloc::{AllocError, Global};
use wcet_io::List;

/// The price of a place, of a table of them; 0 costs nothing.
fn price_of(prices: &[u64], place: u32) -> i64
    requires place { IsNumberOrZero prices.now place }
    requires priced { All IsPrice prices.now }
    ensures price { (price : ℕ → ℕ) → price 0 ≡ 0 →
        prices.now ≡ numbered price (length prices.now) → result ≡ pos (price place) }
    ensures small { IsSmall result }
{
    if place == 0 {
        return 0;
    }
    prices[place as usize - 1] as i64
}

/// The value of each arc: the price of the place that it goes to.
pub fn values_of(alloc: Global, net: &Net, prices: &[u64]) -> Result<List<i64>, AllocError>
    requires ends { All (λ arc. IsNumberOrZero net.now.places arc.to) net.now.arcs }
    requires count { length prices.now ≡ length net.now.places }
    requires priced { All IsPrice prices.now }
    ensures values { IfOk result (AreValues net.now prices.now) }
    ensures count { IfOk result (λ values. length values ≡ length net.now.arcs) }
    ensures small { IfOk result (All IsSmall) }
{
    let mut values = List::new(alloc);
    for arc in net.arcs.as_slice() {
        values.push(price_of(prices, arc.to))?;
    }
    Ok(values)
}

/// How often an arc from a place is taken at most; one from 0 comes once.
pub fn cap_of(net: &Net, turns: &[u128], from: u32) -> u64
    requires from { IsNumberOrZero net.now.places from }
    requires scopes { HasScopes net.now }
    requires turns { AreTurns net.now.loops turns.now }
    requires low { AreLow net.now }
    ensures cap { IsCap net.now from result }
{
    if from == 0 {
        return 1;
    }
    place_turns(net, turns, from as usize) as u64
}

/// The cap of each arc: how often the loops round its source let that be visited.
pub fn caps_of(alloc: Global, net: &Net, turns: &[u128]) -> Result<List<u64>, AllocError>
    requires starts { All (λ arc. IsNumberOrZero net.now.places arc.from) net.now.arcs }
    requires scopes { HasScopes net.now }
    requires turns { AreTurns net.now.loops turns.now }
    requires low { AreLow net.now }
    ensures caps { IfOk result (AreCaps net.now) }
{
    let mut caps = List::new(alloc);
    for arc in net.arcs.as_slice() {
        caps.push(cap_of(net, turns, arc.from))?;
    }
    Ok(caps)
}
