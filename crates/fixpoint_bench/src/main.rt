//! Solves tables of states of one number over made nets, and prints how many steps that took: `bench/fixpoint.sh` times it. A
//! line of the input is a shape and a number of places: `chain 65000`, `diamonds 65000` or `nests 65000`.
#![tactic(auto)]

ghost use Rattle.std.specs.Prelude.{◌≤◌, IfSome};

mod nets;
mod number;

use anyhow::{Result, bail};
use fixpoint::{is_upward, solve};
use flow_net::Net;
use nets::{chain, diamonds, nests};
use number::{AtLeast, Number};
use std::alloc::{AllocError, Global};
use std::io::Stdin;

fn main(rt: HostRuntime) -> Result<()> {
    for line in rt.lines(rt.alloc()) {
        let line = line?;
        let text = line.as_str().trim();
        let Some(net) = made(rt.alloc(), text)? else {
            bail!("a line is `chain`, `diamonds` or `nests`, and a number of at most 65000 places");
        };
        let Some((steps, last)) = solved(rt.alloc(), &net)? else {
            bail!("the net can't be solved");
        };
        println!(rt; "{text}: {steps} steps, {last} before the last place")?;
    }
    Ok(())
}

/// The number behind a word, if it is at most 65,000.
fn places_after(text: &str, word: &str) -> Option<u32>
    ensures { IfSome result (λ places. places ≤ 65000) }
{
    let rest = text.strip_prefix(word)?;
    match rest.parse::<u32>() {
        Ok(places) if places <= 65_000 => Some(places),
        _ => None,
    }
}

/// The net that a line asks for.
fn made(alloc: Global, text: &str) -> Result<Option<Net>, AllocError> {
    if let Some(places) = places_after(text, "chain ") {
        return Ok(Some(chain(alloc, places)?));
    }
    if let Some(places) = places_after(text, "diamonds ") {
        return Ok(Some(diamonds(alloc, places / 4)?));
    }
    if let Some(places) = places_after(text, "nests ") {
        return Ok(Some(nests(alloc, places / 16)?));
    }
    Ok(None)
}

/// Solves the net from the number 0 on: how many steps that took, and the number before the last place.
fn solved(alloc: Global, net: &Net) -> Result<Option<(u64, u32)>, AllocError> {
    if !is_upward(alloc, net)? {
        return Ok(None);
    }
    let count = net.places.as_slice().len();
    if count == 0 {
        return Ok(None);
    }
    let transfer = AtLeast::new();
    let table = solve(alloc, net, &Number { number: 0 }, &transfer)?;
    Ok(Some((transfer.steps(), table.at(count as u32).number)))
}
