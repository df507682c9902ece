//! Tables of steps, and the same the other way round.

ghost use Rattle.std.specs.Prelude.{◌≡◌, ◌<◌, ◌++◌, ◌∷◌, [], ℕ, List, AllPairs, All, length, map, IfOk, OnOk};
ghost use Rattle.step_table.specs.Table.{AreStepsTo, IsPosition, IsReverse, IsStep, IsWithin, Joins};

use crate::search::steps_at;
use std::alloc::{AllocError, Global};
use wcet_io::List;

/// The position of an address among rising ones.
pub fn position_of(addresses: &[u32], address: u32) -> Option<usize>
    requires { AllPairs (λ a b. a < b) addresses.now }
    ensures { IsPosition addresses.now address result }
{
    addresses.binary_search(&address).ok()
}

/// Adds the step to an address, if a unit stands there.
fn add_step(addresses: &[u32], address: u32, steps: &mut List<usize>) -> Result<(), AllocError>
    requires { AllPairs (λ a b. a < b) addresses.now }
    ensures { OnOk result ((onward : List ℕ) → AreStepsTo addresses.now onward steps.old →
        AreStepsTo addresses.now (onward ++ address ∷ []) steps.new) }
{
    if let Some(position) = position_of(addresses, address) {
        steps.push(position)?;
    }
    Ok(())
}

/// The steps to these addresses, by a search for each.
pub fn steps_to(alloc: Global, addresses: &[u32], onward: &[u32]) -> Result<List<usize>, AllocError>
    requires { AllPairs (λ a b. a < b) addresses.now }
    ensures { IfOk result (λ steps. AreStepsTo addresses.now onward.now steps) }
{
    let mut steps = List::new(alloc);
    for address in onward {
        add_step(addresses, *address, &mut steps)?;
    }
    Ok(steps)
}

/// Adds an item to the list at a place.
fn join_one(lists: &mut [List<usize>], place: usize, item: usize) -> Result<(), AllocError>
    requires { place < length lists.old }
    ensures { OnOk result (Joins lists.old (place ∷ []) item lists.new) }
{
    lists[place].push(item)?;
    Ok(())
}

/// Adds an item to the lists at these places.
fn join_all(lists: &mut [List<usize>], places: &[usize], item: usize) -> Result<(), AllocError>
    requires { All (λ place. place < length lists.old) places.now }
    ensures { OnOk result (Joins lists.old places.now item lists.new) }
{
    for place in places {
        join_one(lists, *place, item)?;
    }
    Ok(())
}

/// So many empty lists.
fn empty_lists(alloc: Global, count: usize) -> Result<Vec<List<usize>>, AllocError>
    ensures count { IfOk result (λ lists. length lists.items ≡ count) }
    ensures empty { IfOk result (λ lists. (from to : ℕ) → IsStep lists.items from to → ⊥) }
{
    let mut lists = Vec::new(alloc);
    for _ in 0..count {
        lists.push(List::new(alloc))?;
    }
    Ok(lists)
}

/// Adds the steps of a table to the lists, the other way round.
fn turn_round(table: &[List<usize>], lists: &mut [List<usize>]) -> Result<(), AllocError>
    requires within { IsWithin table.now }
    requires count { length lists.old ≡ length table.now }
    requires empty { (from to : ℕ) → IsStep lists.old from to → ⊥ }
    ensures reverse { OnOk result (IsReverse table.now lists.new) }
    ensures within { OnOk result (IsWithin lists.new) }
{
    for from in 0..table.len() {
        join_all(lists, steps_at(table, from), from)?;
    }
    Ok(())
}

/// The table of the steps the other way round.
pub fn reverse_of(alloc: Global, table: &[List<usize>]) -> Result<Vec<List<usize>>, AllocError>
    requires within { IsWithin table.now }
    ensures reverse { IfOk result (λ reverse. IsReverse table.now reverse.items) }
    ensures within { IfOk result (λ reverse. IsWithin reverse.items) }
{
    let mut lists = empty_lists(alloc, table.len())?;
    turn_round(table, &mut lists)?;
    Ok(lists)
}
