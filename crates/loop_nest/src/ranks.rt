//! Ranks for the positions of a table of steps, by a search in depth.

ghost use Rattle.std.specs.Prelude.{◌≡◌, ℕ, ◌+◌, ◌<◌, ◌∷◌, ◌++◌, [], All, List, Some, length, replicate, slice_get};
ghost use Rattle.std.specs.Prelude.{IfNone, IfOk, IfSome, OnOk};
ghost use Rattle.step_table.specs.Numbers.{number_of};
ghost use Rattle.loop_nest.specs.Ranks.{AreLooked, ArePassed, AreRanks, IsWalk, KeepsNumbers};
ghost use Rattle.step_table.specs.Table.{AreMet, IsStep, IsWithin};

use std::alloc::{AllocError, Global};
use step_table::steps_at;
use wcet_io::List;

/// How far a list of positions was looked at, up to the first one to which the search hasn't come. So many
/// were looked at before.
fn look_from(numbers: &[usize], positions: &[usize], from: usize) -> usize
    requires within { All (λ to. to < length numbers.now) positions.now }
    requires passed { ArePassed numbers.now positions.now from }
    ensures passed { ArePassed numbers.now positions.now result }
    ensures new { (to : ℕ) → slice_get positions.now result ≡ Some to → number_of numbers.now to ≡ 0 }
{
    for at in from..positions.len() {
        if numbers[positions[at]] == 0 {
            return at;
        }
    }
    positions.len()
}

/// A position that follows another one and to which the search hasn't come, if there is one. The steps that
/// were looked at before aren't looked at again.
fn next_of(
    table: &[List<usize>],
    last: usize,
    numbers: &[usize],
    looked: &mut [usize],
) -> Option<usize>
    requires within { IsWithin table.now }
    requires there { last < length table.now }
    requires sized { length numbers.now ≡ length table.now }
    requires looked { AreLooked table.now numbers.now looked.old }
    ensures looked { AreLooked table.now numbers.now looked.new }
    ensures step { IfSome result (IsStep table.now last) }
    ensures new { IfSome result (λ next. number_of numbers.now next ≡ 0) }
    ensures within { IfSome result (λ next. next < length table.now) }
    ensures passed { IfNone result ((x : ℕ) → IsStep table.now last x → 0 < number_of numbers.now x) }
{
    let steps = steps_at(table, last);
    let at = look_from(numbers, steps, looked[last]);
    looked[last] = at;
    steps.get(at).copied()
}

/// Goes on to a new position that follows the last one of the trail, which was taken off.
fn go_on(
    table: &[List<usize>],
    last: usize,
    next: usize,
    trail: &mut Vec<usize>,
    numbers: &mut [usize],
) -> Result<(), AllocError>
    requires sized { length numbers.old ≡ length table.now }
    requires short { length trail.old.items < length table.now }
    requires step { IsStep table.now last next }
    requires within { next < length table.now }
    requires new { number_of numbers.old next ≡ 0 }
    ensures walk { OnOk result ((entry count : ℕ) →
        IsWalk table.now entry numbers.old count (trail.old.items ++ last ∷ []) →
        IsWalk table.now entry numbers.new count trail.new.items) }
    ensures longer { OnOk result (length trail.new.items ≡ length trail.old.items + 2) }
    ensures kept { OnOk result (KeepsNumbers numbers.old numbers.new) }
{
    trail.push(last)?;
    numbers[next] = 2 * table.len() - trail.len();
    trail.push(next)?;
    Ok(())
}

/// Ranks the last position of the trail, which was taken off.
fn go_back(table: &[List<usize>], last: usize, numbers: &mut [usize], count: &mut usize)
    requires sized { length numbers.old ≡ length table.now }
    requires within { last < length table.now }
    requires short { count.old < length table.now }
    requires passed { (x : ℕ) → IsStep table.now last x → 0 < number_of numbers.old x }
    ensures walk { (entry : ℕ) (trail : List ℕ) → IsWalk table.now entry numbers.old count.old (trail ++ last ∷ [])
        → IsWalk table.now entry numbers.new count.new trail }
    ensures count { count.new ≡ count.old + 1 }
    ensures kept { KeepsNumbers numbers.old numbers.new }
{
    *count += 1;
    numbers[last] = *count;
}

/// Numbers all positions; none is numbered yet, and no step was looked at.
fn number_all(
    alloc: Global,
    table: &[List<usize>],
    entry: usize,
    numbers: &mut [usize],
    looked: &mut [usize],
) -> Result<(), AllocError>
    requires within { IsWithin table.now }
    requires there { entry < length table.now }
    requires reached { AreMet table.now entry }
    requires new { numbers.old ≡ replicate (length table.now) 0 }
    requires unlooked { looked.old ≡ replicate (length table.now) 0 }
    ensures { OnOk result (AreRanks table.now entry numbers.new) }
{
    let mut trail = Vec::new(alloc);
    let mut count = 0;
    numbers[entry] = 2 * table.len();
    trail.push(entry)?;
    while let Some(last) = trail.pop() {
        match next_of(table, last, numbers, looked) {
            Some(next) => go_on(table, last, next, &mut trail, numbers)?,
            None => go_back(table, last, numbers, &mut count),
        }
    }
    Ok(())
}

/// The ranks of the positions of a table, all of which are reached from the entry.
///
/// Each position comes to the trail once, and each step is looked at once.
pub fn ranks_of(
    alloc: Global,
    table: &[List<usize>],
    entry: usize,
) -> Result<Vec<usize>, AllocError>
    requires within { IsWithin table.now }
    requires there { entry < length table.now }
    requires reached { AreMet table.now entry }
    ensures { IfOk result (λ ranks. AreRanks table.now entry ranks.items) }
{
    let mut numbers = vec![in alloc; 0; table.len()]?;
    let mut looked = vec![in alloc; 0; table.len()]?;
    number_all(alloc, table, entry, &mut numbers, &mut looked)?;
    Ok(numbers)
}
