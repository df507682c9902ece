//! Entries by rising key: the search for a key, and the order and copies of whole lists.

ghost use Rattle.std.specs.Prelude.{◌≡◌, ◌<◌, length, IfOk, IfErr, OnOk, OnErr, Some};
ghost use Rattle.std.specs.Option.{option_copied};
ghost use Rattle.domain_laws.specs.Maps.{Rises, map_leq, topped_leq, value_at, with_value};
ghost use Rattle.domain_laws.specs.Places.{IsGapFor, IsKeyAt, IsPlaceOf};

use crate::lattice::Lattice;
use std::alloc::{AllocError, Global};

/// The key of an entry.
fn key_at<D>(entries: &[(u32, D)], place: usize) -> u32
    requires { place < length entries.now }
    ensures { IsKeyAt entries.now place result }
{
    entries[place].0
}

/// The place of a key's entry, or the one where it would be put. Each step halves what is left.
pub fn place_of<D>(entries: &[(u32, D)], key: u32) -> Result<usize, usize>
    requires { Rises 0 entries.now }
    ensures there { IfOk result (IsPlaceOf entries.now key) }
    ensures absent { IfErr result (IsGapFor entries.now key) }
{
    let mut low = 0;
    let mut high = entries.len();
    while low < high {
        let middle = low + (high - low) / 2;
        let found = key_at(entries, middle);
        if found == key {
            return Ok(middle);
        }
        if found < key {
            low = middle + 1;
        } else {
            high = middle;
        }
    }
    Err(low)
}

/// The value of a key.
pub fn value_in<D>(entries: &[(u32, D)], key: u32) -> Option<&D>
    requires { Rises 0 entries.now }
    ensures { option_copied result ≡ value_at key entries.now }
{
    match place_of(entries, key) {
        Ok(place) => Some(&entries[place].1),
        Err(_) => None,
    }
}

/// Gives a key a value. Refused for want of memory, it changes nothing.
pub fn put_in<D: Drop>(entries: &mut Vec<(u32, D)>, key: u32, value: D) -> Result<(), AllocError>
    requires { Rises 0 entries.old.items }
    ensures ok { OnOk result (entries.new.items ≡ with_value key value entries.old.items) }
    ensures err { OnErr result (entries.new.items ≡ entries.old.items) }
{
    match place_of(entries, key) {
        Ok(place) => entries[place] = (key, value),
        Err(place) => entries.insert(place, (key, value))?,
    }
    Ok(())
}

/// Whether the value of each key of the second map is above that of the first.
pub fn is_under<D: Lattice>(below: &[(u32, D)], above: &[(u32, D)]) -> bool
    requires { Rises 0 below.now }
    ensures { result ≡ map_leq D.leq below.now above.now }
{
    for (key, value) in above {
        if !is_value_under(below, *key, value) {
            return false;
        }
    }
    true
}

/// Whether a value is above that of its key in a map.
fn is_value_under<D: Lattice>(below: &[(u32, D)], key: u32, value: &D) -> bool
    requires { Rises 0 below.now }
    ensures { result ≡ topped_leq D.leq (value_at key below.now) (Some value.now) }
{
    match value_in(below, key) {
        Some(lower) => lower.leq(value),
        None => false,
    }
}

/// Equal entries.
pub fn copy_entries<D: Lattice>(
    alloc: Global,
    entries: &[(u32, D)],
) -> Result<Vec<(u32, D)>, AllocError>
    ensures { IfOk result (λ copy. copy.items ≡ entries.now) }
{
    let mut copy = Vec::with_capacity(alloc, entries.len())?;
    for (key, value) in entries {
        copy.push((*key, value.copy()?))?;
    }
    Ok(copy)
}
