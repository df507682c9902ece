//! The caches that the elements of `cache` give.

ghost use Rattle.std.specs.Prelude.{◌≡◌, filter, length, map, option_map};
ghost use Rattle.toml.specs.View.{table_view, view};
ghost use Rattle.cache_config.specs.Caches.{cache, cache_in, cache_of, is_of, is_past, is_too_deep, serves_by, serves_in, serves_of};

use crate::keys::{LATENCY, LINE, SERVES, SETS, WAYS};
use crate::limits::MOST_CHAIN;
use crate::values::number_at;
use lru_concrete::{Level, Serves, Shape, Side};
use toml::{Table, Value};

/// What the word of a place among the words of `serves` says.
fn serves_by(place: u64) -> Serves
    ensures { result ≡ serves_by place }
{
    match place {
        0 => Serves::Fetch,
        1 => Serves::Load,
        _ => Serves::Both,
    }
}

/// What a table of `cache` serves; `None` where it has none of the words.
fn serves_in(table: &Table) -> Option<Serves>
    ensures { result ≡ serves_in (table_view table.now) }
{
    match number_at(table, &SERVES) {
        Some(place) => Some(serves_by(place)),
        None => None,
    }
}

/// The same of an element; `None` too where it isn't a table.
fn serves_of(value: &Value) -> Option<Serves>
    ensures { result ≡ serves_of (view value.now) }
{
    match value.as_table() {
        Some(table) => serves_in(table),
        None => None,
    }
}

/// Whether an element serves a side.
fn is_of(side: Side, value: &Value) -> bool
    ensures { result ≡ is_of side (view value.now) }
{
    match serves_of(value) {
        Some(what) => what.serves(side),
        None => false,
    }
}

/// How many elements serve a side.
fn count_of(side: Side, values: &[Value]) -> usize
    ensures { result ≡ length (filter (is_of side) (map view values.now)) }
{
    let mut count = 0;
    for value in values {
        if is_of(side, value) {
            count += 1;
        }
    }
    count
}

/// Whether an element serves a side, and so do three earlier ones or more.
fn is_past(side: Side, earlier: &[Value], value: &Value) -> bool
    ensures { result ≡ is_past side (map view earlier.now) (view value.now) }
{
    is_of(side, value) && count_of(side, earlier) >= MOST_CHAIN
}

/// Whether a chain gets too long by an element.
pub(crate) fn is_too_deep(earlier: &[Value], value: &Value) -> bool
    ensures { result ≡ is_too_deep (map view earlier.now) (view value.now) }
{
    is_past(Side::Fetch, earlier, value) || is_past(Side::Load, earlier, value)
}

/// The cache that a table of `cache` gives, where all its values are within their limits.
fn cache_in(table: &Table) -> Option<Level>
    ensures { option_map cache result ≡ cache_in (table_view table.now) }
{
    let serves = serves_in(table)?;
    let sets = number_at(table, &SETS)? as u32;
    let ways = number_at(table, &WAYS)? as u32;
    let line = number_at(table, &LINE)? as u32;
    let latency = number_at(table, &LATENCY)?;
    Some(Level {
        shape: Shape { sets, ways, line },
        serves,
        latency,
    })
}

/// The cache that an element of `cache` gives; `None` too where it isn't a table.
pub(crate) fn cache_of(value: &Value) -> Option<Level>
    ensures { option_map cache result ≡ cache_of (view value.now) }
{
    match value.as_table() {
        Some(table) => cache_in(table),
        None => None,
    }
}
