//! What the value at a key is.

ghost use Rattle.std.specs.Prelude.{◌≡◌, ◌<◌, ◌≤◌, IfSome, length, map, option_and_then, option_map};
ghost use Rattle.toml.specs.Data.{as_integer, get_member, no_members};
ghost use Rattle.toml.specs.View.{table_view, view};
ghost use Rattle.cache_config.specs.Rows.{HasDefault, HasLawfulDefault, IsWithin, absent_of, kind_of, row_of};
ghost use Rattle.cache_config.specs.Values.{eights, elements_in, fits, members_at, elements_at, is_kept, number_at, number_of, place_of, powers, value_of, within, words_of};

use crate::keys::{Absent, Key, Kind};
use toml::{Table, Value};

/// The value at a key.
pub(crate) fn member<'a>(table: &'a Table, name: &str) -> Option<&'a Value>
    ensures { option_map (λ v. view v.now) result ≡ get_member name.now (table_view table.now) }
{
    table.get(name)
}

/// The integer as a number from `least` to `most`.
fn within(integer: i64, least: u64, most: u64) -> Option<u64>
    ensures { result ≡ within least most integer }
{
    match u64::try_from(integer) {
        Ok(n) if least <= n && n <= most => Some(n),
        _ => None,
    }
}

/// The value as a number from `least` to `most`.
fn number_in(value: &Value, least: u64, most: u64) -> Option<u64>
    ensures value { result ≡ option_and_then (within least most) (as_integer (view value.now)) }
    ensures within { IfSome result (λ n. (least ≤ n) × (n ≤ most)) }
{
    match value.as_integer() {
        Some(integer) => within(integer, least, most),
        None => None,
    }
}

/// The number where it is a multiple of 8.
fn eights(number: Option<u64>) -> Option<u64>
    ensures { result ≡ eights number }
{
    match number {
        Some(n) if n % 8 == 0 => Some(n),
        _ => None,
    }
}

/// The number where it is a power of two.
fn powers(number: Option<u64>) -> Option<u64>
    ensures { result ≡ powers number }
{
    match number {
        Some(n) if n.is_power_of_two() => Some(n),
        _ => None,
    }
}

/// The place of a word among some words, from 0.
fn place_of(words: &[&str], word: &str) -> Option<usize>
    ensures place { result ≡ place_of (map (λ w. w.now) words.now) word.now }
    ensures within { IfSome result (λ place. place < length words.now) }
{
    for at in 0..words.len() {
        if words[at] == word {
            return Some(at);
        }
    }
    None
}

/// The words of a kind; none where it doesn't ask for one of some words.
fn words_of(kind: Kind) -> &'static [&'static str]
    ensures { map (λ w. w.now) result.now ≡ words_of (kind_of kind) }
{
    match kind {
        Kind::OneOf { words } => words,
        _ => &[],
    }
}

/// The number that the value is, where the kind asks for a number and the value is within its limits. A word counts as
/// its place among the words.
pub(crate) fn number_of(kind: Kind, value: &Value) -> Option<u64>
    ensures value { result ≡ number_of (kind_of kind) (view value.now) }
    ensures within { IfSome result (IsWithin (kind_of kind)) }
{
    match kind {
        Kind::Number { least, most } => number_in(value, least, most),
        Kind::Eights { least, most } => eights(number_in(value, least, most)),
        Kind::Power { least, most } => powers(number_in(value, least, most)),
        Kind::OneOf { words } => match value.as_str() {
            Some(word) => place_of(words, word).map(|place| place as u64),
            None => None,
        },
        _ => None,
    }
}

/// The elements of a value; none where it isn't an array.
#[tactic(auto, using(crate::proofs::ValueLemmas::view_of_items))]
pub(crate) fn items_of(value: &Value) -> &[Value]
    ensures { map view result.now ≡ elements_in (view value.now) }
{
    match value.as_array() {
        Some(items) => items.as_slice(),
        None => &[],
    }
}

/// Whether the value is of the kind and within the kind's limits.
pub(crate) fn fits(kind: Kind, value: &Value) -> bool
    ensures { result ≡ fits (kind_of kind) (view value.now) }
{
    match kind {
        Kind::Text => value.is_str(),
        Kind::Table => value.is_table(),
        Kind::Array { most } => value.is_array() && items_of(value).len() <= most,
        _ => number_of(kind, value).is_some(),
    }
}

/// The number at a key; `None` where no number within the key's limits stands there.
pub(crate) fn number_at(table: &Table, key: &Key) -> Option<u64>
    ensures value { result ≡ number_at (row_of key.now) (table_view table.now) }
    ensures within { IfSome result (IsWithin (kind_of key.now.kind)) }
{
    match member(table, key.name) {
        Some(value) => number_of(key.kind, value),
        None => None,
    }
}

/// The number that a key with a default gives.
pub(crate) fn value_of(table: &Table, key: &Key) -> u64
    requires { HasLawfulDefault (row_of key.now) }
    ensures value { result ≡ value_of (row_of key.now) (table_view table.now) }
    ensures within { HasDefault (absent_of key.now.absent) → IsWithin (kind_of key.now.kind) result }
{
    match (number_at(table, key), key.absent) {
        (Some(n), _) => n,
        (None, Absent::Default(n)) => n,
        (None, Absent::Word(word)) => place_of(words_of(key.kind), word).unwrap_or(0) as u64,
        (None, _) => 0,
    }
}

/// Whether what stands at a key is of its kind and within its limits, or nothing stands there.
pub(crate) fn is_kept(table: &Table, key: &Key) -> bool
    ensures { result ≡ is_kept (row_of key.now) (table_view table.now) }
{
    match member(table, key.name) {
        Some(value) => fits(key.kind, value),
        None => true,
    }
}

/// The table at a key, or the empty one where no table stands there.
pub(crate) fn table_at<'a>(table: &'a Table, name: &str, empty: &'a Table) -> &'a Table
    requires { table_view empty.now ≡ no_members }
    ensures { table_view result.now ≡ members_at name.now (table_view table.now) }
{
    match member(table, name) {
        Some(value) => value.as_table().unwrap_or(empty),
        None => empty,
    }
}

/// The elements of the array at a key; none where no array stands there.
pub(crate) fn elements_at<'a>(table: &'a Table, name: &str) -> &'a [Value]
    ensures { map view result.now ≡ elements_at name.now (table_view table.now) }
{
    match member(table, name) {
        Some(value) => items_of(value),
        None => &[],
    }
}
