//! Spans of addresses, as the text of a profile gives them.

ghost use Rattle.std.specs.Prelude.{◌≡◌, ◌<◌, ◌≤◌, IfSome, false, map};
ghost use Rattle.std.specs.Bool.{OnFalse, OnTrue};
ghost use Rattle.std.specs.List.{list_any};
ghost use Rattle.toml.specs.View.{table_view, view};
ghost use Rattle.cache_config.specs.Limits.{AreApart, memory_end, most_bytes};
ghost use Rattle.cache_config.specs.Spans.{SharesAddress, is_misplaced, meets, meets_some, span_in, span_of, stack_of};

use crate::keys::{SIZE, STACK_SIZE, STACK_TOP, START};
use crate::limits::{AREA_ABOVE, MEMORY_END};
use crate::values::{is_kept, number_at, value_of};
use toml::{Table, Value};

/// The addresses from a start on.
#[derive(Clone, Copy)]
pub(crate) struct Span {
    /// The first address.
    pub(crate) start: u32,
    /// How many addresses.
    pub(crate) size: u32,
}

/// The addresses of the stack with the area above it; `None` where its top or its size is out of its
/// limits, or the top is less than the size.
pub(crate) fn stack_of(table: &Table) -> Option<Span>
    ensures { result ≡ stack_of (table_view table.now) }
{
    let top = value_of(table, &STACK_TOP);
    let size = value_of(table, &STACK_SIZE);
    let kept = is_kept(table, &STACK_TOP) && is_kept(table, &STACK_SIZE);
    if kept && size <= top {
        Some(Span {
            start: (top - size) as u32,
            size: (size + AREA_ABOVE) as u32,
        })
    } else {
        None
    }
}

/// The addresses that a table of `region` gives, where its start and size are within their limits.
fn span_in(table: &Table) -> Option<Span>
    ensures value { result ≡ span_in (table_view table.now) }
    ensures starts_low { IfSome result (λ s. s.start < memory_end) }
    ensures some { IfSome result (λ s. 1 ≤ s.size) }
    ensures small { IfSome result (λ s. s.size ≤ most_bytes) }
{
    let start = number_at(table, &START)?;
    let size = number_at(table, &SIZE)?;
    Some(Span {
        start: start as u32,
        size: size as u32,
    })
}

/// The addresses that an element of `region` gives; `None` too where it isn't a table.
pub(crate) fn span_of(value: &Value) -> Option<Span>
    ensures value { result ≡ span_of (view value.now) }
    ensures starts_low { IfSome result (λ s. s.start < memory_end) }
    ensures some { IfSome result (λ s. 1 ≤ s.size) }
    ensures small { IfSome result (λ s. s.size ≤ most_bytes) }
{
    match value.as_table() {
        Some(table) => span_in(table),
        None => None,
    }
}

/// Whether two spans share an address, where none of them is empty.
fn meets(span: Span, other: Span) -> bool
    ensures value { result ≡ meets span other }
    ensures shared { OnTrue result (1 ≤ span.size → 1 ≤ other.size → SharesAddress span other) }
    ensures apart { OnFalse result (AreApart other.start other.size span.start span.size) }
{
    let end = u64::from(span.start) + u64::from(span.size);
    let other_end = u64::from(other.start) + u64::from(other.size);
    u64::from(span.start) < other_end && u64::from(other.start) < end
}

/// The same where there may be no other span.
fn meets_some(span: Span, other: Option<Span>) -> bool
    ensures { result ≡ meets_some span other }
{
    match other {
        Some(other) => meets(span, other),
        None => false,
    }
}

/// Whether a span shares an address with that of one of the elements.
fn meets_earlier(span: Span, earlier: &[Value]) -> bool
    ensures { result ≡ list_any (λ d. meets_some span (span_of d)) (map view earlier.now) }
{
    for value in earlier {
        if meets_some(span, span_of(value)) {
            return true;
        }
    }
    false
}

/// Whether a span breaks a joint rule: it ends past the end of memory, or shares an address with the
/// stack or with an earlier element.
pub(crate) fn is_misplaced(stack: Option<Span>, earlier: &[Value], span: Span) -> bool
    ensures { result ≡ is_misplaced stack (map view earlier.now) span }
{
    let end = u64::from(span.start) + u64::from(span.size);
    end > MEMORY_END || meets_some(span, stack) || meets_earlier(span, earlier)
}
