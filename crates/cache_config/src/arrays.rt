//! The faults of the elements of an array of tables: of each by itself, and by a rule on them together.

ghost use Rattle.std.specs.Prelude.{◌≡◌, ◌≤◌, OnOk, length, map};
ghost use Rattle.toml.specs.View.{view};
ghost use Rattle.cache_config.specs.Faults.{array_faults, element_faults, fault_inside, shape_faults};
ghost use Rattle.cache_config.specs.Firsts.{Notes};
ghost use Rattle.cache_config.specs.Joints.{rule_of};
ghost use Rattle.cache_config.specs.Rows.{tables_of};

use crate::caches::is_too_deep;
use crate::checks::{note_at, note_table};
use crate::fault::{Fault, FaultKind, note};
use crate::keys::{CACHE, REGION, SERVES, START, Tables};
use crate::paths::{element_path, element_prefix};
use crate::spans::{Span, is_misplaced, span_of};
use std::alloc::{AllocError, Global};
use toml::Value;

/// A rule on the elements of an array together.
#[derive(Clone, Copy)]
pub(crate) enum Joint {
    /// Regions end by the end of memory, and share no address with the stack and with each other.
    Apart { stack: Option<Span> },
    /// No access goes through more than three caches.
    ShortChains,
}

/// Notes a fault at a key of the element of this number, where the key breaks a rule.
fn note_inside(
    alloc: Global,
    broken: bool,
    name: &str,
    at: usize,
    key: &str,
    first: &mut Option<Fault>,
) -> Result<(), AllocError>
    ensures { OnOk result (Notes first.old (fault_inside broken name.now at key.now) first.new) }
{
    if !broken {
        return Ok(());
    }
    let prefix = element_prefix(alloc, name, at)?;
    note_at(alloc, prefix.as_str(), key, FaultKind::Range, first)
}

/// Notes an element that breaks the rule, where these stand before it.
fn note_joint(
    alloc: Global,
    joint: Joint,
    earlier: &[Value],
    at: usize,
    value: &Value,
    first: &mut Option<Fault>,
) -> Result<(), AllocError>
    ensures { OnOk result (Notes first.old (rule_of joint (map view earlier.now) at (view value.now)) first.new) }
{
    match joint {
        Joint::Apart { stack } => match span_of(value) {
            Some(span) => {
                let broken = is_misplaced(stack, earlier, span);
                note_inside(alloc, broken, REGION.name, at, START.name, first)
            }
            None => Ok(()),
        },
        Joint::ShortChains => {
            let broken = is_too_deep(earlier, value);
            note_inside(alloc, broken, CACHE.name, at, SERVES.name, first)
        }
    }
}

/// Notes what is wrong with an element by itself.
fn note_shape(
    alloc: Global,
    tables: Tables,
    at: usize,
    value: &Value,
    first: &mut Option<Fault>,
) -> Result<(), AllocError>
    ensures { OnOk result (Notes first.old (shape_faults (tables_of tables) at (view value.now)) first.new) }
{
    match value.as_table() {
        Some(table) => {
            let prefix = element_prefix(alloc, tables.name, at)?;
            note_table(alloc, prefix.as_str(), tables.keys, table, first)
        }
        None => {
            let path = element_path(alloc, tables.name, at)?;
            let kind = FaultKind::Range;
            note(first, Fault { kind, path });
            Ok(())
        }
    }
}

/// Notes the faults of an element: the value at `at` of these.
#[tactic(auto, using(crate::proofs::FirstLemmas::appended))]
fn note_element(
    alloc: Global,
    tables: Tables,
    joint: Joint,
    values: &[Value],
    at: usize,
    value: &Value,
    first: &mut Option<Fault>,
) -> Result<(), AllocError>
    requires { at ≤ length values.now }
    ensures { let all = map view values.now in
        let faults = element_faults (tables_of tables) (rule_of joint) all at (view value.now) in
        OnOk result (Notes first.old faults first.new) }
{
    note_shape(alloc, tables, at, value, first)?;
    if values.len() > tables.most {
        return Ok(());
    }
    note_joint(alloc, joint, &values[..at], at, value, first)
}

/// Notes the faults of the elements of an array.
#[tactic(auto, using(crate::proofs::FirstLemmas::appended))]
pub(crate) fn note_array(
    alloc: Global,
    tables: Tables,
    joint: Joint,
    values: &[Value],
    first: &mut Option<Fault>,
) -> Result<(), AllocError>
    ensures { let faults = array_faults (tables_of tables) (rule_of joint) (map view values.now) in
        OnOk result (Notes first.old faults first.new) }
{
    for at in 0..values.len() {
        note_element(alloc, tables, joint, values, at, &values[at], first)?;
    }
    Ok(())
}
