//! The profile that a text gives.

ghost use Rattle.std.specs.Prelude.{◌≡◌, ◌≤◌, [], Some, All, AllPairs, IfErr, IfNone, IfOk, IfSome, MatchResult, OnOk, ℕ, codes, false, length, map};
ghost use Rattle.toml.specs.View.{table_view, view};
ghost use Rattle.cache_config.specs.declared.fault.ConfigFault.{ConfigFault};
ghost use Rattle.cache_config.specs.Defaults.{HasDefaults};
ghost use Rattle.cache_config.specs.Caches.{cache, cache_of};
ghost use Rattle.cache_config.specs.Chains.{AreShort};
ghost use Rattle.cache_config.specs.Faults.{array_faults, chain_rule, place_rule, profile_faults, shape_faults};
ghost use Rattle.cache_config.specs.Keys.{cache_tables, profile_row, region_tables};
ghost use Rattle.cache_config.specs.Limits.{AreApart, most_regions};
ghost use Rattle.cache_config.specs.Profiles.{IsProfileOf, Means, ReadsAs, ReadsCosts, Tells, TellsOf, span};
ghost use Rattle.cache_config.specs.Spans.{is_misplaced, span_of};
ghost use Rattle.cache_config.specs.Values.{entry_of, number_at};
ghost use Rattle.lru_concrete.specs.Limits.{most_levels};
ghost use Rattle.lru_concrete.specs.declared.level.Level.{Level};

use crate::caches::cache_of;
use crate::fault::{ConfigFault, FaultKind};
use crate::first::first_fault;
use crate::keys::{
    ALU, BRANCH, CACHE, CYCLES, DIV, ENTRY, GP, JUMP, LOAD, MEMORY, MOVE, MULT, REGION, SHIFT,
    SPLITS, STACK_SIZE, STACK_TOP, STEPS, STOP, STORE, STORES,
};
use crate::profile::{Cycles, Profile, Region};
use crate::spans::{Span, is_misplaced, span_of, stack_of};
use crate::values::{elements_at, member, number_at, table_at, value_of};
use lru_concrete::Level;
use std::alloc::{AllocError, Global};
use toml::{Table, Value};
use wcet_io::List;

/// The cycles of the classes.
pub(crate) fn read_costs(table: &Table) -> Cycles
    ensures { ReadsCosts (table_view table.now) result }
{
    Cycles {
        alu: value_of(table, &ALU),
        shift: value_of(table, &SHIFT),
        mult: value_of(table, &MULT),
        div: value_of(table, &DIV),
        hilo: value_of(table, &MOVE),
        load: value_of(table, &LOAD),
        store: value_of(table, &STORES),
        branch: value_of(table, &BRANCH),
        jump: value_of(table, &JUMP),
        stop: value_of(table, &STOP),
    }
}

/// The name of the entry symbol.
fn read_entry(alloc: Global, table: &Table) -> Result<Option<List<u8>>, AllocError>
    ensures { IfOk result (λ entry. entry ≡ entry_of (table_view table.now)) }
{
    let Some(value) = member(table, ENTRY.name) else {
        return Ok(None);
    };
    let Some(name) = value.as_str() else {
        return Ok(None);
    };
    let mut entry = Vec::new(alloc);
    entry.extend_from_slice(name.as_bytes())?;
    Ok(Some(List::from_vec(entry)))
}

/// The value with which register 28 starts.
fn read_gp(table: &Table) -> Option<u32>
    ensures { result ≡ number_at (profile_row (codes "gp")) (table_view table.now) }
{
    match number_at(table, &GP) {
        Some(value) => Some(value as u32),
        None => None,
    }
}

/// The region of an element that keeps the joint rules.
fn read_region(stack: Span, earlier: &[Value], value: &Value) -> Option<Region>
    ensures span { IfSome result (λ r. Some (span r) ≡ span_of (view value.now)) }
    ensures placed { IfSome result (λ r. is_misplaced (Some stack) (map view earlier.now) (span r) ≡ false) }
    ensures none { IfNone result (
        (at : ℕ) → shape_faults region_tables at (view value.now) ≡ []
        → place_rule (Some stack) (map view earlier.now) at (view value.now) ≡ [] → ⊥) }
{
    let Some(span) = span_of(value) else {
        return None;
    };
    if is_misplaced(Some(stack), earlier, span) {
        return None;
    }
    Some(Region {
        start: span.start,
        size: span.size,
    })
}

/// The regions of the elements of `region`, none of which has a fault.
fn read_regions(alloc: Global, stack: Span, values: &[Value]) -> Result<List<Region>, AllocError>
    requires few { length values.now ≤ most_regions }
    requires faultless { array_faults region_tables (place_rule (Some stack)) (map view values.now) ≡ [] }
    ensures regions { IfOk result (λ rs. map (λ r. Some (span r)) rs ≡ map span_of (map view values.now)) }
    ensures off_stack { IfOk result (All (λ r. AreApart stack.start stack.size r.start r.size)) }
    ensures apart { IfOk result (AllPairs (λ r s. AreApart r.start r.size s.start s.size)) }
{
    let mut regions = List::new(alloc);
    for at in 0..values.len() {
        let Some(region) = read_region(stack, &values[..at], &values[at]) else {
            unreachable!()
        };
        regions.push(region)?;
    }
    Ok(regions)
}

/// The caches of the elements of `cache`, none of which has a fault.
fn read_levels(alloc: Global, values: &[Value]) -> Result<List<Level>, AllocError>
    requires few { length values.now ≤ most_levels }
    requires faultless { array_faults cache_tables chain_rule (map view values.now) ≡ [] }
    ensures levels { IfOk result (λ ls.
        map (λ (l : Level). Some (cache l)) ls ≡ map cache_of (map view values.now)) }
    ensures short { IfOk result AreShort }
{
    let mut levels = List::new(alloc);
    for at in 0..values.len() {
        let Some(level) = cache_of(&values[at]) else {
            unreachable!()
        };
        levels.push(level)?;
    }
    Ok(levels)
}

/// The profile of a text without a fault.
fn read_values(alloc: Global, table: &Table) -> Result<Profile, AllocError>
    requires { profile_faults (table_view table.now) ≡ [] }
    ensures { IfOk result (ReadsAs (table_view table.now)) }
{
    let Some(stack) = stack_of(table) else {
        unreachable!()
    };
    let entry = read_entry(alloc, table)?;
    let caches = elements_at(table, CACHE.name);
    let levels = read_levels(alloc, caches)?;
    let areas = elements_at(table, REGION.name);
    let regions = read_regions(alloc, stack, areas)?;
    let empty = Table::new(alloc);
    let cycles = read_costs(table_at(table, CYCLES.name, &empty));
    Ok(Profile {
        memory: value_of(table, &MEMORY),
        store: value_of(table, &STORE),
        splits: value_of(table, &SPLITS) as u32,
        steps: value_of(table, &STEPS) as u32,
        stack_top: value_of(table, &STACK_TOP) as u32,
        stack_size: value_of(table, &STACK_SIZE) as u32,
        gp: read_gp(table),
        entry,
        cycles,
        regions,
        levels,
    })
}

/// The table of a text.
fn read_table(alloc: Global, text: &[u8]) -> Result<Table, ConfigFault>
    ensures table { IfOk result (λ t. Means text.now (table_view t)) }
    ensures fault { IfErr result (Tells text.now) }
{
    match toml::table_from_slice(alloc, text) {
        Ok(table) => Ok(table),
        Err(error) => {
            if error.is_memory() {
                Err(ConfigFault::Memory)
            } else {
                Err(ConfigFault::Text)
            }
        }
    }
}

/// Answers the first fault of a table, where it has one.
fn check_table(alloc: Global, table: &Table) -> Result<(), ConfigFault>
    ensures ok { OnOk result (profile_faults (table_view table.now) ≡ []) }
    ensures fault { IfErr result (TellsOf (table_view table.now)) }
{
    match first_fault(alloc, table)? {
        None => Ok(()),
        Some(fault) => {
            let path = fault.path;
            match fault.kind {
                FaultKind::Key => Err(ConfigFault::Key { path }),
                FaultKind::Range => Err(ConfigFault::Range { path }),
            }
        }
    }
}

/// The profile that the text gives, or its first fault.
fn read_text(alloc: Global, text: &[u8]) -> Result<Profile, ConfigFault>
    ensures profile { IfOk result (IsProfileOf text.now) }
    ensures fault { IfErr result (Tells text.now) }
{
    let table = read_table(alloc, text)?;
    check_table(alloc, &table)?;
    Ok(read_values(alloc, &table)?)
}

/// The profile that the text gives, or the text's first fault.
///
/// `docs/FORMATS.md` lists the keys. A text that isn't UTF-8 or isn't TOML is a fault `Text`; an unknown
/// or a missing key is a fault `Key`, and a value of another kind or out of its limits a fault `Range`,
/// each with the key's printed path. Of several faults a `Key` is answered before a `Range`, and of one
/// kind the one with the least path, byte by byte. Want of memory is `Memory`.
pub fn read_profile(alloc: Global, text: &[u8]) -> Result<Profile, ConfigFault>
    ensures profile { IfOk result (IsProfileOf text.now) }
    ensures fault { IfErr result (Tells text.now) }
    // Where a profile is given, no fault is told: each kind comes exactly where the text has it.
    ensures clean { OnOk result ((e : ConfigFault) → Tells text.now e → e ≡ ConfigFault.Memory) }
    // The empty text gives the plain profile.
    ensures plain { text.now ≡ [] → MatchResult result HasDefaults (λ e. e ≡ ConfigFault.Memory) }
{
    read_text(alloc, text)
}
