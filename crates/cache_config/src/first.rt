//! The first fault of a profile's text.

ghost use Rattle.std.specs.Prelude.{◌≡◌, None, IfOk, OnOk};
ghost use Rattle.toml.specs.Data.{no_members};
ghost use Rattle.toml.specs.View.{table_view};
ghost use Rattle.cache_config.specs.Faults.{profile_faults, stack_faults};
ghost use Rattle.cache_config.specs.Firsts.{Notes};

use crate::arrays::{Joint, note_array};
use crate::checks::{note_at, note_table};
use crate::fault::{Fault, FaultKind};
use crate::keys::{
    CACHE, CYCLES, REGION, STACK_SIZE, STACK_TOP, cache_tables, class_keys, profile_keys,
    region_tables,
};
use crate::spans::stack_of;
use crate::values::{elements_at, is_kept, table_at, value_of};
use std::alloc::{AllocError, Global};
use toml::Table;

/// Notes a stack whose top is less than its size, where both are within their limits.
fn note_stack(alloc: Global, table: &Table, first: &mut Option<Fault>) -> Result<(), AllocError>
    ensures { OnOk result (Notes first.old (stack_faults (table_view table.now)) first.new) }
{
    let top = value_of(table, &STACK_TOP);
    let size = value_of(table, &STACK_SIZE);
    let kept = is_kept(table, &STACK_TOP) && is_kept(table, &STACK_SIZE);
    if kept && top < size {
        note_at(alloc, "", STACK_TOP.name, FaultKind::Range, first)
    } else {
        Ok(())
    }
}

/// The first fault of a profile's text.
#[tactic(auto, using(crate::proofs::FirstLemmas::appended))]
pub(crate) fn first_fault(alloc: Global, table: &Table) -> Result<Option<Fault>, AllocError>
    ensures { IfOk result (Notes None (profile_faults (table_view table.now))) }
{
    let mut first = None;
    note_table(alloc, "", profile_keys(), table, &mut first)?;
    let empty = Table::new(alloc);
    let costs = table_at(table, CYCLES.name, &empty);
    note_table(alloc, "cycles.", class_keys(), costs, &mut first)?;
    note_stack(alloc, table, &mut first)?;
    let caches = elements_at(table, CACHE.name);
    note_array(
        alloc,
        cache_tables(),
        Joint::ShortChains,
        caches,
        &mut first,
    )?;
    let regions = elements_at(table, REGION.name);
    let apart = Joint::Apart {
        stack: stack_of(table),
    };
    note_array(alloc, region_tables(), apart, regions, &mut first)?;
    Ok(first)
}
