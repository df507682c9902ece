//! The faults of a table: its unknown keys, and what stands at the known ones.

ghost use Rattle.std.specs.Prelude.{◌≡◌, ◌∷◌, [], OnOk, flat_map, map};
ghost use Rattle.toml.specs.View.{table_view};
ghost use Rattle.cache_config.specs.Faults.{fault_at, is_known, path_of, row_faults, table_faults, unknown_fault, unknown_faults};
ghost use Rattle.cache_config.specs.Firsts.{Notes};
ghost use Rattle.cache_config.specs.Rows.{row_of};

use crate::fault::{Fault, FaultKind, note};
use crate::keys::{Absent, Key};
use crate::paths::path_of;
use crate::values::{fits, member};
use std::alloc::{AllocError, Global};
use toml::Table;

/// Whether one of the rows has this name.
fn is_known(keys: &[Key], name: &str) -> bool
    ensures { result ≡ is_known (map row_of keys.now) name.now }
{
    for key in keys {
        if key.name == name {
            return true;
        }
    }
    false
}

/// Notes a fault at the key of this name.
pub(crate) fn note_at(
    alloc: Global,
    prefix: &str,
    name: &str,
    kind: FaultKind,
    first: &mut Option<Fault>,
) -> Result<(), AllocError>
    ensures { OnOk result (Notes first.old (fault_at kind (path_of prefix.now name.now) ∷ []) first.new) }
{
    let path = path_of(alloc, prefix, name)?;
    note(first, Fault { kind, path });
    Ok(())
}

/// Notes a key's name where no row has it.
fn note_name(
    alloc: Global,
    prefix: &str,
    keys: &[Key],
    name: &str,
    first: &mut Option<Fault>,
) -> Result<(), AllocError>
    ensures { OnOk result (Notes first.old (unknown_fault prefix.now (map row_of keys.now) name.now) first.new) }
{
    if is_known(keys, name) {
        return Ok(());
    }
    note_at(alloc, prefix, name, FaultKind::Key, first)
}

/// Notes what stands at a key that the table may have.
fn note_row(
    alloc: Global,
    prefix: &str,
    key: &Key,
    table: &Table,
    first: &mut Option<Fault>,
) -> Result<(), AllocError>
    ensures { OnOk result (Notes first.old (row_faults prefix.now (table_view table.now) (row_of key.now)) first.new) }
{
    match member(table, key.name) {
        Some(value) => {
            if fits(key.kind, value) {
                return Ok(());
            }
            note_at(alloc, prefix, key.name, FaultKind::Range, first)
        }
        None => match key.absent {
            Absent::Default(_) | Absent::Word(_) | Absent::Nothing => Ok(()),
            Absent::Required => note_at(alloc, prefix, key.name, FaultKind::Key, first),
        },
    }
}

/// Notes the unknown keys of a table.
#[tactic(auto, using(crate::proofs::FirstLemmas::appended))]
fn note_unknown(
    alloc: Global,
    prefix: &str,
    keys: &[Key],
    table: &Table,
    first: &mut Option<Fault>,
) -> Result<(), AllocError>
    ensures { let faults = unknown_faults prefix.now (map row_of keys.now) (table_view table.now) in
        OnOk result (Notes first.old faults first.new) }
{
    'names: for (name, _value) in table.iter() {
        note_name(alloc, prefix, keys, name.as_str(), first)?;
    }
    Ok(())
}

/// Notes what stands at the known keys of a table.
#[tactic(auto, using(crate::proofs::FirstLemmas::appended))]
fn note_rows(
    alloc: Global,
    prefix: &str,
    keys: &[Key],
    table: &Table,
    first: &mut Option<Fault>,
) -> Result<(), AllocError>
    ensures { let faults = flat_map (row_faults prefix.now (table_view table.now)) (map row_of keys.now) in
        OnOk result (Notes first.old faults first.new) }
{
    'rows: for key in keys {
        note_row(alloc, prefix, key, table, first)?;
    }
    Ok(())
}

/// Notes the faults of a table whose keys are these.
#[tactic(auto, using(crate::proofs::FirstLemmas::appended))]
pub(crate) fn note_table(
    alloc: Global,
    prefix: &str,
    keys: &[Key],
    table: &Table,
    first: &mut Option<Fault>,
) -> Result<(), AllocError>
    ensures { let faults = table_faults prefix.now (map row_of keys.now) (table_view table.now) in
        OnOk result (Notes first.old faults first.new) }
{
    note_unknown(alloc, prefix, keys, table, first)?;
    note_rows(alloc, prefix, keys, table, first)
}
