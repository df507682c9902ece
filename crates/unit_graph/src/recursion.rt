//! The first function that calls itself.

ghost use Rattle.std.specs.Prelude.{◌≡◌, ◌<◌, ℕ, All, AllPairs, IfOk};
ghost use Rattle.elf_mips.specs.declared.image.Image.{Image};
ghost use Rattle.step_table.specs.Table.{IsWithin};
ghost use Rattle.unit_graph.specs.Flow.{Leads};
ghost use Rattle.unit_graph.specs.Graphs.{AreJust};
ghost use Rattle.unit_graph.specs.Program.{CalledIn, HasImage, IsProgram, OfImage};
ghost use Rattle.unit_graph.specs.Recursion.{IsCallTable, IsFirstRecursive};
ghost use Rattle.unit_graph.specs.Rows.{IsRow, Rise, ShareImage};

use crate::flow::{Reach, led_from};
use crate::program::{Program, add_all_calls};
use crate::rows::Row;
use crate::search::items_of;
use std::alloc::{AllocError, Global};
use std::collections::BTreeSet;
use step_table::{first_cyclic, steps_to};
use wcet_io::List;

/// What the units of a function call, rising.
fn calls_in(
    alloc: Global,
    rows: &[Row],
    returning: &BTreeSet<u32>,
    function: u32,
) -> Result<Vec<u32>, AllocError>
    requires rising { Rise rows.now }
    requires each { ShareImage rows.now }
    ensures { IfOk result (λ calls. AreJust (CalledIn rows.now returning.now.keys function) calls.items) }
{
    let led = led_from(alloc, rows, Reach::Function, returning, function)?;
    let code = items_of(alloc, &led)?;
    let mut calls = BTreeSet::new(alloc);
    add_all_calls(rows, &code, &mut calls)?;
    items_of(alloc, &calls)
}

/// For each function the positions of those that it calls.
fn call_table(
    alloc: Global,
    rows: &[Row],
    returning: &BTreeSet<u32>,
    functions: &[u32],
) -> Result<Vec<List<usize>>, AllocError>
    requires rising { Rise rows.now }
    requires each { ShareImage rows.now }
    requires ordered { AllPairs (λ a b. a < b) functions.now }
    ensures { IfOk result (λ table. IsCallTable rows.now returning.now.keys functions.now functions.now table.items) }
{
    let mut table = Vec::new(alloc);
    for function in functions {
        let calls = calls_in(alloc, rows, returning, *function)?;
        table.push(steps_to(alloc, functions, &calls)?)?;
    }
    Ok(table)
}

/// The least entry of a function that calls itself, directly or through others.
///
/// Each function is looked at once more, and the calls are searched in time in proportion to their number.
pub fn first_recursive(alloc: Global, program: &Program) -> Result<Option<u32>, AllocError>
    requires { HasImage program.now }
    ensures { IfOk result (λ first. OfImage program.now (λ image entry. IsFirstRecursive image entry first)) }
{
    let functions = program.functions.as_slice();
    let table = call_table(alloc, &program.rows, &program.returning, functions)?;
    match first_cyclic(alloc, &table)? {
        Some(position) => Ok(Some(functions[position])),
        None => Ok(None),
    }
}
