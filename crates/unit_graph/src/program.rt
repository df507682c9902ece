//! The functions of a program and the addresses that they reach.

ghost use Rattle.std.specs.Prelude.{◌≡◌, ℕ, All, Contains, IfOk, OnOk, map};
ghost use Rattle.elf_mips.specs.declared.image.Image.{Image};
ghost use Rattle.net_model.specs.Targets.{unit_at};
ghost use Rattle.unit_graph.specs.Firsts.{IsFirstFaulty};
ghost use Rattle.unit_graph.specs.Graphs.{AreJust};
ghost use Rattle.unit_graph.specs.Rows.{AreRows, HasRow, IsRow, OfSharedImage, Rise};
ghost use Rattle.unit_graph.specs.Search.{Gains};

use crate::first::{Offence, first_fault};
use crate::flow::{Reach, led_from};
use crate::inference::returning_of;
use crate::rows::Row;
use crate::search::{add, add_all, items_of};
use crate::span::{row_at, rows_of};
use code_units::targets_of;
use elf_mips::Image;
use net_model::Content;
use std::alloc::{AllocError, Global};
use std::collections::BTreeSet;

/// What a program's code reaches.
#[derive(Debug, Drop)]
pub struct Program {
    /// The units to which the code may lead, by rising addresses.
    pub rows: Vec<Row>,
    /// Those of their addresses from which a function that begins there can return.
    pub returning: BTreeSet<u32>,
    /// The addresses that the functions reach, rising.
    pub code: Vec<u32>,
    /// The entries of the functions, rising.
    pub functions: Vec<u32>,
}

ghost use Rattle.unit_graph.specs.Program.{CalledFrom, HasImage, IsAnyFunction, IsProgram, OfImage, RowCalls};

/// Adds what the unit at an address calls.
fn add_calls(rows: &[Row], address: u32, calls: &mut BTreeSet<u32>) -> Result<(), AllocError>
    requires { Rise rows.now }
    ensures { OnOk result (Gains (RowCalls rows.now address) calls.old.keys calls.new.keys) }
{
    let Some(row) = row_at(rows, address) else {
        return Ok(());
    };
    add_all(row.calls.as_slice(), calls)?;
    Ok(())
}

/// Adds what the units at these addresses call.
pub fn add_all_calls(
    rows: &[Row],
    code: &[u32],
    calls: &mut BTreeSet<u32>,
) -> Result<(), AllocError>
    requires { Rise rows.now }
    ensures { OnOk result (Gains (CalledFrom rows.now code.now) calls.old.keys calls.new.keys) }
{
    for address in code {
        add_calls(rows, *address, calls)?;
    }
    Ok(())
}

/// The entry, and what the units at these addresses call.
fn functions_of(
    alloc: Global,
    rows: &[Row],
    code: &[u32],
    entry: u32,
) -> Result<Vec<u32>, AllocError>
    requires { Rise rows.now }
    ensures { IfOk result (λ functions. AreJust (IsAnyFunction rows.now code.now entry) functions.items) }
{
    let mut functions = BTreeSet::new(alloc);
    add(entry, &mut functions)?;
    add_all_calls(rows, code, &mut functions)?;
    items_of(alloc, &functions)
}

/// What a program's code reaches from its entry.
///
/// It takes time in proportion to the addresses to which the code may lead, the ways between them and the
/// targets that are recorded, times their logarithm.
pub fn explore(alloc: Global, image: &Image, entry: u32) -> Result<Program, AllocError>
    ensures { IfOk result (IsProgram image.now entry) }
{
    let targets = targets_of(alloc, image)?;
    let rows = rows_of(alloc, image, targets.as_slice(), entry)?;
    let returning = returning_of(alloc, &rows)?;
    let led = led_from(alloc, &rows, Reach::Program, &returning, entry)?;
    let code = items_of(alloc, &led)?;
    let functions = functions_of(alloc, &rows, &code, entry)?;
    Ok(Program {
        rows,
        returning,
        code,
        functions,
    })
}

/// What stands at an address that has a row.
fn content_of(rows: &[Row], address: u32) -> Content
    requires rising { Rise rows.now }
    requires there { HasRow rows.now address }
    ensures { OfSharedImage rows.now (λ image. result ≡ unit_at image address) }
{
    let Some(row) = row_at(rows, address) else {
        unreachable!();
    };
    row.content
}

/// What stands at these addresses.
fn contents_of(alloc: Global, rows: &[Row], addresses: &[u32]) -> Result<Vec<Content>, AllocError>
    requires rising { Rise rows.now }
    requires there { All (HasRow rows.now) addresses.now }
    ensures { IfOk result (λ contents.
        OfSharedImage rows.now (λ image. contents.items ≡ map (unit_at image) addresses.now)) }
{
    let mut contents = Vec::new(alloc);
    for address in addresses {
        contents.push(content_of(rows, *address))?;
    }
    Ok(contents)
}

/// The first fault of what stands at the addresses that the functions reach.
pub fn first_faulty(alloc: Global, program: &Program) -> Result<Option<Offence>, AllocError>
    requires { HasImage program.now }
    ensures { IfOk result (λ first. OfImage program.now (λ image entry. IsFirstFaulty image entry first)) }
{
    let contents = contents_of(alloc, &program.rows, &program.code)?;
    Ok(first_fault(&contents))
}
