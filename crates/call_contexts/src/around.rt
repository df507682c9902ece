//! Which loops lie round the units of a function, by the positions of the loops.

ghost use Rattle.std.specs.Prelude.{◌≡◌, ℕ, ◌+◌, ◌<◌, AllPairs, Contains, Some, length, IfOk, IfSome};
ghost use Rattle.std.specs.Bool.{OnFalse, OnTrue};
ghost use Rattle.call_contexts.specs.Around.{AreNearest, AreOfFunction, AreOwn, AreRising, IsInner};
ghost use Rattle.call_contexts.specs.Programs.{AreOfProgram};

use crate::index::position_of;
use loop_nest::{Loop, Nests};
use std::alloc::{AllocError, Global};
use unit_graph::{Graphs, Unit};

/// Whether a loop holds an address, by bisection of its body.
fn holds(one: &Loop, address: u32) -> bool
    requires { AllPairs (λ a b. a < b) one.now.body }
    ensures held { OnTrue result (Contains one.now.body address) }
    ensures free { OnFalse result (Contains one.now.body address → ⊥) }
{
    one.body.as_slice().binary_search(&address).is_ok()
}

/// The inner one of two loops that hold a unit: another one, if there is one, and that of a position.
fn inner_of(loops: &[Loop], other: Option<usize>, position: usize) -> usize
    requires rising { AreRising loops.now }
    requires other { IfSome other (λ at. at < length loops.now) }
    requires position { position < length loops.now }
    ensures { IsInner loops.now other position result }
{
    let Some(outer) = other else {
        return position;
    };
    if holds(&loops[outer], loops[position].header) {
        return position;
    }
    outer
}

/// Notes the loop at a position at the units that it holds, its header apart, where it is the innermost
/// one so far.
fn note_body(units: &[Unit], loops: &[Loop], position: usize, around: &mut [Option<usize>])
    requires function { AreOfFunction units.now loops.now }
    requires position { position < length loops.now }
    requires before { AreNearest units.now loops.now position around.old }
    ensures { AreNearest units.now loops.now (position + 1) around.new }
{
    let one = &loops[position];
    let body = one.body.as_slice();
    for address in body {
        if *address == one.header {
            continue;
        }
        let place = position_of(units, *address);
        around[place] = Some(inner_of(loops, around[place], position));
    }
}

/// For each unit the innermost loop that holds it and whose header is another unit.
///
/// Each unit is looked up once for each loop that holds it, in time in proportion to the logarithm of the
/// units.
fn around_of(
    alloc: Global,
    units: &[Unit],
    loops: &[Loop],
) -> Result<Vec<Option<usize>>, AllocError>
    requires { AreOfFunction units.now loops.now }
    ensures { IfOk result (λ around. AreNearest units.now loops.now (length loops.now) around.items) }
{
    let mut around = vec![in alloc; None; units.len()]?;
    for position in 0..loops.len() {
        note_body(units, loops, position, &mut around);
    }
    Ok(around)
}

/// Makes the own loops of the units from the loops round them: a header's is the one that it heads.
fn own_headers(units: &[Unit], loops: &[Loop], numbers: &mut [Option<usize>])
    requires function { AreOfFunction units.now loops.now }
    requires around { AreNearest units.now loops.now (length loops.now) numbers.old }
    ensures { AreOwn units.now loops.now (length loops.now) numbers.new }
{
    for position in 0..loops.len() {
        let place = position_of(units, loops[position].header);
        numbers[place] = Some(position);
    }
}

/// The loops round the units of a function, for each unit by its position.
#[derive(Debug, Drop)]
pub struct Rounds {
    /// The innermost loop that holds the unit and that another unit heads.
    pub around: Vec<Option<usize>>,
    /// The loop that the unit heads, else the innermost one that holds it.
    pub own: Vec<Option<usize>>,
}

ghost use Rattle.call_contexts.specs.Instances.{AreRounds};

/// The loops round the units of a function.
fn rounds_of(alloc: Global, units: &[Unit], loops: &[Loop]) -> Result<Rounds, AllocError>
    requires { AreOfFunction units.now loops.now }
    ensures around { IfOk result (λ rounds. AreNearest units.now loops.now (length loops.now) rounds.around.items) }
    ensures own { IfOk result (λ rounds. AreOwn units.now loops.now (length loops.now) rounds.own.items) }
{
    let around = around_of(alloc, units, loops)?;
    let mut own = Vec::from_slice(alloc, around.as_slice())?;
    own_headers(units, loops, &mut own);
    Ok(Rounds { around, own })
}

/// For each function the loops round its units.
pub fn all_rounds(alloc: Global, graphs: &Graphs, nests: &Nests) -> Result<Vec<Rounds>, AllocError>
    requires { AreOfProgram graphs.now nests.now }
    ensures { IfOk result (λ rounds.
        AreRounds graphs.now.graphs nests.now.nests (length graphs.now.graphs) rounds.items) }
{
    let graphs = graphs.graphs.as_slice();
    let nests = nests.nests.as_slice();
    let mut rounds = Vec::new(alloc);
    for position in 0..graphs.len() {
        let units = graphs[position].units.as_slice();
        let loops = nests[position].as_slice();
        rounds.push(rounds_of(alloc, units, loops)?)?;
    }
    Ok(rounds)
}
