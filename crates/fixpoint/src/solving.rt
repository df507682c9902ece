//! The solver: takes the waiting places, the deepest in loops first, until none waits.

ghost use Rattle.std.specs.Prelude.{◌≡◌, ℕ, [], false, map, ◌+◌, ◌<◌, ◌≤◌, ◌^◌, All, Bool, true, length, slice_get, slice_set, Some, None, Option, IfOk, OnOk};
ghost use Rattle.domain_laws.specs.Options.{option_leq, option_ok};
ghost use Rattle.flow_net.specs.Numbers.{item_at, IsNumberOf, IsNumberOrZero};
ghost use Rattle.flow_net.specs.Scopes.{HasScopes};
ghost use Rattle.fixpoint.specs.Solved.{AreCeilings, IsClosed, IsKept, IsServed, IsSolvable, PassesFirst, Starts};
ghost use Rattle.fixpoint.specs.Values.{Passes, value_of, waits};
ghost use Rattle.net_tables.specs.Numbers.{numbers_of};
ghost use Rattle.net_tables.specs.Tables.{AreArcsOut};
ghost use Rattle.fixpoint.specs.Steps.{Along, Holds, IsIn, IsSpread};

use crate::going::come_to;
use crate::table::Table;
use crate::waiting::Waiting;
use domain_laws::{Lattice, Transfer, Widen};
use flow_net::{Net, NetArc};
use net_tables::{arcs_out, depths_of};
use std::alloc::{AllocError, Global};
use wcet_io::List;

/// The outcome of a place comes along an arc.
fn go_along<D: Widen, T: Transfer<D>>(
    arcs: &[NetArc],
    number: u32,
    transfer: &T,
    after: &D,
    values: &mut [Option<D>],
    waiting: &mut Waiting,
) -> Result<(), AllocError>
    requires number { IsNumberOf arcs.now number }
    requires served { T.serves_arc transfer.now number }
    requires shaped { D.has after.now (T.shape transfer.now) }
    requires slots { (place : ℕ) → option_ok (λ x. D.has x (T.shape transfer.now)) (value_of values.old place) }
    requires sized { length waiting.old ≡ length values.old }
    requires ends { All (λ arc. arc.to < length values.old) arcs.now }
    ensures { OnOk result (Along D.leq D.widened (T.moved transfer.now) arcs.now number after.now
        values.old waiting.old values.new waiting.new) }
{
    let to = arcs[number as usize - 1].to;
    if to != 0 {
        let next = transfer.along(number, after)?;
        come_to(values, waiting, to, next)?;
    }
    Ok(())
}

/// The outcome of a place comes along the arcs that leave it.
fn spread<D: Widen, T: Transfer<D>>(
    arcs: &[NetArc],
    numbers: &[u32],
    transfer: &T,
    after: &D,
    values: &mut [Option<D>],
    waiting: &mut Waiting,
) -> Result<(), AllocError>
    requires numbers { (number : ℕ) → IsIn number numbers.now →
        IsNumberOf arcs.now number × T.serves_arc transfer.now number }
    requires shaped { D.has after.now (T.shape transfer.now) }
    requires slots { (place : ℕ) → option_ok (λ x. D.has x (T.shape transfer.now)) (value_of values.old place) }
    requires sized { length waiting.old ≡ length values.old }
    requires ends { All (λ arc. arc.to < length values.old) arcs.now }
    ensures { OnOk result (IsSpread (λ x. D.has x (T.shape transfer.now)) D.leq D.widened D.rank D.height
        (T.moved transfer.now)
        arcs.now after.now numbers.now [] values.old waiting.old values.new waiting.new) }
{
    for number in numbers {
        go_along(arcs, *number, transfer, after, values, waiting)?;
    }
    Ok(())
}

/// The state after a place that has one before it.
fn state_after<D: Widen, T: Transfer<D>>(
    transfer: &T,
    place: u32,
    values: &[Option<D>],
) -> Result<D, AllocError>
    requires served { T.serves_place transfer.now place }
    requires inside { place < length values.now }
    requires there { value_of values.now place ≡ None → ⊥ }
    requires slots { (place : ℕ) → option_ok (λ x. D.has x (T.shape transfer.now)) (value_of values.now place) }
    ensures { IfOk result (λ after. (x : D) → value_of values.now place ≡ Some x →
        after ≡ T.stepped transfer.now place x) }
{
    match &values[place as usize] {
        Some(before) => transfer.step(place, before),
        None => unreachable!(),
    }
}

/// A slot for each number up to the greatest one, none of which has a state.
fn blank<D: Lattice>(alloc: Global, slots: usize) -> Result<Vec<Option<D>>, AllocError>
    ensures size { IfOk result (λ values. length values.items ≡ slots) }
    ensures none { IfOk result (λ values. (place : ℕ) → value_of values.items place ≡ None) }
{
    let mut values = Vec::with_capacity(alloc, slots)?;
    for _slot in 0..slots {
        values.push(None)?;
    }
    Ok(values)
}

/// Takes places until none waits.
fn run<D: Widen, T: Transfer<D>>(
    arcs: &[NetArc],
    out: &[List<u32>],
    transfer: &T,
    values: &mut [Option<D>],
    waiting: &mut Waiting,
) -> Result<(), AllocError>
    requires going { (start : D) × (D.has start (T.shape transfer.now))
        × Holds (λ x. D.has x (T.shape transfer.now)) D.leq D.widened (T.stepped transfer.now) (T.moved transfer.now)
        arcs.now (length values.old) start values.old waiting.old }
    requires out { (place : ℕ) → place < length values.old →
        slice_get out.now place ≡ Some (numbers_of place 1 (map (λ arc. arc.from) arcs.now)) }
    requires sized { length out.now ≡ length values.old }
    requires ends { All (λ arc. arc.to < length values.old) arcs.now }
    requires starts { All (λ arc. arc.from < length values.old) arcs.now }
    requires places { (place : ℕ) → 0 < place → place < length values.old → T.serves_place transfer.now place }
    requires numbers { (number : ℕ) → IsNumberOf arcs.now number → T.serves_arc transfer.now number }
    ensures size { OnOk result (length values.new ≡ length values.old) }
    ensures none { OnOk result ((place : ℕ) → waits waiting.new place ≡ false) }
    ensures kept { OnOk result ((start : D) → D.has start (T.shape transfer.now)
        → Holds (λ x. D.has x (T.shape transfer.now)) D.leq D.widened (T.stepped transfer.now) (T.moved transfer.now)
        arcs.now (length values.old) start values.old waiting.old
        → Holds (λ x. D.has x (T.shape transfer.now)) D.leq D.widened (T.stepped transfer.now) (T.moved transfer.now)
        arcs.now (length values.old) start values.new waiting.new) }
{
    while let Some(place) = waiting.take() {
        let after = state_after(transfer, place, values)?;
        let numbers = out[place as usize].as_slice();
        spread(arcs, numbers, transfer, &after, values, waiting)?;
    }
    Ok(())
}

/// Places that lie deeper than this wait in one list.
const DEEPEST: u32 = 65_535;

/// The depth of each place for the queue, with 0 for the number 0, and how many lists they take.
fn queue_depths(alloc: Global, net: &Net) -> Result<(Vec<u32>, u32), AllocError>
    requires scopes { HasScopes net.now }
    ensures size { IfOk result (λ r. length r.0.items ≡ length net.now.places + 1) }
    ensures low { IfOk result (λ r. All (λ depth. depth < r.1) r.0.items) }
    ensures some { IfOk result (λ r. 0 < r.1) }
{
    let mut depths = Vec::with_capacity(alloc, net.places.as_slice().len() + 1)?;
    depths.push(0)?;
    for depth in &depths_of(alloc, net)? {
        depths.push((*depth).min(DEEPEST))?;
    }
    Ok((depths, DEEPEST + 1))
}

/// The start comes to the first place of the net, and the places settle.
fn fill<D: Widen, T: Transfer<D>>(
    net: &Net,
    out: &[List<u32>],
    transfer: &T,
    start: D,
    values: &mut [Option<D>],
    waiting: &mut Waiting,
) -> Result<(), AllocError>
    requires net { IsSolvable net.now }
    requires served { IsServed net.now (T.serves_place transfer.now) (T.serves_arc transfer.now) }
    requires shaped { D.has start (T.shape transfer.now) }
    requires out { AreArcsOut net.now out.now }
    requires slots { length values.old ≡ length net.now.places + 1 }
    requires blank { (place : ℕ) → value_of values.old place ≡ None }
    requires sized { length waiting.old ≡ length values.old }
    requires unmarked { (place : ℕ) → waits waiting.old place ≡ false }
    ensures size { OnOk result (length values.new ≡ length values.old) }
    ensures none { OnOk result ((place : ℕ) → waits waiting.new place ≡ false) }
    ensures holds { OnOk result (Holds (λ x. D.has x (T.shape transfer.now)) D.leq D.widened (T.stepped transfer.now)
        (T.moved transfer.now) net.now.arcs (length net.now.places + 1) start values.new waiting.new) }
{
    let arcs = net.arcs.as_slice();
    come_to(values, waiting, arcs[0].to, start)?;
    run(arcs, out, transfer, values, waiting)?;
    Ok(())
}

/// The states before the places of a net: a table that is closed along its arcs and no higher than it must be.
///
/// It takes memory for the table, the index of leaving arcs and the queue, which are made once; after that memory is taken by
/// the calls of the domain and the transfer alone. Each turn takes a place, steps over it once and follows each of its arcs
/// once. Loops settle from the inside outward, since the deepest places come first.
pub fn solve<D: Widen, T: Transfer<D>>(
    alloc: Global,
    net: &Net,
    start: &D,
    transfer: &T,
) -> Result<Table<D>, AllocError>
    requires net { IsSolvable net.now }
    requires served { IsServed net.now (T.serves_place transfer.now) (T.serves_arc transfer.now) }
    requires shaped { D.has start.now (T.shape transfer.now) }
    ensures size { IfOk result (λ t. length t ≡ length net.now.places + 1) }
    // Each state has the transfer's shape, and the start is under that of the first place.
    ensures shape { IfOk result (λ t. (place : ℕ) (x : D) → value_of t place ≡ Some x →
        D.has x (T.shape transfer.now)) }
    ensures starts { IfOk result (λ t. Starts D.leq net.now.arcs start.now t) }
    ensures closed { IfOk result (λ t. IsClosed D.leq (T.stepped transfer.now) (T.moved transfer.now) net.now.arcs t) }
    // It is under all that the outcomes and the widening stay under.
    ensures tests { IfOk result (λ t. (test : ℕ → D → Bool)
        → IsKept (λ x. D.has x (T.shape transfer.now)) D.widened (T.stepped transfer.now)
        (T.moved transfer.now) net.now.arcs test
        → PassesFirst net.now.arcs start.now test → Passes test t) }
    ensures ceilings { IfOk result (λ t. (ceiling : ℕ → D)
        → AreCeilings (λ x. D.has x (T.shape transfer.now)) D.leq D.widened (T.stepped transfer.now)
        (T.moved transfer.now)
        net.now.arcs start.now ceiling
        → (place : ℕ) (x : D) → value_of t place ≡ Some x → D.leq x (ceiling place) ≡ true) }
{
    let out = arcs_out(alloc, net)?;
    let (depths, lists) = queue_depths(alloc, net)?;
    let mut waiting = Waiting::new(alloc, depths, lists)?;
    let mut values = blank(alloc, net.places.as_slice().len() + 1)?;
    fill(
        net,
        &out,
        transfer,
        start.copy()?,
        &mut values,
        &mut waiting,
    )?;
    Ok(Table::of(values))
}
