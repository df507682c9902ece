//! How states come to places: a slot is widened, and its place waits where its state grew.

ghost use Rattle.std.specs.Prelude.{◌≡◌, ℕ, ◌<◌, length, not, Some, Option, IfOk, OnOk, slice_set};
ghost use Rattle.domain_laws.specs.Options.{option_has, option_joined, option_leq, option_ok};
ghost use Rattle.domain_laws.specs.Shapes.{HaveShape, Shape};
ghost use Rattle.fixpoint.specs.Coming.{Comes};
ghost use Rattle.fixpoint.specs.Values.{value_of};

use crate::waiting::Waiting;
use domain_laws::Widen;
use std::alloc::AllocError;

/// Widens the state of a place, and tells whether it grew.
fn widen_slot<D: Widen>(
    values: &mut [Option<D>],
    place: u32,
    newer: &Option<D>,
) -> Result<bool, AllocError>
    requires inside { place < length values.old }
    requires shaped { HaveShape (option_has D.has) (value_of values.old place) newer.now }
    ensures value { OnOk result (values.new
        ≡ slice_set values.old place (option_joined D.widened (value_of values.old place) newer.now)) }
    ensures grew { IfOk result (λ grew. grew ≡ not (option_leq D.leq
        (option_joined D.widened (value_of values.old place) newer.now) (value_of values.old place))) }
{
    let grew = values[place as usize].widen(newer)?;
    Ok(grew)
}

/// A state comes to a place.
pub fn come_to<D: Widen>(
    values: &mut [Option<D>],
    waiting: &mut Waiting,
    place: u32,
    state: D,
) -> Result<(), AllocError>
    requires inside { place < length values.old }
    requires sized { length waiting.old ≡ length values.old }
    requires shaped { HaveShape (option_has D.has) (value_of values.old place) (Some state) }
    ensures { OnOk result (Comes D.leq D.widened place state values.old waiting.old values.new waiting.new) }
{
    if widen_slot(values, place, &Some(state))? {
        waiting.put(place);
    }
    Ok(())
}
