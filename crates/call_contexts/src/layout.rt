//! How the contexts of a program are laid out.

ghost use Rattle.std.specs.Prelude.{◌≡◌, ◌≤◌, ℕ, ◌-◌, length, slice_get, Some, IfErr, IfOk, OnOk};
ghost use Rattle.std.specs.Bool.{OnFalse, OnTrue};
ghost use Rattle.net_model.specs.Functions.{CanReturn};

use crate::contexts::{Expanded, bases_of, make_contexts};
use crate::fault::NetFault;
use crate::sizes::{Counted, Sizes, count_all};
use flow_net::Context;
use indexmap::IndexSet;
use std::alloc::{AllocError, Global};
use unit_graph::Graphs;

/// The most contexts and places of a net.
const MOST_CONTEXTS: u64 = 16_384;

const MOST_PLACES: u64 = 65_536;

/// The contexts of a program, with the graphs of their functions and the numbers of their places.
#[derive(Drop)]
pub struct Layout {
    /// The contexts, numbered from 0 in the order in which they are first seen.
    pub contexts: IndexSet<Context>,
    /// For each context the position of its function's graph among the graphs.
    pub functions: Vec<usize>,
    /// For each context the number of its first place, and behind them the number that a further context
    /// would begin with.
    pub bases: Vec<u32>,
}

ghost use Rattle.call_contexts.specs.Counted.{IsFit};
ghost use Rattle.call_contexts.specs.Expansion.{IsMade};
ghost use Rattle.call_contexts.specs.Layout.{IsLayout, IsMadeAs, HaveProgram, OfGraphs};
ghost use Rattle.call_contexts.specs.Programs.{AreTooMany, TellsFault};
ghost use Rattle.call_contexts.specs.Sizes.{AreSizes, most_contexts, most_places};

impl Layout {
    /// The number of the context that a call makes.
    pub fn number_of(&self, parent: u32, site: u32, callee: u32) -> u32
        requires few { length self.now.contexts.keys ≤ most_contexts }
        requires made { (number : ℕ) × IsMadeAs self.now.contexts.keys parent site callee number }
        ensures { IsMadeAs self.now.contexts.keys parent site callee result }
    {
        let context = Context {
            parent,
            site,
            target: callee,
        };
        prove!(self.contexts.len() as u64 <= MOST_CONTEXTS);
        match self.contexts.get_index_of(&context) {
            Some(number) => number as u32,
            None => unreachable!(),
        }
    }
}

/// The contexts from an entry on and their places, laid out.
fn lay_out(alloc: Global, entry: u32, counted: &Counted) -> Result<Layout, AllocError>
    requires { IsFit entry counted.now }
    ensures { IfOk result (IsMade entry counted.now.units.items counted.now.lists.items counted.now.sizes.contexts) }
{
    let count = counted.sizes.contexts as u32;
    let made = make_contexts(alloc, entry, &counted.lists, count)?;
    let bases = bases_of(alloc, &counted.units, &made.functions)?;
    let Expanded {
        contexts,
        functions,
    } = made;
    Ok(Layout {
        contexts,
        functions,
        bases,
    })
}

/// Whether there are more contexts or places than a net may have.
fn is_too_many(sizes: Sizes) -> bool
    ensures many { OnTrue result (AreTooMany sizes.contexts sizes.places) }
    ensures contexts { OnFalse result (sizes.contexts ≤ most_contexts) }
    ensures places { OnFalse result (sizes.places ≤ most_places) }
{
    sizes.contexts > MOST_CONTEXTS || sizes.places > MOST_PLACES
}

/// The contexts of a program and their places, laid out.
///
/// `NeverReturns` and `TooMany` come in this order; the numbers of contexts and places are counted before
/// any context is made. It takes a bisection of the graphs for each call of a unit, and a step for each
/// unit and each context.
pub fn layout_of(alloc: Global, graphs: &Graphs) -> Result<Layout, NetFault>
    requires { HaveProgram graphs.now }
    ensures layout { IfOk result (λ layout. OfGraphs graphs.now (λ image entry.
        IsLayout image entry graphs.now.graphs layout)) }
    ensures sizes { IfOk result (λ layout. OfGraphs graphs.now (λ image entry.
        (next : ℕ) → slice_get layout.bases.items (length layout.contexts.keys) ≡ Some next →
        AreSizes image entry (length layout.contexts.keys) (next - 1))) }
    ensures returns { OnOk result (OfGraphs graphs.now (λ image entry. CanReturn image entry)) }
    ensures bad { IfErr result (λ fault. OfGraphs graphs.now (λ image entry. TellsFault image entry fault)) }
{
    let functions = graphs.graphs.as_slice();
    if !functions[0].can_return {
        return Err(NetFault::NeverReturns);
    }
    let counted = count_all(alloc, functions)?;
    let sizes = counted.sizes;
    if is_too_many(sizes) {
        return Err(NetFault::TooMany {
            contexts: sizes.contexts,
            places: sizes.places,
        });
    }
    let layout = lay_out(alloc, functions[0].entry, &counted)?;
    Ok(layout)
}
