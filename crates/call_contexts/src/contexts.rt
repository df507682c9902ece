//! The contexts of a program, made breadth first, and the numbers of their places.

ghost use Rattle.std.specs.Prelude.{◌≡◌, ◌≤◌, ◌<◌, ◌++◌, ℕ, List, All, Contains, IfOk, OnOk, Some, length, map};
ghost use Rattle.std.specs.Prelude.{slice_get, sum_by};
ghost use Rattle.step_table.specs.Numbers.{number_of};
ghost use Rattle.step_table.specs.Table.{IsWithin};
ghost use Rattle.call_contexts.specs.Counting.{IsTotalOfFirst, ones_for, steps_of, steps_in};
ghost use Rattle.call_contexts.specs.Expansion.{AreBases, AreExpanded, AreReady, HasCalls, RiseCalls, SumsUp};
ghost use Rattle.call_contexts.specs.Expansion.{context_of};
ghost use Rattle.call_contexts.specs.Sizes.{most_contexts, most_places};
ghost use Rattle.call_contexts.specs.declared.calls.Called.{Called};

use crate::calls::Called;
use flow_net::Context;
use indexmap::IndexSet;
use std::alloc::{AllocError, Global};
use wcet_io::List;

/// Contexts, and for each the position of its function's graph.
#[derive(Drop)]
pub struct Expanded {
    pub contexts: IndexSet<Context>,
    pub functions: Vec<usize>,
}

/// The calls in a context.
fn calls_made<'a>(lists: &'a [List<Called>], functions: &[usize], context: usize) -> &'a [Called]
    requires within { All (λ function. function < length lists.now) functions.now }
    requires there { context < length functions.now }
    ensures { HasCalls lists.now functions.now context result.now }
{
    lists[functions[context]].as_slice()
}

/// Adds the contexts that the calls in a context make, which are all new.
fn add_made(
    parent: u32,
    calls: &[Called],
    contexts: &mut IndexSet<Context>,
    functions: &mut Vec<usize>,
) -> Result<(), AllocError>
    requires rising { RiseCalls calls.now }
    requires new { All (λ one. Contains contexts.old.keys (context_of parent one) → ⊥) calls.now }
    ensures contexts { OnOk result (contexts.new.keys ≡ contexts.old.keys ++ map (context_of parent) calls.now) }
    ensures functions { OnOk result (functions.new.items ≡ functions.old.items ++ steps_in calls.now) }
{
    for called in calls {
        contexts.insert(Context {
            parent,
            site: called.site,
            target: called.target,
        })?;
        functions.push(called.graph)?;
    }
    Ok(())
}

/// All contexts from an entry on, of which there are so many: each in turn makes those of its calls.
pub fn make_contexts(
    alloc: Global,
    entry: u32,
    lists: &[List<Called>],
    count: u32,
) -> Result<Expanded, AllocError>
    requires { AreReady entry lists.now count }
    ensures expanded { IfOk result (λ made. AreExpanded entry lists.now made.contexts.keys made.functions.items count) }
    ensures count { IfOk result (λ made. length made.functions.items ≡ count) }
    ensures sums { IfOk result (λ made. SumsUp lists.now made.functions.items count) }
{
    let mut contexts = IndexSet::new(alloc);
    let mut functions = Vec::new(alloc);
    contexts.insert(Context {
        parent: 0,
        site: 0,
        target: entry,
    })?;
    functions.push(0)?;
    for parent in 0..count {
        let calls = calls_made(lists, &functions, parent as usize);
        add_made(parent, calls, &mut contexts, &mut functions)?;
    }
    Ok(Expanded {
        contexts,
        functions,
    })
}

/// For each context the number of its first place, from 1 on, and behind them the number that a further one
/// would have.
pub fn bases_of(alloc: Global, units: &[u64], functions: &[usize]) -> Result<Vec<u32>, AllocError>
    requires within { All (λ function. function < length units.now) functions.now }
    requires few { sum_by (number_of units.now) functions.now ≤ most_places }
    ensures { IfOk result (λ bases. AreBases units.now functions.now bases.items) }
{
    let mut bases = Vec::new(alloc);
    let mut base = 1;
    bases.push(base)?;
    for function in functions {
        base += units[*function] as u32;
        bases.push(base)?;
    }
    Ok(bases)
}
