//! Rings of nodes: which node follows each, and the way back.
ghost use Rattle.std.specs.Prelude.{◌≡◌, ◌≢◌, ◌<◌, ℕ, length, slice_index, IfOk};
ghost use Rattle.std.specs.List.{range_with_len};
ghost use Rattle.link_table.specs.Rings.{IsInserted, IsRemoved};

use std::alloc::{AllocError, Global};
use std::marker::Model;

/// Nodes in rings, seen as the list of the nodes that follow each.
#[derive(Debug, Drop)]
pub(crate) struct Rings {
    next: Vec<usize>,
    previous: Vec<usize>,
}

impl Model for Rings {
    ghost use Rattle.std.specs.Prelude.{ℕ, List};

    ghost Value = { List ℕ };

    ghost use Rattle.link_table.specs.Rings.{AreRings};

    ghost view = { λ r. r.next.items };

    ghost invariant = { λ r. AreRings r.next.items r.previous.items };
}

/// The numbers from 0 on.
fn numbers(alloc: Global, count: usize) -> Result<Vec<usize>, AllocError>
    ensures { IfOk result (λ numbers. numbers.items ≡ range_with_len 0 count) }
{
    let mut numbers = Vec::with_capacity(alloc, count)?;
    for number in 0..count {
        numbers.push(number)?;
    }
    Ok(numbers)
}

impl Rings {
    /// Nodes that are rings of their own.
    pub(crate) fn alone(alloc: Global, count: usize) -> Result<Rings, AllocError>
        ensures { IfOk result (λ rings. rings ≡ range_with_len 0 count) }
    {
        Ok(Rings {
            next: numbers(alloc, count)?,
            previous: numbers(alloc, count)?,
        })
    }

    /// The node that follows.
    pub(crate) fn next(&self, node: usize) -> usize
        requires { node < length self.now }
        ensures next { result ≡ slice_index self.now node }
        ensures within { result < length self.now }
    {
        self.next[node]
    }

    /// The node that this one follows.
    pub(crate) fn previous(&self, node: usize) -> usize
        requires { node < length self.now }
        ensures next { slice_index self.now result ≡ node }
        ensures within { result < length self.now }
        ensures only { (other : ℕ) → other < length self.now → slice_index self.now other ≡ node → other ≡ result }
    {
        self.previous[node]
    }

    /// Puts a node that is a ring of its own behind another one.
    pub(crate) fn insert(&mut self, node: usize, after: usize)
        requires node { node < length self.old }
        requires after { after < length self.old }
        requires apart { node ≢ after }
        requires alone { slice_index self.old node ≡ node }
        ensures { IsInserted self.old node after self.new }
    {
        let behind = self.next[after];
        self.next[after] = node;
        self.next[node] = behind;
        self.previous[behind] = node;
        self.previous[node] = after;
    }

    /// Takes a node out of its ring, so that it is one of its own.
    pub(crate) fn remove(&mut self, node: usize)
        requires { node < length self.old }
        ensures { IsRemoved self.old node self.new }
    {
        let before = self.previous[node];
        let behind = self.next[node];
        self.next[before] = behind;
        self.next[node] = node;
        self.previous[behind] = before;
        self.previous[node] = node;
    }
}
