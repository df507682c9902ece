//! The caches of a machine, and an access that goes through them.

ghost use Rattle.std.specs.Prelude.{◌≡◌, ◌*◌, ◌≤◌, length, map, take, IfOk};
ghost use Rattle.lru_concrete.specs.Chains.{AreOfLevels, Hierarchy, chain, empty_of, goes, held_of, latencies, levels_of, visit_of};
ghost use Rattle.lru_concrete.specs.Limits.{most_latency, most_levels};
ghost use Rattle.lru_concrete.specs.Walks.{IsVisit};

use crate::cache::Cache;
use crate::level::{Level, Side};
use crate::visit::Visit;
use std::alloc::{AllocError, Global};
use std::marker::Model;
use wcet_io::List;

/// The caches of a machine in the order in which accesses go through them, and the memory behind them.
#[derive(Debug, Drop)]
pub struct Caches {
    levels: Vec<Level>,
    caches: Vec<Cache>,
    /// The latency of memory, in cycles.
    memory: u64,
}

impl Model for Caches {
    ghost use Rattle.lru_concrete.specs.Chains.{Hierarchy, held_of};

    ghost Value = { Hierarchy };

    ghost use Rattle.lru_concrete.specs.Walks.{KeepsLevels};

    ghost view = { λ c. record { caches = held_of c.levels.items c.caches.items; memory = c.memory } };

    ghost invariant = { λ c. KeepsLevels c.levels.items c.caches.items c.memory };
}

/// Lets an access visit the caches that serve its side, up to the first one that holds its block.
///
/// The cycles are the latencies of the visited caches, without memory's.
fn visit(levels: &[Level], caches: &mut [Cache], side: Side, address: u32) -> Visit
    requires levels { AreOfLevels levels.now caches.old }
    requires few { length levels.now ≤ most_levels }
    ensures visit { IsVisit side levels.now (goes side address (held_of levels.now caches.old)).visit result }
    ensures after { held_of levels.now caches.new ≡ (goes side address (held_of levels.now caches.old)).after }
    ensures levels { AreOfLevels levels.now caches.new }
{
    let mut visit = Visit {
        caches: 0,
        hit: false,
        cycles: 0,
    };
    for i in 0..levels.len() {
        let level = levels[i];
        if level.serves.serves(side) {
            visit.caches += 1;
            visit.cycles += level.latency;
            let cache = &mut caches[i];
            if cache.touch(address / level.shape.line) {
                visit.hit = true;
                return visit;
            }
        }
    }
    visit
}

impl Caches {
    /// Caches of these levels, as many as there are levels and each of its level's size.
    pub fn new(
        alloc: Global,
        levels: List<Level>,
        caches: List<Cache>,
        memory: u64,
    ) -> Result<Caches, AllocError>
        requires levels { AreOfLevels levels caches }
        requires few { length levels ≤ most_levels }
        requires memory { memory ≤ most_latency }
        ensures { IfOk result (λ c. c ≡ record { caches = held_of levels caches; memory = memory }) }
    {
        let _ = alloc;
        Ok(Caches {
            levels: levels.into_vec(),
            caches: caches.into_vec(),
            memory,
        })
    }

    /// Caches of these levels that hold no blocks.
    pub fn empty(alloc: Global, levels: &[Level], memory: u64) -> Result<Caches, AllocError>
        requires few { length levels.now ≤ most_levels }
        requires memory { memory ≤ most_latency }
        ensures empty { IfOk result (λ c. c ≡ record { caches = map empty_of levels.now; memory = memory }) }
        ensures levels { IfOk result (λ c. levels_of c.caches ≡ levels.now) }
    {
        let mut caches = Vec::new(alloc);
        for level in levels {
            caches.push(Cache::empty(alloc, level.shape)?)?;
        }
        let levels = Vec::from_slice(alloc, levels)?;
        Caches::new(
            alloc,
            List::from_vec(levels),
            List::from_vec(caches),
            memory,
        )
    }

    /// The levels of the caches, in their order.
    pub fn levels(&self) -> &[Level]
        ensures levels { result.now ≡ levels_of self.now.caches }
        ensures few { length result.now ≤ most_levels }
    {
        &self.levels
    }

    /// The latency of the memory behind the caches, in cycles.
    pub fn memory(&self) -> u64
        ensures memory { result ≡ self.now.memory }
        ensures low { result ≤ most_latency }
    {
        self.memory
    }

    /// Lets an access go through the caches that serve its side, up to the first one that holds its block, else to
    /// memory, and tells what it visited. Each visited cache is touched.
    pub fn access(&mut self, side: Side, address: u32) -> Visit
        ensures visit { result
            ≡ visit_of side (levels_of self.old.caches) self.old.memory (goes side address self.old.caches).visit }
        ensures after { self.new ≡ record self.old { caches = (goes side address self.old.caches).after } }
        ensures low { result.cycles ≤ 7 * most_latency }
    {
        let mut visit = visit(&self.levels, &mut self.caches, side, address);
        if !visit.hit {
            visit.cycles += self.memory;
        }
        visit
    }
}
