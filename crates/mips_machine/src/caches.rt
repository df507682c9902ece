//! The machine's caches, and how often each of them was visited.

ghost use Rattle.std.specs.Prelude.{◌≡◌, ℕ, ◌+◌, ◌-◌, ◌*◌, ◌<◌, ◌≤◌, ◌^◌, ◌∷◌, [], IfOk, Some, length, slice_index_or};
ghost use Rattle.mips_decode.specs.declared.instr.Instr.{Instr};
ghost use Rattle.mips_decode.specs.Accesses.{accesses_at, data_access};
ghost use Rattle.lru_concrete.specs.Limits.{most_latency};
ghost use Rattle.mips_machine.specs.Machine.{unvisited};
ghost use Rattle.mips_machine.specs.Passing.{access_costs, no_visits, passed, passed_all, visit_cost};
ghost use Rattle.mips_machine.specs.Tallies.{AreAtMost, counted, marked};

use lru_concrete::{Caches, Level, Side, Visit};
use mips_decode::Touched;
use std::alloc::{AllocError, Global};
use std::marker::Model;

/// How often accesses that visited a cache found their block there, and how often they didn't.
#[derive(Clone, Copy, Debug, PartialEq, Eq)]
pub struct Tally {
    pub hits: u64,
    pub misses: u64,
}

/// The machine's caches with the tally of each of them.
#[derive(Debug, Drop)]
pub struct TalliedCaches {
    caches: Caches,
    /// The latency of memory, kept at hand for machines without caches, whose accesses all go there.
    memory: u64,
    tallies: Vec<Tally>,
}

impl Model for TalliedCaches {
    ghost use Rattle.std.specs.Prelude.{◌≡◌, length};
    ghost use Rattle.mips_machine.specs.Passing.{Tallied};

    ghost Value = { Tallied };

    ghost view = { λ c. record { held = c.caches.caches; memory = c.caches.memory; tallies = c.tallies.items } };

    ghost use Rattle.mips_machine.specs.Tallies.{IsKept};

    ghost invariant = { λ c. IsKept c.caches c.memory c.tallies.items };
}

/// A tally with one visit more.
fn counted(tally: Tally, hit: bool) -> Tally
    requires { tally.hits + tally.misses < 2 ^ 64 - 1 }
    ensures { result ≡ counted hit tally }
{
    if hit {
        Tally {
            hits: tally.hits + 1,
            ..tally
        }
    } else {
        Tally {
            misses: tally.misses + 1,
            ..tally
        }
    }
}

/// Counts what an access visited: a miss at each cache but the last one, and there a hit if it held the block.
fn count_visit(tallies: &mut [Tally], levels: &[Level], side: Side, visit: &Visit)
    requires same { length tallies.old ≡ length levels.now }
    requires low { AreAtMost (2 ^ 64 - 2) tallies.old }
    ensures { tallies.new ≡ marked side visit.now.caches visit.now.hit levels.now tallies.old }
{
    let mut left = visit.caches;
    for i in 0..levels.len() {
        if left == 0 {
            return;
        }
        if levels[i].serves.serves(side) {
            left -= 1;
            tallies[i] = counted(tallies[i], left == 0 && visit.hit);
        }
    }
}

impl TalliedCaches {
    /// Caches that weren't visited yet.
    pub fn new(alloc: Global, caches: Caches) -> Result<TalliedCaches, AllocError>
        ensures { IfOk result (λ c. c ≡ unvisited caches) }
    {
        let none = Tally { hits: 0, misses: 0 };
        let tallies = vec![in alloc; none; caches.levels().len()]?;
        let memory = caches.memory();
        Ok(TalliedCaches {
            caches,
            memory,
            tallies,
        })
    }

    /// How many caches there are.
    pub fn count(&self) -> u32
        ensures { result ≡ length self.now.held }
    {
        self.caches.levels().len() as u32
    }

    /// The tally of a cache, counted from 0.
    pub fn tally(&self, cache: u32) -> Tally
        requires { cache < length self.now.held }
        ensures { result ≡ slice_index_or self.now.tallies cache no_visits }
    {
        self.tallies[cache as usize]
    }

    /// Lets an access go through the caches, and gives its cycles. Where there is no cache it goes to memory.
    fn access(&mut self, side: Side, address: u32) -> u64
        requires low { AreAtMost (2 ^ 64 - 2) self.old.tallies }
        ensures cycles { result ≡ visit_cost (Some side) address self.old }
        ensures after { self.new ≡ passed (Some side) address self.old }
        ensures small { result ≤ 7 * most_latency }
        ensures counts { (most : ℕ) → AreAtMost most self.old.tallies → AreAtMost (most + 1) self.new.tallies }
    {
        if self.tallies.is_empty() {
            return self.memory;
        }
        self.visit(side, address)
    }

    /// Lets an access visit the caches, and counts what it visits.
    fn visit(&mut self, side: Side, address: u32) -> u64
        requires low { AreAtMost (2 ^ 64 - 2) self.old.tallies }
        ensures cycles { result ≡ visit_cost (Some side) address self.old }
        ensures after { self.new ≡ passed (Some side) address self.old }
        ensures small { result ≤ 7 * most_latency }
        ensures counts { (most : ℕ) → AreAtMost most self.old.tallies → AreAtMost (most + 1) self.new.tallies }
    {
        let visit = self.caches.access(side, address);
        count_visit(&mut self.tallies, self.caches.levels(), side, &visit);
        visit.cycles
    }

    /// The same of a unit's load or store; a store goes through no cache.
    fn data(&mut self, access: &Option<Touched>) -> u64
        requires low { AreAtMost (2 ^ 64 - 2) self.old.tallies }
        ensures cycles { (site : ℕ) → result ≡ access_costs (data_access site access.now) self.old }
        ensures after { (site : ℕ) → self.new ≡ passed_all (data_access site access.now) self.old }
        ensures small { result ≤ 7 * most_latency }
        ensures counts { (most : ℕ) → AreAtMost most self.old.tallies → AreAtMost (most + 1) self.new.tallies }
    {
        match access {
            Some(touched) if !touched.store => self.access(Side::Load, touched.address),
            _ => 0,
        }
    }

    /// Lets the accesses of a plain instruction at an address go through the caches, and gives their cycles.
    pub fn plain(&mut self, address: u32, access: &Option<Touched>) -> u64
        requires low { AreAtMost (2 ^ 64 - 3) self.old.tallies }
        ensures cycles { (instr : Instr) →
            result ≡ access_costs (accesses_at address (instr ∷ []) access.now) self.old }
        ensures after { (instr : Instr) →
            self.new ≡ passed_all (accesses_at address (instr ∷ []) access.now) self.old }
        ensures small { result ≤ 14 * most_latency }
        ensures counts { (most : ℕ) → AreAtMost most self.old.tallies → AreAtMost (most + 2) self.new.tallies }
    {
        let fetch = self.access(Side::Fetch, address);
        fetch + self.data(access)
    }

    /// Lets the accesses of a transfer at an address go through the caches: the fetch of its instruction, that of its
    /// slot's, and the slot's load. It gives their cycles.
    pub fn transfer(&mut self, address: u32, access: &Option<Touched>) -> u64
        requires address { address + 4 < 2 ^ 32 }
        requires low { AreAtMost (2 ^ 64 - 4) self.old.tallies }
        ensures cycles { (instr slot : Instr) →
            result ≡ access_costs (accesses_at address (instr ∷ slot ∷ []) access.now) self.old }
        ensures after { (instr slot : Instr) →
            self.new ≡ passed_all (accesses_at address (instr ∷ slot ∷ []) access.now) self.old }
        ensures small { result ≤ 21 * most_latency }
        ensures counts { (most : ℕ) → AreAtMost most self.old.tallies → AreAtMost (most + 3) self.new.tallies }
    {
        let fetches = self.access(Side::Fetch, address) + self.access(Side::Fetch, address + 4);
        fetches + self.data(access)
    }
}
