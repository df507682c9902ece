//! What instructions and accesses cost under a profile.

ghost use Rattle.std.specs.Prelude.{◌≡◌, ◌≤◌, ◌∷◌, ◌++◌, [], All, map, slice_index_or};
ghost use Rattle.cache_config.specs.Instructions.{cycles_of};
ghost use Rattle.cache_config.specs.Limits.{most_cycles};
ghost use Rattle.lru_concrete.specs.Chains.{chain};
ghost use Rattle.lru_concrete.specs.declared.level.Level.{Level};
ghost use Rattle.mips_decode.specs.Columns.{class_of};
ghost use Rattle.mips_decode.specs.Table.{IsValid};

use crate::chains::side_of;
use crate::profile::{Cycles, Profile};
use lru_concrete::{Level, Side};
use mips_decode::{AccessKind, CostClass, Instr};

impl Cycles {
    /// The cycles of an instruction, which are those of its class: 1 to 1,000,000, without its accesses of memory.
    pub fn instruction(&self, instr: &Instr) -> u64
        requires { IsValid instr.now }
        ensures value { result ≡ cycles_of self.now (class_of instr.now) }
        ensures some { 1 ≤ result }
        ensures small { result ≤ most_cycles }
    {
        match mips_decode::cost_class(instr) {
            CostClass::Alu => self.alu,
            CostClass::Shift => self.shift,
            CostClass::Mult => self.mult,
            CostClass::Div => self.div,
            CostClass::Move => self.hilo,
            CostClass::Load => self.load,
            CostClass::Store => self.store,
            CostClass::Branch => self.branch,
            CostClass::Jump => self.jump,
            CostClass::Stop => self.stop,
        }
    }
}

/// The latency of the stage after `before` others, in cycles: the caches of a side, then memory; 0 past memory.
fn latency_after(levels: &[Level], side: Side, memory: u64, before: u32) -> u64
    requires { memory ≤ most_cycles }
    ensures value { result
        ≡ slice_index_or (map (λ (l : Level). l.latency) (chain side levels.now) ++ (memory ∷ [])) before 0 }
    ensures small { result ≤ most_cycles }
{
    let mut before = before;
    for level in levels {
        if level.serves.serves(side) {
            if before == 0 {
                return level.latency;
            }
            before -= 1;
        }
    }
    if before == 0 { memory } else { 0 }
}

impl Profile {
    ghost use Rattle.cache_config.specs.Instructions.{costs_of, stage_latency};

    /// The latency of a stage that an access of a kind may visit, in cycles: at most 1,000,000.
    ///
    /// Stages count from 1: the caches that the access goes through, in the profile's order, then memory. 0 where there
    /// is no such stage, and for a store, which visits none.
    pub fn stage_latency(&self, kind: AccessKind, stage: u32) -> u64
        ensures value { result ≡ stage_latency (costs_of self.now) kind stage }
        ensures small { result ≤ most_cycles }
    {
        match side_of(kind) {
            Some(side) if stage > 0 => latency_after(
                self.levels.as_slice(),
                side,
                self.memory,
                stage - 1,
            ),
            _ => 0,
        }
    }
}
