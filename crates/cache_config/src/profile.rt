//! The profile of a machine: its costs, its stack and its regions of memory.

ghost use Rattle.std.specs.Prelude.{◌≡◌, ◌+◌, ◌%◌, ◌<◌, ◌≤◌, [], All, AllPairs, length};
ghost use Rattle.cache_config.specs.Chains.{AreShort};
ghost use Rattle.cache_config.specs.Limits.{AreApart, IsCost, IsOffStack, area_above, least_stack, memory_end, most_bytes, most_cycles, most_regions, most_splits, most_steps};
ghost use Rattle.lru_concrete.specs.Limits.{most_levels};

use crate::keys::{MEMORY, SPLITS, STACK_SIZE, STACK_TOP, STEPS, STORE};
use crate::read::read_costs;
use crate::values::value_of;
use lru_concrete::Level;
use std::alloc::Global;
use toml::Table;
use wcet_io::List;

/// The cycles that an instruction of each class takes, beside those of its accesses of memory.
///
/// The classes are those of the MIPS I instructions; each takes 1 to 1,000,000 cycles.
#[derive(Clone, Copy, Debug)]
pub struct Cycles {
    /// Sums, differences, logic, comparisons and LUI.
    pub alu: u64,
    /// Shifts.
    pub shift: u64,
    /// MULT and MULTU.
    pub mult: u64,
    /// DIV and DIVU.
    pub div: u64,
    /// Moves from and to HI and LO: the class move.
    pub hilo: u64,
    /// Loads.
    pub load: u64,
    /// Stores.
    pub store: u64,
    /// Branches, taken or not.
    pub branch: u64,
    /// Jumps, also through a register.
    pub jump: u64,
    /// SYSCALL and BREAK.
    pub stop: u64,
    pub ghost alu_cost: { IsCost alu },
    pub ghost shift_cost: { IsCost shift },
    pub ghost mult_cost: { IsCost mult },
    pub ghost div_cost: { IsCost div },
    pub ghost hilo_cost: { IsCost hilo },
    pub ghost load_cost: { IsCost load },
    pub ghost store_cost: { IsCost store },
    pub ghost branch_cost: { IsCost branch },
    pub ghost jump_cost: { IsCost jump },
    pub ghost stop_cost: { IsCost stop },
}

/// A region of memory that a program may read and write, beside its segments and its stack.
#[derive(Clone, Copy, Debug)]
pub struct Region {
    /// The address of the first byte.
    pub start: u32,
    /// How many bytes the region has, 1 to 16,777,216.
    pub size: u32,
    pub ghost starts_low: { start < memory_end },
    pub ghost some: { 1 ≤ size },
    pub ghost small: { size ≤ most_bytes },
    pub ghost ends_low: { start + size ≤ memory_end },
}

/// What the machine costs, where a program's stack and data lie, and how far the analysis goes.
#[derive(Debug, Drop)]
pub struct Profile {
    /// The latency of memory, in cycles, at most 1,000,000.
    pub memory: u64,
    /// The latency of a store, in cycles, at most 1,000,000.
    pub store: u64,
    /// How many splits the search for a bound may make, at most 1,000,000.
    pub splits: u32,
    /// How many steps a run of the machine may make, 1 to 100,000,000.
    pub steps: u32,
    /// The address at which the stack pointer, register 29, starts; a multiple of 8.
    pub stack_top: u32,
    /// How many bytes the stack has below its top: 64 to 16,777,216, a multiple of 8.
    pub stack_size: u32,
    /// The value at which the global pointer, register 28, starts; `None` for any value.
    pub gp: Option<u32>,
    /// The name of the symbol at which the program is entered; `None` for the file's entry.
    pub entry: Option<List<u8>>,
    /// The cycles of each class of instructions.
    pub cycles: Cycles,
    /// The further regions of memory, at most 16, apart from each other and from the stack.
    pub regions: List<Region>,
    /// The caches in the order in which accesses go through them: at most 6, and at most 3 in each chain.
    pub levels: List<Level>,
    pub ghost memory_limit: { memory ≤ most_cycles },
    pub ghost store_limit: { store ≤ most_cycles },
    pub ghost splits_limit: { splits ≤ most_splits },
    pub ghost some_steps: { 1 ≤ steps },
    pub ghost steps_limit: { steps ≤ most_steps },
    pub ghost top_aligned: { stack_top % 8 ≡ 0 },
    pub ghost top_low: { stack_top + area_above ≤ memory_end },
    pub ghost stack_some: { least_stack ≤ stack_size },
    pub ghost stack_limit: { stack_size ≤ most_bytes },
    pub ghost stack_aligned: { stack_size % 8 ≡ 0 },
    pub ghost stack_fits: { stack_size ≤ stack_top },
    pub ghost regions_limit: { length regions ≤ most_regions },
    pub ghost off_stack: { All (λ r. IsOffStack stack_top stack_size r.start r.size) regions },
    pub ghost levels_few: { length levels ≤ most_levels },
    pub ghost chains_short: { AreShort levels },
    pub ghost apart: { AllPairs (λ r s. AreApart r.start r.size s.start s.size) regions },
}

impl Profile {
    ghost use Rattle.cache_config.specs.Defaults.{HasDefaults};

    /// The profile of a text without keys: the default of each number, no caches and no further regions.
    ///
    /// It takes no memory.
    pub fn plain(alloc: Global) -> Profile
        ensures { HasDefaults result }
    {
        let empty = Table::new(alloc);
        Profile {
            memory: value_of(&empty, &MEMORY),
            store: value_of(&empty, &STORE),
            splits: value_of(&empty, &SPLITS) as u32,
            steps: value_of(&empty, &STEPS) as u32,
            stack_top: value_of(&empty, &STACK_TOP) as u32,
            stack_size: value_of(&empty, &STACK_SIZE) as u32,
            gp: None,
            entry: None,
            cycles: read_costs(&empty),
            regions: List::new(alloc),
            levels: List::new(alloc),
        }
    }
}
