//! The cycles of a unit by itself, whatever lies in the caches.

ghost use Rattle.std.specs.Prelude.{◌≡◌, ◌*◌, ◌≤◌, [], ◌∷◌};
ghost use Rattle.cache_config.specs.Limits.{most_cycles};
ghost use Rattle.mips_decode.specs.Table.{IsValid};
ghost use Rattle.mips_machine.specs.Machine.{own_cost, store_cost};

use cache_config::Cycles;
use mips_decode::{Instr, Touched};

/// The latency of a store, where the unit made one.
fn store_cycles(store: u64, access: &Option<Touched>) -> u64
    requires { store ≤ most_cycles }
    ensures value { result ≡ store_cost store access.now }
    ensures small { result ≤ most_cycles }
{
    match access {
        Some(touched) if touched.store => store,
        _ => 0,
    }
}

/// The cycles of a plain instruction that made this load or store.
pub fn plain_cycles(classes: &Cycles, store: u64, instr: &Instr, access: &Option<Touched>) -> u64
    requires valid { IsValid instr.now }
    requires store { store ≤ most_cycles }
    ensures value { result ≡ own_cost classes.now store (instr.now ∷ []) access.now }
    ensures some { 1 ≤ result }
    ensures small { result ≤ 2 * most_cycles }
{
    classes.instruction(instr) + store_cycles(store, access)
}

/// The cycles of a jump or branch whose slot made this load or store.
pub fn transfer_cycles(
    classes: &Cycles,
    store: u64,
    instr: &Instr,
    slot: &Instr,
    access: &Option<Touched>,
) -> u64
    requires valid { IsValid instr.now }
    requires slot { IsValid slot.now }
    requires store { store ≤ most_cycles }
    ensures value { result ≡ own_cost classes.now store (instr.now ∷ slot.now ∷ []) access.now }
    ensures some { 2 ≤ result }
    ensures small { result ≤ 3 * most_cycles }
{
    classes.instruction(instr) + classes.instruction(slot) + store_cycles(store, access)
}
