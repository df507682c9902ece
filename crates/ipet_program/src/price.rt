//! What units cost.

ghost use Rattle.std.specs.Prelude.{◌≡◌, ℕ, ◌*◌, ◌≤◌, sum_by, true};
ghost use Rattle.mips_decode.specs.Table.{IsValid};
ghost use Rattle.net_model.specs.Units.{is_transfer};
ghost use Rattle.cache_config.specs.Instructions.{costs_of, stages_of};
ghost use Rattle.cache_config.specs.Limits.{most_cycles};
ghost use Rattle.code_units.specs.Ways.{IsStanding};
ghost use Rattle.ipet_program.specs.Costs.{full_cost, full_limit, instr_cost, instr_full, price_limit, touch_cost};
ghost use Rattle.ipet_program.specs.Costs.{touch_full, unit_cost};

use cache_config::Profile;
use mips_decode::{AccessKind, Instr};
use net_model::CodeUnit;

/// The cycles of an instruction's load, at stage 1 of its chain, or store; 0 where it makes none.
fn touch_price(profile: &Profile, instr: &Instr) -> u64
    ensures value { result ≡ touch_cost (costs_of profile.now) instr.now }
    ensures small { result ≤ most_cycles }
    ensures transfer { is_transfer instr.now ≡ true → result ≡ 0 }
{
    match *instr {
        Instr::Load { .. } => profile.stage_latency(AccessKind::Load, 1),
        Instr::Store { .. } => profile.store,
        _ => 0,
    }
}

/// The cycles of an instruction, with its fetch and its load or store.
fn instr_price(profile: &Profile, fetch: AccessKind, instr: &Instr) -> u64
    requires { IsValid instr.now }
    ensures value { result ≡ instr_cost (costs_of profile.now) fetch instr.now }
    ensures some { 1 ≤ result }
    ensures small { result ≤ 3 * most_cycles }
    ensures transfer { is_transfer instr.now ≡ true → result ≤ 2 * most_cycles }
{
    profile.cycles.instruction(instr)
        + (profile.stage_latency(fetch, 1) + touch_price(profile, instr))
}

/// The cycles of a unit: of its instruction and of the one in its slot.
pub fn unit_price(profile: &Profile, unit: &CodeUnit) -> u64
    requires { IsStanding unit.now }
    ensures value { (number address : ℕ) → result ≡ unit_cost (costs_of profile.now) number unit.now address }
    ensures some { 1 ≤ result }
    ensures small { result ≤ price_limit }
{
    let cycles = instr_price(profile, AccessKind::Fetch, &unit.instr);
    match unit.slot {
        Some(slot) => cycles + instr_price(profile, AccessKind::Slot, &slot),
        None => cycles,
    }
}

/// The latencies of all stages of an access, in cycles. It has at most four: three caches, and memory.
fn all_stages(profile: &Profile, kind: AccessKind) -> u64
    ensures value { result ≡ sum_by (λ latency. latency) (stages_of (costs_of profile.now) kind) }
    ensures small { result ≤ 4 * most_cycles }
{
    profile.stage_latency(kind, 1)
        + profile.stage_latency(kind, 2)
        + profile.stage_latency(kind, 3)
        + profile.stage_latency(kind, 4)
}

/// The most cycles of an instruction's load, through all stages of its chain, or of its store; 0 where it makes none.
fn touch_full(profile: &Profile, instr: &Instr) -> u64
    ensures value { result ≡ touch_full (costs_of profile.now) instr.now }
    ensures small { result ≤ 4 * most_cycles }
    ensures transfer { is_transfer instr.now ≡ true → result ≡ 0 }
{
    match *instr {
        Instr::Load { .. } => all_stages(profile, AccessKind::Load),
        Instr::Store { .. } => profile.store,
        _ => 0,
    }
}

/// The most cycles of an instruction, with its fetch and its load or store.
fn instr_full(profile: &Profile, fetch: AccessKind, instr: &Instr) -> u64
    requires { IsValid instr.now }
    ensures value { result ≡ instr_full (costs_of profile.now) fetch instr.now }
    ensures some { 1 ≤ result }
    ensures small { result ≤ 9 * most_cycles }
    ensures transfer { is_transfer instr.now ≡ true → result ≤ 5 * most_cycles }
{
    profile.cycles.instruction(instr) + (all_stages(profile, fetch) + touch_full(profile, instr))
}

/// The most cycles of a unit: each of its accesses goes through all stages of its chain.
pub fn full_price(profile: &Profile, unit: &CodeUnit) -> u64
    requires { IsStanding unit.now }
    ensures value { (number address : ℕ) → result ≡ full_cost (costs_of profile.now) number unit.now address }
    ensures some { 1 ≤ result }
    ensures small { result ≤ full_limit }
{
    let cycles = instr_full(profile, AccessKind::Fetch, &unit.instr);
    match unit.slot {
        Some(slot) => cycles + instr_full(profile, AccessKind::Slot, &slot),
        None => cycles,
    }
}
