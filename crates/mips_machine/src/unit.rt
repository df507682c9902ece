//! What one instruction does to the registers and the memory.

ghost use Rattle.std.specs.Prelude.{◌≡◌, ℕ, ◌+◌, ◌≤◌, List, IfOk, IfErr, OnOk, OnErr};
ghost use Rattle.mips_decode.specs.declared.step.Regs.{Regs};
ghost use Rattle.mips_decode.specs.Effect.{Does, Traps, arithmetic, effect, on_registers};
ghost use Rattle.mips_decode.specs.State.{Region, State, code_at, return_address};
ghost use Rattle.mips_decode.specs.Step.{Found, Missing, fetched};
ghost use Rattle.mips_decode.specs.Table.{IsValid};
ghost use Rattle.mips_machine.specs.Units.{state_of};

use crate::memory::Memory;
use mips_decode::{Instr, LoadOp, Reg, Regs, StopOp, StoreOp, Touched, TrapKind};

/// The instruction at an address, or the trap of its fetch.
pub fn fetch(memory: &Memory, address: u32) -> Result<Instr, TrapKind>
    ensures found { IfOk result (λ i. fetched (code_at memory.now) address ≡ Found i) }
    ensures missing { IfErr result (λ k. fetched (code_at memory.now) address ≡ Missing k) }
    ensures low { OnOk result (address + 4 ≤ return_address) }
    ensures valid { IfOk result IsValid }
{
    let Some(word) = memory.code(address) else {
        return Err(TrapKind::Fetch);
    };
    let Some(instr) = mips_decode::decode(word) else {
        return Err(TrapKind::Unknown);
    };
    Ok(instr)
}

/// Does a load.
fn load(
    op: LoadOp,
    rt: Reg,
    base: Reg,
    offset: u16,
    regs: &mut Regs,
    memory: &Memory,
) -> Result<Option<Touched>, TrapKind>
    ensures done { IfOk result (λ access. (pc : ℕ) → effect (Instr.Load op rt base offset)
        (state_of regs.old pc memory.now) ≡ Does access (state_of regs.new pc memory.now)) }
    ensures trap { IfErr result (λ kind. (pc : ℕ) → effect (Instr.Load op rt base offset)
        (state_of regs.old pc memory.now) ≡ Traps kind) }
    ensures kept { OnErr result (regs.new ≡ regs.old) }
{
    let address = mips_decode::address_of(regs, base, offset);
    match memory.load(op, address, regs.get(rt)) {
        Ok((access, value)) => {
            regs.set(rt, value);
            Ok(Some(access))
        }
        Err(kind) => Err(kind),
    }
}

/// Does a store.
fn store(
    op: StoreOp,
    rt: Reg,
    base: Reg,
    offset: u16,
    regs: &Regs,
    memory: &mut Memory,
) -> Result<Option<Touched>, TrapKind>
    ensures done { IfOk result (λ access. (pc : ℕ) → effect (Instr.Store op rt base offset)
        (state_of regs.now pc memory.old) ≡ Does access (state_of regs.now pc memory.new)) }
    ensures trap { IfErr result (λ kind. (pc : ℕ) → effect (Instr.Store op rt base offset)
        (state_of regs.now pc memory.old) ≡ Traps kind) }
    ensures kept { OnErr result (memory.new ≡ memory.old) }
{
    let address = mips_decode::address_of(regs, base, offset);
    match memory.store(op, address, regs.get(rt)) {
        Ok(access) => Ok(Some(access)),
        Err(kind) => Err(kind),
    }
}

/// Does an instruction on registers alone.
fn arithmetic(instr: &Instr, regs: &mut Regs) -> Result<Option<Touched>, TrapKind>
    requires { IsValid instr.now }
    ensures done { IfOk result (λ access. (pc : ℕ) (memory : List Region) →
        on_registers (state_of regs.old pc memory) (arithmetic instr.now regs.old)
        ≡ Does access (state_of regs.new pc memory)) }
    ensures trap { IfErr result (λ kind. (pc : ℕ) (memory : List Region) →
        on_registers (state_of regs.old pc memory) (arithmetic instr.now regs.old) ≡ Traps kind) }
    ensures kept { OnErr result (regs.new ≡ regs.old) }
{
    if mips_decode::apply(instr, regs) {
        Ok(None)
    } else {
        Err(TrapKind::Overflow)
    }
}

/// The trap of SYSCALL or BREAK.
fn stop_kind(op: StopOp) -> TrapKind
    ensures { (code : ℕ) (s : State) → effect (Instr.Stop op code) s ≡ Traps result }
{
    match op {
        StopOp::Syscall => TrapKind::Syscall,
        StopOp::Break => TrapKind::Break,
    }
}

/// Does an instruction: its load or store, or its trap, which changes nothing.
pub fn execute(
    instr: &Instr,
    regs: &mut Regs,
    memory: &mut Memory,
) -> Result<Option<Touched>, TrapKind>
    requires { IsValid instr.now }
    ensures done { IfOk result (λ access. (pc : ℕ) → effect instr.now
        (state_of regs.old pc memory.old) ≡ Does access (state_of regs.new pc memory.new)) }
    ensures trap { IfErr result (λ kind. (pc : ℕ) → effect instr.now
        (state_of regs.old pc memory.old) ≡ Traps kind) }
    ensures kept_regs { OnErr result (regs.new ≡ regs.old) }
    ensures kept_memory { OnErr result (memory.new ≡ memory.old) }
{
    match *instr {
        Instr::Load {
            op,
            rt,
            base,
            offset,
        } => load(op, rt, base, offset, regs, memory),
        Instr::Store {
            op,
            rt,
            base,
            offset,
        } => store(op, rt, base, offset, regs, memory),
        Instr::Stop { op, .. } => Err(stop_kind(op)),
        _ => arithmetic(instr, regs),
    }
}
