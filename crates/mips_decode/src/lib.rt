//! MIPS I integer instructions: their table, their effects and the step of one unit.
#![tactic(auto)]

mod arithmetic;
mod columns;
mod decoder;
#[cfg(test)]
mod edges;
mod effect;
mod encoder;
#[cfg(test)]
mod encodings;
mod fields;
mod instr;
mod laws;
mod memory;
mod numbers;
mod step;
mod transfer;

pub use columns::{CostClass, cost_class, reads, writes};
pub use decoder::decode;
pub use effect::apply;
pub use encoder::encode;
pub use instr::{
    BranchOp, HiLoOp, ImmOp, Instr, LoadOp, MulOp, Op3, Reg, ShiftOp, StopOp, StoreOp,
};
pub use laws::units_grow;
pub use memory::{
    address_of, load_touched, load_value, number_at, put_number, store_touched, store_value,
};
pub use step::{AccessKind, RETURN_ADDRESS, Regs, Touched, TrapKind};
pub use transfer::{LinkKind, Way, branch_links, branch_target, decide, is_transfer, jump_target};
