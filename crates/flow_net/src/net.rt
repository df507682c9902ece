//! The net of a program. Places, arcs, loop instances and accesses have numbers from 1, in the order
//! of their lists, contexts from 0. The number 0 of a place is outside the run, that of a loop
//! instance the whole run.

use wcet_io::List;

/// What an access is for.
#[derive(Clone, Copy, Debug, PartialEq, Eq)]
pub enum Role {
    /// The fetch of the unit's instruction.
    Fetch,
    /// The fetch of the instruction in the delay slot.
    Slot,
    /// The load that the unit makes.
    Load,
    /// The store that the unit makes.
    Store,
}

/// A unit in a context.
#[derive(Clone, Copy, Debug, PartialEq, Eq)]
pub struct Place {
    /// The number of the context.
    pub context: u32,
    /// The address of the unit's instruction.
    pub address: u32,
    /// The innermost loop instance that holds the place; 0 is the run.
    pub scope: u32,
}

/// A way to a function by calls. Context 0 is the entry function, with 0 for parent and site.
#[derive(Clone, Copy, Debug, PartialEq, Eq, Hash)]
pub struct Context {
    /// The number of the context of the call.
    pub parent: u32,
    /// The address of the call.
    pub site: u32,
    /// The entry of the called function.
    pub target: u32,
}

/// A step from a place to a place. From 0 the run begins, and to 0 it ends.
#[derive(Clone, Copy, Debug, PartialEq, Eq)]
pub struct NetArc {
    pub from: u32,
    pub to: u32,
}

/// A loop in a context. It holds the places of its body, and those of the contexts that calls from
/// there make.
#[derive(Clone, Copy, Debug, PartialEq, Eq)]
pub struct LoopInst {
    /// The place that each stay in the loop begins with.
    pub header: u32,
    /// How many times the header comes in one stay at most.
    pub bound: u32,
    /// The next loop instance outward; 0 is the run.
    pub outer: u32,
}

/// A use of memory by the unit of a place.
#[derive(Clone, Copy, Debug, PartialEq, Eq)]
pub struct Access {
    pub place: u32,
    pub role: Role,
    /// The address of the instruction that makes it.
    pub at: u32,
}

/// The net of a program.
#[derive(Debug, Drop)]
pub struct Net {
    pub contexts: List<Context>,
    pub places: List<Place>,
    pub arcs: List<NetArc>,
    pub loops: List<LoopInst>,
    pub accesses: List<Access>,
}
