//! The lines of a certificate.

use ipet_program::{Count, Node};

/// A line of a certificate.
#[derive(Debug, Drop)]
pub enum Line {
    /// `bound BOUND`, in cycles
    Bound(u64),
    /// `reached REACHED`, in cycles
    Reached(u64),
    /// `value COLUMN COUNT`
    Value(Count),
    /// `split COLUMN AT`, `leaf DENOMINATOR ROW:TIMES ..` or `empty ROW:TIMES ..`
    Tree(Node),
    /// `end`
    Last,
}
