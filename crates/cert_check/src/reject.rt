//! Why a certificate is rejected.

/// What is broken, in the order in which it is looked for.
#[derive(Clone, Copy, Debug, PartialEq, Eq)]
pub enum Reason {
    /// The text is not of a report's lines.
    Text,
    /// The net's lines aren't those of the net.
    Net,
    /// A letter or a class is none that may stand there.
    Letters,
    /// The counts name no column, or aren't feasible, or don't have the value reached.
    Counts,
    /// A split, or a row, a sign or the denominator of a leaf, breaks the rules of a tree.
    Tree,
    /// A product or a sum of the first products of a leaf doesn't fit 128 signed bits.
    Wide,
    /// A leaf doesn't show what it says.
    Dual,
}

/// The first reason that holds anywhere, and the least text line where it holds.
#[derive(Clone, Copy, Debug, PartialEq, Eq)]
pub struct Reject {
    pub reason: Reason,
    /// The number of the text line.
    pub line: u32,
}
