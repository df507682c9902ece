//! Certificates: counts that have a value, and a tree of leaves which show that no counts have a value
//! above a bound.

ghost use Rattle.std.specs.Prelude.{◌<◌, All, AllPairs};
ghost use Rattle.ipet_program.specs.Trees.{IsWhole};

use crate::leaf::Leaf;
use wcet_io::List;

/// A node of a tree in preorder: behind a split stand its two parts.
#[derive(Debug, Drop)]
pub enum Node {
    /// In the first part the column is at most `at`, in the second one at least `at` + 1.
    Split { column: u32, at: u64 },
    End(Leaf),
}

/// How often a column is taken, at least once.
#[derive(Clone, Copy, Debug)]
pub struct Count {
    pub column: u32,
    pub number: u64,
}

/// Counts of the value `reached`, and a tree that shows `bound`, in cycles.
#[derive(Debug, Drop)]
pub struct Certificate {
    pub bound: u64,
    pub reached: u64,
    /// By rising column; a column that isn't there isn't taken.
    pub counts: List<Count>,
    /// One whole tree in preorder.
    pub tree: List<Node>,
    /// The number of the text line that tells `reached`.
    pub reached_line: u32,
    pub ghost taken: { All (λ count. 0 < count.number) counts },
    pub ghost rising: { AllPairs (λ count other. count.column < other.column) counts },
    pub ghost whole: { IsWhole tree },
}
