//! Leaves: multipliers of rows that show a bound.

ghost use Rattle.std.specs.Prelude.{◌≡◌, ◌<◌, All, AllPairs, true, pos};

use wcet_io::List;

/// A row's multiplier in a leaf.
#[derive(Clone, Copy, Debug)]
pub struct Weight {
    /// The number of the row: those of the program from 1, then one for each split above the leaf, from
    /// the root downward.
    pub row: u64,
    pub times: i128,
}

/// Multipliers of rows that show a bound on the value, or that there are no counts.
#[derive(Debug, Drop)]
pub struct Leaf {
    /// What the value is taken times; 1 where the leaf shows that there are no counts.
    pub denom: i128,
    /// Whether the leaf shows that there are no counts.
    pub empty: bool,
    /// By rising row, none of them 0.
    pub weights: List<Weight>,
    pub ghost rising: { AllPairs (λ weight other. weight.row < other.row) weights },
    pub ghost some: { All (λ weight. weight.times ≡ pos 0 → ⊥) weights },
    pub ghost one: { empty ≡ true → denom ≡ pos 1 },
}

/// The rule that a leaf breaks first: those of the tree come first, then the sizes of numbers, then what the leaf says.
#[derive(Clone, Copy, Debug, PartialEq, Eq)]
pub enum LeafFault {
    /// A multiplier is of no row, or negative on a row with <=, or the denominator is below 1.
    Tree,
    /// A product or a sum of the first products doesn't fit 128 signed bits.
    Wide,
    /// The multipliers don't show what the leaf says.
    Dual,
}

/// A cut of a column's range.
#[derive(Clone, Copy, Debug)]
pub struct Side2 {
    pub column: u32,
    pub at: u64,
    /// Whether the column is at most `at`; else it is at least `at` + 1.
    pub upper: bool,
}
