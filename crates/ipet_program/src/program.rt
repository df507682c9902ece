//! The flow program: an integer program whose counts are those of a run, and whose greatest value bounds
//! its cycles (implicit path enumeration, after Li and Malik, 1995).

use wcet_io::List;

/// A column's part in a row. Columns have numbers from 1, those of the net's arcs first.
#[derive(Clone, Copy, Debug)]
pub struct Term {
    pub column: u32,
    pub factor: i64,
}

/// A condition on the counts: the sum of factor times count is the right side, or at most that.
#[derive(Debug, Drop)]
pub struct Row {
    /// Whether the sum is the right side; else it is at most that.
    pub equal: bool,
    /// By rising column.
    pub terms: List<Term>,
    pub right: i64,
}

/// A further stage of an access: the caches of its chain but the first one, and memory. And what its rows say.
#[derive(Debug, Drop)]
pub struct Stage {
    /// The number of the access.
    pub access: u32,
    /// The place of the access.
    pub place: u32,
    /// The number of the cache that the access leaves behind when it goes on to the stage, from 1 along its chain.
    pub level: u32,
    /// The column of the stage before it; 0 where that is the first one, which the arcs into the place count.
    pub before: u32,
    /// The latency of what the stage visits, in cycles.
    pub latency: u64,
    /// Whether the access never comes there: it never arrives at the cache before, or always finds its block there.
    pub never: bool,
    /// The scopes in each stay of which the access comes there at most once, the outermost first.
    pub firsts: List<u32>,
}

/// The program of a net: its columns, its rows in order, and for each column the value of one count and
/// the greatest count.
#[derive(Debug, Drop)]
pub struct Program {
    pub columns: u32,
    pub rows: List<Row>,
    /// Cycles for one count of each column.
    pub value: List<i64>,
    /// The range of each column is 0 to its cap.
    pub caps: List<u64>,
    /// The further stages, in the order of their columns, which follow those of the arcs.
    pub stages: List<Stage>,
}
