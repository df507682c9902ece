//! A certificate as far as it is read.

ghost use Rattle.std.specs.Prelude.{◌≡◌, [], OnOk};

use crate::line::Line;
use ipet_program::{Count, Node};
use std::alloc::{AllocError, Global};
use wcet_io::List;

/// What the lines so far say; 0 or nothing for those that are to come.
#[derive(Debug, Drop)]
pub struct Draft {
    pub bound: u64,
    pub reached: u64,
    pub counts: List<Count>,
    pub tree: List<Node>,
}

impl Draft {
    ghost use Rattle.cert_check.specs.Drafts.{with_line};

    /// A draft of no lines.
    pub fn new(alloc: Global) -> Draft
        ensures { result ≡ record { bound = 0; reached = 0; counts = []; tree = [] } }
    {
        Draft {
            bound: 0,
            reached: 0,
            counts: List::new(alloc),
            tree: List::new(alloc),
        }
    }

    /// Adds what a line says.
    pub fn add(&mut self, line: Line) -> Result<(), AllocError>
        ensures { OnOk result (self.new ≡ with_line self.old line) }
    {
        match line {
            Line::Bound(bound) => self.bound = bound,
            Line::Reached(reached) => self.reached = reached,
            Line::Value(count) => self.counts.push(count)?,
            Line::Tree(node) => self.tree.push(node)?,
            Line::Last => {}
        }
        Ok(())
    }
}
