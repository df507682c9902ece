//! The room for a check.

ghost use Rattle.std.specs.Prelude.{◌≡◌, ◌≤◌, IfOk};
ghost use Rattle.cert_check.specs.Walks.{HasRoom, splits_in, splits_of};

use ipet_program::{Certificate, Node, Program, Side2};
use std::alloc::{AllocError, Global};

/// The room for one check at a time: a place for each column of a program, and for each split of a tree.
#[derive(Debug, Drop)]
pub struct Scratch {
    /// A sum for each column.
    pub(crate) sums: Vec<i128>,
    /// The cuts above the node where the check stands, from the root downward.
    pub(crate) cuts: Vec<Side2>,
}

/// How many splits a node is.
fn splits_in(node: &Node) -> usize
    ensures is { result ≡ splits_in node.now }
    ensures few { result ≤ 1 }
{
    match node {
        Node::Split { .. } => 1,
        Node::End(_) => 0,
    }
}

/// How many of the nodes are splits.
fn splits_of(nodes: &[Node]) -> usize
    ensures { result ≡ splits_of nodes.now }
{
    let mut splits = 0;
    for node in nodes {
        splits += splits_in(node);
    }
    splits
}

impl Scratch {
    /// Makes the room for checks of this certificate for this program.
    pub fn new(
        alloc: Global,
        program: &Program,
        certificate: &Certificate,
    ) -> Result<Scratch, AllocError>
        ensures { IfOk result (HasRoom program.now certificate.now) }
    {
        let splits = splits_of(certificate.tree.as_slice());
        let sums = vec![in alloc; 0; program.columns as usize]?;
        let cuts = Vec::with_capacity(alloc, splits)?;
        Ok(Scratch { sums, cuts })
    }
}
