//! The rule that the nodes of a tree break first.

ghost use Rattle.std.specs.Prelude.{◌≡◌, ◌≤◌, ◌∷◌, [], Some, length, vec_capacity};
ghost use Rattle.std.specs.Bool.{OnFalse, OnTrue};
ghost use Rattle.ipet_program.specs.Programs.{IsCheckable};
ghost use Rattle.ipet_program.specs.Trees.{IsWhole};
ghost use Rattle.cert_check.specs.Rejects.{branches_of};
ghost use Rattle.cert_check.specs.Walks.{Finds, Tells, kept, splits_of, told_of};

use crate::rising::go_on;
use crate::scratch::Scratch;
use ipet_program::{LeafFault, Node, Program, is_split, leaf_fault};

/// Keeps the first place of a rule.
fn kept(first: Option<usize>, here: bool, place: usize) -> Option<usize>
    ensures { result ≡ kept first here place }
{
    match first {
        Some(earlier) => Some(earlier),
        None => { if here { Some(place) } else { None } }
    }
}

/// Whether what was found is that a rule is broken.
fn is_found(found: Option<LeafFault>, kind: LeafFault) -> bool
    ensures same { OnTrue result (found ≡ Some kind) }
    ensures other { OnFalse result (found ≡ Some kind → ⊥) }
{
    match found {
        Some(broken) => broken == kind,
        None => false,
    }
}

/// The rule that a node breaks first under the cuts above it; none where it is valid.
fn fault_at(program: &Program, bound: u64, node: &Node, scratch: &mut Scratch) -> Option<LeafFault>
    requires checkable { IsCheckable program.now }
    requires room { program.now.columns ≤ length scratch.old.sums.items }
    ensures found { Finds program.now bound scratch.old.cuts.items node.now result }
    ensures cuts { scratch.new.cuts ≡ scratch.old.cuts }
    ensures sums { length scratch.new.sums.items ≡ length scratch.old.sums.items }
{
    match node {
        Node::Split { column, at } => {
            if is_split(program, &scratch.cuts, *column, *at) {
                None
            } else {
                Some(LeafFault::Tree)
            }
        }
        Node::End(leaf) => leaf_fault(program, &scratch.cuts, bound, leaf, &mut scratch.sums),
    }
}

/// What is told at the end.
fn told_of(wide: Option<usize>, dual: Option<usize>) -> Option<(LeafFault, usize)>
    ensures { result ≡ told_of wide dual }
{
    if let Some(place) = wide {
        return Some((LeafFault::Wide, place));
    }
    let place = dual?;
    Some((LeafFault::Dual, place))
}

/// The rule that the nodes of a tree break first, and the first place where they do. It takes no memory.
pub fn first_fault(
    program: &Program,
    bound: u64,
    tree: &[Node],
    scratch: &mut Scratch,
) -> Option<(LeafFault, usize)>
    requires checkable { IsCheckable program.now }
    requires whole { IsWhole tree.now }
    requires columns { program.now.columns ≤ length scratch.old.sums.items }
    requires empty { scratch.old.cuts.items ≡ [] }
    requires splits { splits_of tree.now ≤ vec_capacity scratch.old.cuts }
    ensures { Tells program.now bound (branches_of ([] ∷ []) tree.now) result }
{
    let mut wide = None;
    let mut dual = None;
    let mut more = true;
    let mut place = 0;
    while more && place < tree.len() {
        let node = &tree[place];
        let found = fault_at(program, bound, node, scratch);
        if is_found(found, LeafFault::Tree) {
            return Some((LeafFault::Tree, place));
        }
        wide = kept(wide, is_found(found, LeafFault::Wide), place);
        dual = kept(dual, is_found(found, LeafFault::Dual), place);
        more = go_on(&mut scratch.cuts, node);
        place += 1;
    }
    told_of(wide, dual)
}
