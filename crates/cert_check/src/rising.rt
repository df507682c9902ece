//! From one node of a tree to the next one in preorder.

ghost use Rattle.std.specs.Prelude.{◌≡◌, ◌∷◌, ◌++◌, ◌<◌, ◌≤◌, ◌+◌, [], length, reverse, vec_capacity};
ghost use Rattle.std.specs.Bool.{OnFalse, OnTrue};
ghost use Rattle.ipet_program.specs.Certificates.{first_part};
ghost use Rattle.cert_check.specs.Walks.{behind, parts, pending, splits_in};

use ipet_program::{Node, Side2, first_part, second_part};

/// Goes to the first part of a split.
fn descend(cuts: &mut Vec<Side2>, column: u32, at: u64)
    requires { length cuts.old.items < vec_capacity cuts.old }
    ensures cuts { cuts.new.items ≡ cuts.old.items ++ first_part column at ∷ [] }
    ensures room { vec_capacity cuts.old ≤ vec_capacity cuts.new }
{
    match cuts.push(first_part(column, at)) {
        Ok(()) => (),
        Err(_) => unreachable!(),
    }
}

/// Goes to the second part of the innermost split whose first part it is in; false where there is none.
fn rise(cuts: &mut Vec<Side2>) -> bool
    ensures next { OnTrue result (parts (reverse cuts.old.items) ≡ cuts.new.items ∷ parts (reverse cuts.new.items)) }
    ensures none { OnFalse result (parts (reverse cuts.old.items) ≡ []) }
    ensures few { length cuts.new.items ≤ length cuts.old.items }
    ensures room { vec_capacity cuts.old ≤ vec_capacity cuts.new }
{
    while let Some(cut) = cuts.pop() {
        if cut.upper {
            match cuts.push(second_part(cut.column, cut.at)) {
                Ok(()) => return true,
                Err(_) => unreachable!(),
            }
        }
    }
    false
}

/// Goes to the node behind a node; false where there is none.
pub fn go_on(cuts: &mut Vec<Side2>, node: &Node) -> bool
    requires { length cuts.old.items + splits_in node.now ≤ vec_capacity cuts.old }
    ensures next { behind cuts.old.items (parts (reverse cuts.old.items)) node.now ≡ pending result cuts.new.items }
    ensures room { vec_capacity cuts.old ≤ vec_capacity cuts.new }
    ensures few { length cuts.new.items ≤ length cuts.old.items + splits_in node.now }
{
    match node {
        Node::Split { column, at } => {
            descend(cuts, *column, *at);
            true
        }
        Node::End(_) => rise(cuts),
    }
}
