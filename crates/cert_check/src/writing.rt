//! The text of a certificate.

ghost use Rattle.std.specs.Prelude.{◌≡◌, ◌++◌, flat_map, IfOk, OnOk};
ghost use Rattle.std.specs.List.{AllByRecursion};
ghost use Rattle.std.specs.String.{string_bytes};
ghost use Rattle.cert_check.specs.Lines.{Fits, FitsCount, FitsLeaf, FitsNode, FitsWeight};
ghost use Rattle.cert_check.specs.Texts.{certificate_text, count_text, leaf_head, leaf_text, node_text, weight_text};

use ipet_program::{Certificate, Count, Leaf, Node, Weight};
use std::alloc::{AllocError, Global};

/// Adds the line of a count.
fn add_count(text: &mut String, count: &Count) -> Result<(), AllocError>
    ensures text { OnOk result (string_bytes text.new ≡ string_bytes text.old ++ count_text count.now) }
    ensures fits { FitsCount count.now }
{
    let column = count.column;
    let number = count.number;
    write!(text, "value {column} {number}\n")?;
    Ok(())
}

/// Adds the lines of counts.
fn add_counts(text: &mut String, counts: &[Count]) -> Result<(), AllocError>
    ensures text { OnOk result (string_bytes text.new ≡ string_bytes text.old ++ flat_map count_text counts.now) }
    ensures fit { OnOk result (AllByRecursion FitsCount counts.now) }
{
    for count in counts {
        add_count(text, count)?;
    }
    Ok(())
}

/// Adds the multiplier of a row.
fn add_weight(text: &mut String, weight: &Weight) -> Result<(), AllocError>
    ensures text { OnOk result (string_bytes text.new ≡ string_bytes text.old ++ weight_text weight.now) }
    ensures fits { FitsWeight weight.now }
{
    let row = weight.row;
    let times = weight.times;
    write!(text, " {row}:{times}")?;
    Ok(())
}

/// Adds the multipliers of a leaf's rows.
fn add_weights(text: &mut String, weights: &[Weight]) -> Result<(), AllocError>
    ensures text { OnOk result (string_bytes text.new ≡ string_bytes text.old ++ flat_map weight_text weights.now) }
    ensures fit { OnOk result (AllByRecursion FitsWeight weights.now) }
{
    for weight in weights {
        add_weight(text, weight)?;
    }
    Ok(())
}

/// Adds how the line of a leaf begins.
fn add_head(text: &mut String, leaf: &Leaf) -> Result<(), AllocError>
    ensures { OnOk result (string_bytes text.new ≡ string_bytes text.old ++ leaf_head leaf.now) }
{
    if leaf.empty {
        text.push_str("empty")?;
        return Ok(());
    }
    let denom = leaf.denom;
    write!(text, "leaf {denom}")?;
    Ok(())
}

/// Adds the line of a leaf.
fn add_leaf(text: &mut String, leaf: &Leaf) -> Result<(), AllocError>
    ensures text { OnOk result (string_bytes text.new ≡ string_bytes text.old ++ leaf_text leaf.now) }
    ensures fits { OnOk result (FitsLeaf leaf.now) }
{
    let _denom = leaf.denom;
    add_head(text, leaf)?;
    add_weights(text, leaf.weights.as_slice())?;
    text.push_str("\n")?;
    Ok(())
}

/// Adds the line of a node of a tree.
fn add_node(text: &mut String, node: &Node) -> Result<(), AllocError>
    ensures text { OnOk result (string_bytes text.new ≡ string_bytes text.old ++ node_text node.now) }
    ensures fits { OnOk result (FitsNode node.now) }
{
    match node {
        Node::Split { column, at } => {
            let column = *column;
            let at = *at;
            write!(text, "split {column} {at}\n")?;
            Ok(())
        }
        Node::End(leaf) => add_leaf(text, leaf),
    }
}

/// Adds the lines of a tree.
fn add_tree(text: &mut String, tree: &[Node]) -> Result<(), AllocError>
    ensures text { OnOk result (string_bytes text.new ≡ string_bytes text.old ++ flat_map node_text tree.now) }
    ensures fit { OnOk result (AllByRecursion FitsNode tree.now) }
{
    for node in tree {
        add_node(text, node)?;
    }
    Ok(())
}

/// The text of a certificate: its lines from `bound` to `end`.
pub fn print_certificate(alloc: Global, certificate: &Certificate) -> Result<Vec<u8>, AllocError>
    ensures text { IfOk result (λ text. text.items ≡ certificate_text certificate.now) }
    // So `read_certificate` reads it back.
    ensures fits { OnOk result (Fits certificate.now) }
{
    let bound = certificate.bound;
    let reached = certificate.reached;
    let mut text = format!(in alloc; "bound {bound}\nreached {reached}\n")?;
    add_counts(&mut text, certificate.counts.as_slice())?;
    add_tree(&mut text, certificate.tree.as_slice())?;
    text.push_str("end\n")?;
    Ok(text.into_bytes())
}
