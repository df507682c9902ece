//! The printed texts.

ghost use Rattle.std.specs.Prelude.{◌≡◌, ◌++◌, flat_map, IfOk, OnOk};
ghost use Rattle.std.specs.String.{string_bytes};
ghost use Rattle.wcet_engine.specs.Texts.{certificate_text, count_text, leaf_head, leaf_text, lines_of, node_text};
ghost use Rattle.wcet_engine.specs.Texts.{refusal_text, spot_text, text_of, weight_text};

use crate::analysis::Analysis;
use crate::answer::Answer;
use crate::refusal::{Refusal, Spot};
use crate::words::Command;
use ipet_program::{Certificate, Count, Leaf, Node, Weight};
use std::alloc::{AllocError, Global};

/// A place as it is printed.
fn print_spot(alloc: Global, spot: &Spot) -> Result<Vec<u8>, AllocError>
    ensures { IfOk result (λ text. text.items ≡ spot_text spot.now) }
{
    match spot {
        Spot::Number(place) => Ok(format!(in alloc; "{place:08X}")?.into_bytes()),
        Spot::Key(path) => path.as_slice().to_vec(alloc),
    }
}

/// The line of a refusal.
fn print_refusal(alloc: Global, refusal: &Refusal) -> Result<Vec<u8>, AllocError>
    ensures { IfOk result (λ text. text.items ≡ refusal_text refusal.now) }
{
    let name = refusal.kind.name();
    let mut text = format!(in alloc; "refused {name} ")?.into_bytes();
    text.extend_from_slice(&print_spot(alloc, &refusal.spot)?)?;
    text.push(b'\n')?;
    Ok(text)
}

/// Adds the lines of counts.
fn add_counts(text: &mut String, counts: &[Count]) -> Result<(), AllocError>
    ensures { OnOk result (string_bytes text.new ≡ string_bytes text.old ++ flat_map count_text counts.now) }
{
    for count in counts {
        add_count(text, count)?;
    }
    Ok(())
}

/// Adds the line of a count.
fn add_count(text: &mut String, count: &Count) -> Result<(), AllocError>
    ensures { OnOk result (string_bytes text.new ≡ string_bytes text.old ++ count_text count.now) }
{
    let column = count.column;
    let number = count.number;
    write!(text, "value {column} {number}\n")?;
    Ok(())
}

/// Adds the multiplier of a row.
fn add_weight(text: &mut String, weight: &Weight) -> Result<(), AllocError>
    ensures { OnOk result (string_bytes text.new ≡ string_bytes text.old ++ weight_text weight.now) }
{
    let row = weight.row;
    let times = weight.times;
    write!(text, " {row}:{times}")?;
    Ok(())
}

/// Adds the multipliers of a leaf's rows.
fn add_weights(text: &mut String, weights: &[Weight]) -> Result<(), AllocError>
    ensures { OnOk result (string_bytes text.new ≡ string_bytes text.old ++ flat_map weight_text weights.now) }
{
    for weight in weights {
        add_weight(text, weight)?;
    }
    Ok(())
}

/// Adds how the line of a leaf begins.
fn add_head(text: &mut String, leaf: &Leaf) -> Result<(), AllocError>
    ensures { OnOk result (string_bytes text.new ≡ string_bytes text.old ++ leaf_head leaf.now) }
{
    if leaf.empty {
        text.push_str("empty")?;
        return Ok(());
    }
    let denom = leaf.denom;
    write!(text, "leaf {denom}")?;
    Ok(())
}

/// Adds the line of a leaf.
fn add_leaf(text: &mut String, leaf: &Leaf) -> Result<(), AllocError>
    ensures { OnOk result (string_bytes text.new ≡ string_bytes text.old ++ leaf_text leaf.now) }
{
    add_head(text, leaf)?;
    add_weights(text, leaf.weights.as_slice())?;
    text.push_str("\n")?;
    Ok(())
}

/// Adds the line of a node of a tree.
fn add_node(text: &mut String, node: &Node) -> Result<(), AllocError>
    ensures { OnOk result (string_bytes text.new ≡ string_bytes text.old ++ node_text node.now) }
{
    match node {
        Node::Split { column, at } => {
            write!(text, "split {column} {at}\n")?;
            Ok(())
        }
        Node::End(leaf) => add_leaf(text, leaf),
    }
}

/// Adds the lines of a tree.
fn add_tree(text: &mut String, tree: &[Node]) -> Result<(), AllocError>
    ensures { OnOk result (string_bytes text.new ≡ string_bytes text.old ++ flat_map node_text tree.now) }
{
    for node in tree {
        add_node(text, node)?;
    }
    Ok(())
}

/// The lines of a certificate.
fn print_certificate(alloc: Global, certificate: &Certificate) -> Result<String, AllocError>
    ensures { IfOk result (λ text. string_bytes text ≡ certificate_text certificate.now) }
{
    let bound = certificate.bound;
    let reached = certificate.reached;
    let mut text = format!(in alloc; "bound {bound}\nreached {reached}\n")?;
    add_counts(&mut text, certificate.counts.as_slice())?;
    add_tree(&mut text, certificate.tree.as_slice())?;
    text.push_str("end\n")?;
    Ok(text)
}

/// The lines of an analysis that a command asks for: those of both are the same so far.
fn print_analysis(
    alloc: Global,
    command: Command,
    analysis: &Analysis,
) -> Result<String, AllocError>
    ensures { IfOk result (λ text. string_bytes text ≡ lines_of command analysis.now) }
{
    match command {
        Command::Analyse => print_certificate(alloc, &analysis.certificate),
        Command::Bound => print_certificate(alloc, &analysis.certificate),
    }
}

/// The text of an answer to a command.
pub fn print_answer(alloc: Global, command: Command, answer: &Answer) -> Result<Vec<u8>, AllocError>
    ensures { IfOk result (λ text. text.items ≡ text_of command answer.now) }
{
    match answer {
        Answer::Analysed(analysis) => Ok(print_analysis(alloc, command, analysis)?.into_bytes()),
        Answer::Refused(refusal) => print_refusal(alloc, refusal),
    }
}
