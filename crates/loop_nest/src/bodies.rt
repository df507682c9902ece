//! The bodies of headers, and the innermost header of each position.

ghost use Rattle.std.specs.Prelude.{◌≡◌, ℕ, ◌<◌, All, List, length, replicate, None, Some, IfOk, OnOk, IfSome, Option};
ghost use Rattle.loop_nest.specs.Bodies.{AreBelow, AreInner, AreNoted, IsBody, IsLesser};
ghost use Rattle.step_table.specs.Listing.{AreUnmarked};
ghost use Rattle.step_table.specs.Search.{AreApart};
ghost use Rattle.step_table.specs.Table.{IsWithin};

use std::alloc::{AllocError, Global};
use step_table::{list_met, steps_at};
use wcet_io::List;

/// The positions of the body of a header, whose back arcs come from the sources; no position is marked.
pub fn body_of(
    alloc: Global,
    reverse: &[List<usize>],
    sources: &[usize],
    header: usize,
    marks: &mut [bool],
) -> Result<Vec<usize>, AllocError>
    requires within { IsWithin reverse.now }
    requires sources { All (λ source. source < length reverse.now) sources.now }
    requires header { header < length reverse.now }
    requires unmarked { AreUnmarked (length reverse.now) marks.old }
    ensures body { IfOk result (λ body. IsBody reverse.now sources.now header body.items) }
    ensures unmarked { OnOk result (AreUnmarked (length reverse.now) marks.new) }
{
    let mut body = list_met(alloc, reverse, sources, header, marks)?;
    body.push(header)?;
    Ok(body)
}

/// The one of two headers with the lesser rank, which is the inner one.
fn lesser(ranks: &[usize], header: usize, before: Option<usize>) -> usize
    requires header { header < length ranks.now }
    requires before { IfSome before (λ other. other < length ranks.now) }
    ensures { IsLesser ranks.now header before (Some result) }
{
    match before {
        Some(other) if ranks[other] < ranks[header] => other,
        _ => header,
    }
}

/// A header notes itself at the positions of its body where no header of lesser rank stands.
fn note(body: &[usize], ranks: &[usize], header: usize, innermost: &mut [Option<usize>])
    requires apart { AreApart body.now }
    requires body { All (λ position. position < length innermost.old) body.now }
    requires header { header < length ranks.now }
    requires below { AreBelow (length ranks.now) innermost.old }
    ensures { AreNoted body.now ranks.now header innermost.old innermost.new }
{
    for position in body {
        innermost[*position] = Some(lesser(ranks, header, innermost[*position]));
    }
}

/// Each header notes itself, one after another; nothing is noted or marked yet.
fn note_all(
    alloc: Global,
    reverse: &[List<usize>],
    sources: &[List<usize>],
    ranks: &[usize],
    marks: &mut [bool],
    innermost: &mut [Option<usize>],
) -> Result<(), AllocError>
    requires within { IsWithin reverse.now }
    requires sources { IsWithin sources.now }
    requires count { length sources.now ≡ length reverse.now }
    requires ranks { length ranks.now ≡ length reverse.now }
    requires unmarked { AreUnmarked (length reverse.now) marks.old }
    requires new { innermost.old ≡ replicate (length reverse.now) None }
    ensures { OnOk result (AreInner reverse.now sources.now ranks.now (length reverse.now) innermost.new) }
{
    for header in 0..sources.len() {
        let from = steps_at(sources, header);
        if from.is_empty() {
            continue;
        }
        let body = body_of(alloc, reverse, from, header, marks)?;
        note(&body, ranks, header, innermost);
    }
    Ok(())
}

/// For each position the innermost header that holds it, in time in proportion to the bodies.
pub fn innermost_of(
    alloc: Global,
    reverse: &[List<usize>],
    sources: &[List<usize>],
    ranks: &[usize],
) -> Result<Vec<Option<usize>>, AllocError>
    requires within { IsWithin reverse.now }
    requires sources { IsWithin sources.now }
    requires count { length sources.now ≡ length reverse.now }
    requires ranks { length ranks.now ≡ length reverse.now }
    ensures { IfOk result (λ innermost.
        AreInner reverse.now sources.now ranks.now (length reverse.now) innermost.items) }
{
    let mut marks = vec![in alloc; false; reverse.len()]?;
    let mut innermost = vec![in alloc; None; reverse.len()]?;
    note_all(alloc, reverse, sources, ranks, &mut marks, &mut innermost)?;
    Ok(innermost)
}
