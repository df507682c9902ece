//! The line at the front of bytes.

ghost use Rattle.std.specs.Prelude.{◌≡◌, ℕ, List, IfOk, IfSome, Some, option_map};
ghost use Rattle.ipet_program.specs.declared.certificate.Count.{Count};
ghost use Rattle.ipet_program.specs.declared.certificate.Node.TheVariants.{Split};
ghost use Rattle.cert_check.specs.declared.line.Line.{Line};
ghost use Rattle.cert_check.specs.declared.line.Line.TheVariants.{Bound, Reached, Value, Tree, Last};
ghost use Rattle.cert_check.specs.Lines.{TakesLine};

use crate::leaves::{bound_leaf_at, empty_leaf_at};
use crate::line::Line;
use crate::numbers::field_at;
use crate::words::after;
use ipet_program::{Count, Node};
use std::alloc::{AllocError, Global};

fn bound_at(bytes: &[u8]) -> Option<(Line, &[u8])>
    ensures takes { IfSome result (λ r. TakesLine bytes.now r.0 r.1.now) }
    ensures again { (bound : ℕ) (rest : List ℕ) → TakesLine bytes.now (Bound bound) rest →
        option_map {U = Line × List ℕ} (λ r. (r.0, r.1.now)) result ≡ Some (Bound bound, rest) }
{
    let rest = after(bytes, b"bound ")?;
    let (bound, rest) = field_at(rest, b'\n')?;
    Some((Line::Bound(bound), rest))
}

fn reached_at(bytes: &[u8]) -> Option<(Line, &[u8])>
    ensures takes { IfSome result (λ r. TakesLine bytes.now r.0 r.1.now) }
    ensures again { (reached : ℕ) (rest : List ℕ) → TakesLine bytes.now (Reached reached) rest →
        option_map {U = Line × List ℕ} (λ r. (r.0, r.1.now)) result ≡ Some (Reached reached, rest) }
{
    let rest = after(bytes, b"reached ")?;
    let (reached, rest) = field_at(rest, b'\n')?;
    Some((Line::Reached(reached), rest))
}

fn value_at(bytes: &[u8]) -> Option<(Line, &[u8])>
    ensures takes { IfSome result (λ r. TakesLine bytes.now r.0 r.1.now) }
    ensures again { (count : Count) (rest : List ℕ) → TakesLine bytes.now (Value count) rest →
        option_map {U = Line × List ℕ} (λ r. (r.0, r.1.now)) result ≡ Some (Value count, rest) }
{
    let rest = after(bytes, b"value ")?;
    let (column, rest) = field_at(rest, b' ')?;
    let column = u32::try_from(column).ok()?;
    let (number, rest) = field_at(rest, b'\n')?;
    Some((Line::Value(Count { column, number }), rest))
}

fn split_at(bytes: &[u8]) -> Option<(Line, &[u8])>
    ensures takes { IfSome result (λ r. TakesLine bytes.now r.0 r.1.now) }
    ensures again { (column at : ℕ) (rest : List ℕ) → TakesLine bytes.now (Tree (Split column at)) rest →
        option_map {U = Line × List ℕ} (λ r. (r.0, r.1.now)) result ≡ Some (Tree (Split column at), rest) }
{
    let rest = after(bytes, b"split ")?;
    let (column, rest) = field_at(rest, b' ')?;
    let column = u32::try_from(column).ok()?;
    let (at, rest) = field_at(rest, b'\n')?;
    Some((Line::Tree(Node::Split { column, at }), rest))
}

fn last_at(bytes: &[u8]) -> Option<(Line, &[u8])>
    ensures takes { IfSome result (λ r. TakesLine bytes.now r.0 r.1.now) }
    ensures again { (rest : List ℕ) → TakesLine bytes.now Last rest →
        option_map {U = Line × List ℕ} (λ r. (r.0, r.1.now)) result ≡ Some (Last, rest) }
{
    let rest = after(bytes, b"end\n")?;
    Some((Line::Last, rest))
}

/// The line at the front of bytes, and what stands behind it.
pub fn line_at(alloc: Global, bytes: &[u8]) -> Result<Option<(Line, &[u8])>, AllocError>
    ensures takes { IfOk result (λ o. IfSome o (λ r. TakesLine bytes.now r.0 r.1.now)) }
    ensures again { IfOk result (λ o. (line : Line) (rest : List ℕ) → TakesLine bytes.now line rest →
        option_map {U = Line × List ℕ} (λ r. (r.0, r.1.now)) o ≡ Some (line, rest)) }
{
    match bytes {
        [b'b', ..] => Ok(bound_at(bytes)),
        [b'r', ..] => Ok(reached_at(bytes)),
        [b'v', ..] => Ok(value_at(bytes)),
        [b's', ..] => Ok(split_at(bytes)),
        [b'l', ..] => match bound_leaf_at(alloc, bytes)? {
            Some((leaf, rest)) => Ok(Some((Line::Tree(Node::End(leaf)), rest))),
            None => Ok(None),
        },
        [b'e', b'm', ..] => match empty_leaf_at(alloc, bytes)? {
            Some((leaf, rest)) => Ok(Some((Line::Tree(Node::End(leaf)), rest))),
            None => Ok(None),
        },
        [b'e', ..] => Ok(last_at(bytes)),
        _ => Ok(None),
    }
}
