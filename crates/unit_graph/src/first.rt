//! The first fault of the code that is reached.

ghost use Rattle.std.specs.Prelude.{◌≡◌, ℕ, ◌<◌, ◌≤◌, ◌⊎◌, All, IsTrue, Option, false};
ghost use Rattle.net_model.specs.Faults.{rank};
ghost use Rattle.net_model.specs.declared.unit.Content.{Content};

use net_model::{CodeKind, Content};

/// A fault with its place.
#[derive(Clone, Copy, Debug, PartialEq, Eq)]
pub struct Offence {
    pub kind: CodeKind,
    pub place: u32,
}

ghost use Rattle.unit_graph.specs.Firsts.{Follows, IsAmong, IsFaultOf, IsNoEarlier};

/// The rank of a kind: of several kinds the one of the least rank is answered.
fn rank(kind: CodeKind) -> u32
    ensures { result ≡ rank kind }
{
    match kind {
        CodeKind::WritableCode => 0,
        CodeKind::UnknownWord => 1,
        CodeKind::TransferInSlot => 2,
        CodeKind::UnknownTarget => 3,
        CodeKind::LinkRegister => 4,
        CodeKind::Recursion => 5,
        CodeKind::Irreducible => 6,
        CodeKind::NoBound => 7,
    }
}

/// Whether one fault comes before another one: by its kind, then by its place.
fn comes_before(offence: Offence, other: Offence) -> bool
    ensures before { IsTrue result → IsNoEarlier offence other.kind other.place }
    ensures behind { result ≡ false → IsNoEarlier other offence.kind offence.place }
{
    let own = rank(offence.kind);
    let others = rank(other.kind);
    own < others || own == others && offence.place < other.place
}

/// The first one of two faults: by its kind, then by its place.
pub fn earlier(offence: Offence, other: Offence) -> Offence
    ensures either { (result ≡ offence) ⊎ (result ≡ other) }
    ensures first { IsNoEarlier result offence.kind offence.place }
    ensures second { IsNoEarlier result other.kind other.place }
{
    if comes_before(offence, other) {
        offence
    } else {
        other
    }
}

/// The first one of a fault, if there is one, and of what stands at a further address.
fn first_of(first: Option<Offence>, content: Content) -> Option<Offence>
    ensures either { (result ≡ first) ⊎ IsFaultOf result content }
    ensures new { Follows result content }
    ensures old { (other : Content) → Follows first other → Follows result other }
{
    let (kind, place) = match content {
        Content::Unit(_) => return first,
        Content::Fault { kind, place } => (kind, place),
    };
    let offence = Offence { kind, place };
    match first {
        Some(first) => Some(earlier(first, offence)),
        None => Some(offence),
    }
}

/// The first fault of these contents, in one pass.
pub fn first_fault(contents: &[Content]) -> Option<Offence>
    ensures among { IsAmong result contents.now }
    ensures first { All (Follows result) contents.now }
{
    let mut first = None;
    for content in contents {
        first = first_of(first, *content);
    }
    first
}
