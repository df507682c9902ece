//! Which line may come after which.

ghost use Rattle.std.specs.Prelude.{◌≡◌, ◌<◌, ◌^◌};
ghost use Rattle.cert_check.specs.Order.{is_over, left_in, next, past_count, past_last, past_node};

use crate::line::Line;
use ipet_program::{Count, Node};

/// What may come after the lines so far.
#[derive(Clone, Copy, Debug)]
pub enum State {
    /// `bound`
    Begin,
    /// `reached`
    Bounded,
    /// A count of this column or a later one, or the tree.
    Counts { low: u64 },
    /// The first node of this many trees, or `end` where there are none to come.
    Trees { left: u64 },
    /// Nothing
    Ended,
}

/// The state after a count, where the columns begin with this one.
fn after_count(low: u64, count: &Count) -> Option<State>
    ensures { result ≡ past_count low count.now }
{
    let column = u64::from(count.column);
    if low <= column && 0 < count.number {
        Some(State::Counts { low: column + 1 })
    } else {
        None
    }
}

/// The state after a node, where this many trees are to come.
fn after_node(left: u64, node: &Node) -> Option<State>
    requires { left < 2 ^ 63 }
    ensures { result ≡ past_node left node.now }
{
    if left == 0 {
        return None;
    }
    match node {
        Node::Split { .. } => Some(State::Trees { left: left + 1 }),
        Node::End(_) => Some(State::Trees { left: left - 1 }),
    }
}

/// The state after `end`, where this many trees are to come.
fn after_last(left: u64) -> Option<State>
    ensures { result ≡ past_last left }
{
    if left == 0 { Some(State::Ended) } else { None }
}

/// The state after a line, if the line may come.
pub fn next(state: State, line: &Line) -> Option<State>
    requires { left_in state < 2 ^ 63 }
    ensures { result ≡ next state line.now }
{
    match state {
        State::Begin => match line {
            Line::Bound(_) => Some(State::Bounded),
            _ => None,
        },
        State::Bounded => match line {
            Line::Reached(_) => Some(State::Counts { low: 0 }),
            _ => None,
        },
        State::Counts { low } => match line {
            Line::Value(count) => after_count(low, count),
            Line::Tree(node) => after_node(1, node),
            _ => None,
        },
        State::Trees { left } => match line {
            Line::Tree(node) => after_node(left, node),
            Line::Last => after_last(left),
            _ => None,
        },
        State::Ended => None,
    }
}

/// Whether nothing may come any more.
pub fn is_ended(state: State) -> bool
    ensures { result ≡ is_over state }
{
    matches!(state, State::Ended)
}
