//! Which units can return: those from which a return unit is come to without leaving the function.

ghost use Rattle.std.specs.Prelude.{◌≡◌, ◌↔◌, ◌+◌, ◌<◌, ◌^◌, ◌∷◌, [], ℕ, All, Contains, IfOk, IsTrue, OnOk, length};
ghost use Rattle.std.specs.List.Sorted.{IsNonDecreasingBy};
ghost use Rattle.elf_mips.specs.declared.image.Image.{Image};
ghost use Rattle.unit_graph.specs.Rows.{AreRows, HaveImage, IsRow, OfTheirImage, ShareImage};
ghost use Rattle.unit_graph.specs.Search.{Sees};
ghost use Rattle.unit_graph.specs.Inference.{Adds, AreReturning, AreRules, Infers, IsCallRule, IsEnd, IsMetBy};
ghost use Rattle.unit_graph.specs.Inference.{IsOnwardRule, IsRuleOf, IsTried, returns_at};

use crate::rows::Row;
use crate::search::{has, see};
use code_units::returns;
use net_model::Content;
use std::alloc::{AllocError, Global};
use std::collections::BTreeSet;

/// The unit at `then` can return where the one at `given` can, and the one at `other`, if there is one.
#[derive(Clone, Copy, Debug)]
pub struct Rule {
    pub given: u32,
    pub other: Option<u32>,
    pub then: u32,
}

/// Whether there is no other one, or it can return.
fn is_met(other: Option<u32>, returning: &BTreeSet<u32>) -> bool
    ensures { IsTrue result ↔ IsMetBy other returning.now.keys }
{
    match other {
        None => true,
        Some(address) => has(returning, address),
    }
}

/// Applies a rule whose first condition holds.
fn try_rule(
    rule: Rule,
    returning: &mut BTreeSet<u32>,
    waiting: &mut Vec<u32>,
) -> Result<(), AllocError>
    ensures { OnOk result (IsTried rule returning.old.keys waiting.old.items returning.new.keys waiting.new.items) }
{
    if !is_met(rule.other, returning) {
        return Ok(());
    }
    see(rule.then, returning, waiting)?;
    Ok(())
}

/// The rules of an address, by two searches.
fn rules_at(rules: &[Rule], address: u32) -> &[Rule]
    requires { IsNonDecreasingBy (λ rule. rule.given) rules.now }
    ensures within { All (Contains rules.now) result.now }
    ensures sound { All (λ rule. rule.given ≡ address) result.now }
    ensures whole { All (λ rule. rule.given ≡ address → Contains result.now rule) rules.now }
{
    let from = rules.partition_point(|rule| rule.given < address);
    let to = rules.partition_point(|rule| rule.given <= address);
    let (_, rest) = rules.split_at(from);
    let (found, _) = rest.split_at(to - from);
    found
}

/// Applies some rules whose first condition holds.
fn try_rules(
    rules: &[Rule],
    returning: &mut BTreeSet<u32>,
    waiting: &mut Vec<u32>,
) -> Result<(), AllocError>
    ensures { OnOk result (Infers rules.now returning.old.keys waiting.old.items returning.new.keys waiting.new.items) }
{
    for rule in rules {
        try_rule(*rule, returning, waiting)?;
    }
    Ok(())
}

/// Adds the rules of the ways of the unit at an address.
fn add_onward(address: u32, onward: &[u32], rules: &mut Vec<Rule>) -> Result<(), AllocError>
    ensures { OnOk result (Adds (IsOnwardRule address onward.now) rules.old.items rules.new.items) }
{
    for later in onward {
        rules.push(Rule {
            given: *later,
            other: None,
            then: address,
        })?;
    }
    Ok(())
}

/// Adds the two rules of a function that the unit at an address calls.
fn add_call(address: u32, callee: u32, rules: &mut Vec<Rule>) -> Result<(), AllocError>
    requires { address + 8 < 2 ^ 32 }
    ensures { OnOk result (Adds (IsCallRule address (callee ∷ [])) rules.old.items rules.new.items) }
{
    let behind = address + 8;
    rules.push(Rule {
        given: callee,
        other: Some(behind),
        then: address,
    })?;
    rules.push(Rule {
        given: behind,
        other: Some(callee),
        then: address,
    })?;
    Ok(())
}

/// Adds the rules of the functions that the unit at an address calls.
fn add_calls(address: u32, calls: &[u32], rules: &mut Vec<Rule>) -> Result<(), AllocError>
    requires { 0 < length calls.now → address + 8 < 2 ^ 32 }
    ensures { OnOk result (Adds (IsCallRule address calls.now) rules.old.items rules.new.items) }
{
    for callee in calls {
        add_call(address, *callee, rules)?;
    }
    Ok(())
}

/// Adds the rules of a row.
fn add_rules(row: &Row, rules: &mut Vec<Rule>) -> Result<(), AllocError>
    requires { 0 < length row.now.calls → row.now.address + 8 < 2 ^ 32 }
    ensures { OnOk result (Adds (IsRuleOf row.now) rules.old.items rules.new.items) }
{
    add_onward(row.address, row.onward.as_slice(), rules)?;
    add_calls(row.address, row.calls.as_slice(), rules)?;
    Ok(())
}

/// The rules of the rows, by the addresses of their first conditions.
fn rules_of(alloc: Global, rows: &[Row]) -> Result<Vec<Rule>, AllocError>
    requires { ShareImage rows.now }
    ensures { IfOk result (λ rules. AreRules rows.now rules.items) }
{
    let mut rules = Vec::new(alloc);
    for row in rows {
        add_rules(row, &mut rules)?;
    }
    rules.sort_by_key(|rule| rule.given)?;
    Ok(rules)
}

/// Whether a return unit stands there.
fn returns_at(content: &Content) -> bool
    ensures { result ≡ returns_at content.now }
{
    match content {
        Content::Unit(unit) => returns(unit),
        Content::Fault { .. } => false,
    }
}

/// Sees a row's unit where it returns.
fn see_end(
    row: &Row,
    returning: &mut BTreeSet<u32>,
    waiting: &mut Vec<u32>,
) -> Result<(), AllocError>
    ensures { OnOk result (Sees (IsEnd (row.now ∷ []))
        returning.old.keys waiting.old.items returning.new.keys waiting.new.items) }
{
    if !returns_at(&row.content) {
        return Ok(());
    }
    see(row.address, returning, waiting)?;
    Ok(())
}

/// Sees the units that return.
fn see_ends(
    rows: &[Row],
    returning: &mut BTreeSet<u32>,
    waiting: &mut Vec<u32>,
) -> Result<(), AllocError>
    ensures { OnOk result (Sees (IsEnd rows.now)
        returning.old.keys waiting.old.items returning.new.keys waiting.new.items) }
{
    for row in rows {
        see_end(row, returning, waiting)?;
    }
    Ok(())
}

/// Those of the rows' addresses from which a function that begins there can return.
///
/// Each rule is looked at once, so it takes time in proportion to the rules times their logarithm.
pub fn returning_of(alloc: Global, rows: &[Row]) -> Result<BTreeSet<u32>, AllocError>
    requires { HaveImage rows.now }
    ensures { IfOk result (λ returning.
        OfTheirImage rows.now (λ image entry. AreReturning image rows.now returning.keys)) }
{
    let rules = rules_of(alloc, rows)?;
    let mut returning = BTreeSet::new(alloc);
    let mut waiting = Vec::new(alloc);
    see_ends(rows, &mut returning, &mut waiting)?;
    while let Some(address) = waiting.pop() {
        try_rules(rules_at(&rules, address), &mut returning, &mut waiting)?;
    }
    Ok(returning)
}
