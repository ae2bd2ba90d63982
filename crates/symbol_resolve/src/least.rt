//! The least name of those that break a rule.
ghost use Rattle.std.specs.Prelude.{◌≡◌, None, Some, List, ℕ, option_map, slice_get};
ghost use Rattle.std.specs.Borrow.{Bor};
ghost use Rattle.symbol_resolve.specs.declared.facts.Facts.{Facts};
ghost use Rattle.symbol_resolve.specs.Listed.{both, conflict, least_from, lesser, lesser_of, pairs};
ghost use Rattle.ir_tree.specs.NameOrder.{comes_before};

use crate::facts::Facts;
use indexmap::IndexMap;
use std::cmp::Ordering;

/// What holds of each name in modules that are linked.
#[derive(Clone, Copy, Debug, PartialEq, Eq)]
pub enum LinkRule {
    /// At most one module defines it externally.
    OneDefinition,
    /// It is a function in all modules, or a variable in all.
    OneKind,
}

/// A name that breaks a rule, with the two modules that do.
#[derive(Clone, Copy)]
pub(crate) struct Found<'a> {
    pub name: &'a [u8],
    pub first: u32,
    pub second: u32,
}

fn both(first: Option<u32>, second: Option<u32>) -> Option<(u32, u32)>
    ensures { result ≡ both first second }
{
    match (first, second) {
        (Some(first), Some(second)) => Some((first, second)),
        _ => None,
    }
}

/// The two modules that break the rule with a name.
fn conflict(rule: LinkRule, facts: &Facts) -> Option<(u32, u32)>
    ensures { result ≡ conflict rule facts.now }
{
    match rule {
        LinkRule::OneDefinition => both(facts.strong, facts.second),
        LinkRule::OneKind => both(facts.function, facts.variable),
    }
}

fn comes_before(name: &[u8], other: &[u8]) -> bool
    ensures { result ≡ comes_before name.now other.now }
{
    match name.cmp(other) {
        Ordering::Less => true,
        Ordering::Equal | Ordering::Greater => false,
    }
}

/// The one with the lesser name; the first of two that have the same.
fn lesser<'a>(best: Option<Found<'a>>, one: Found<'a>) -> Option<Found<'a>>
    ensures { option_map (λ k. (k.name.now, (k.first, k.second))) result ≡ lesser (option_map (λ k. (k.name.now, (k.first, k.second))) best.entry) (one.entry.name.now, (one.entry.first, one.entry.second)) }
{
    match best {
        None => Some(one),
        Some(other) => {
            if comes_before(one.name, other.name) {
                Some(one)
            } else {
                Some(other)
            }
        }
    }
}

/// The lesser of the best so far and a further name, if that one breaks the rule.
fn lesser_of<'a>(
    best: Option<Found<'a>>,
    name: &'a [u8],
    pair: Option<(u32, u32)>,
) -> Option<Found<'a>>
    ensures { option_map (λ k. (k.name.now, (k.first, k.second))) result ≡ lesser_of (option_map (λ k. (k.name.now, (k.first, k.second))) best.entry) name.entry.now pair }
{
    match pair {
        None => best,
        Some((first, second)) => {
            let one = Found {
                name,
                first,
                second,
            };
            lesser(best, one)
        }
    }
}

/// The least so far, with one more name of the table.
fn one_more<'a>(
    best: Option<Found<'a>>,
    table: &IndexMap<&'a [u8], Facts>,
    index: usize,
    rule: LinkRule,
) -> Option<Found<'a>>
    ensures { (e : Bor (List ℕ) × Facts) → slice_get table.entry.now.entries index ≡ Some e → option_map (λ k. (k.name.now, (k.first, k.second))) result ≡ lesser_of (option_map (λ k. (k.name.now, (k.first, k.second))) best.entry) e.0.now (conflict rule e.1) }
{
    match table.get_index(index) {
        None => best,
        Some(entry) => {
            let pair = conflict(rule, entry.1);
            lesser_of(best, *entry.0, pair)
        }
    }
}

/// Of the names that break the rule the one with the least bytes.
pub(crate) fn least<'a>(table: &IndexMap<&'a [u8], Facts>, rule: LinkRule) -> Option<Found<'a>>
    ensures { option_map (λ k. (k.name.now, (k.first, k.second))) result ≡ least_from rule None (pairs table.entry.now.entries) }
{
    let mut best = None;
    for i in 0..table.len() {
        best = one_more(best, table, i, rule);
    }
    best
}
