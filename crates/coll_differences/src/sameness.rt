//! Whether two tables are the same.
//!
//! They are where their rules, what they declare, and what a walk visits of them are the same, in order: nothing else is seen of a
//! table. None of this takes memory.

ghost use Rattle.std.specs.Prelude.{◌≡◌, ◌↔◌, IsTrue};
ghost use Rattle.coll_nodes.specs.TableLayout.{collation};
ghost use Rattle.coll_syntax.specs.Identifier.{same_id};
ghost use Rattle.coll_differences.specs.Sameness.{same_entry, same_list, same_rule, same_weight, same_weights};

use crate::walked_sameness::{is_same_declared, is_same_walk};
use coll_syntax::{Id, Rule, Weight};
use coll_table::{Entry, Table};

/// Whether two tables are the same: their rules, their declarations in order, and their sections with the entries and weights of each.
pub fn are_same(first: &Table, second: &Table) -> bool
    ensures { IsTrue result ↔ (collation first.now ≡ collation second.now) }
{
    first.lemma_well_formed();
    second.lemma_well_formed();
    if !has_same_rules(first, second) {
        return false;
    }
    if !is_same_declared(first.declared(), second.declared()) {
        return false;
    }
    is_same_walk(first.walk(), second.walk())
}

/// Whether two tables have the same rules.
pub(crate) fn has_same_rules(first: &Table, second: &Table) -> bool
    ensures { IsTrue result ↔ ((collation first.now).rules ≡ (collation second.now).rules) }
{
    are_same_rules(first.rules(), second.rules())
}

// Whether two lists of rules are the same.
fn are_same_rules(rules: &[Rule], others: &[Rule]) -> bool
    ensures { result ≡ same_list same_rule rules.now others.now }
{
    let mut left = others;
    for rule in rules {
        let Some((other, later)) = left.split_first() else {
            return false;
        };
        if !is_same_rule(*rule, *other) {
            return false;
        }
        left = later;
    }
    left.is_empty()
}

// Whether two rules are the same.
fn is_same_rule(rule: Rule, other: Rule) -> bool
    ensures { result ≡ same_rule rule other }
{
    if rule.backward != other.backward {
        return false;
    }
    rule.position == other.position
}

/// Whether two entries have the same identifier and the same weights.
pub(crate) fn is_same_entry(entry: &Entry, other: &Entry) -> bool
    ensures { result ≡ same_entry entry.now other.now }
{
    if !entry.id().is_same(other.id()) {
        return false;
    }
    has_same_weights(entry.weights(), other.weights())
}

/// Whether two lists of weights are the same.
pub(crate) fn has_same_weights(weights: &[Weight], others: &[Weight]) -> bool
    ensures { result ≡ same_weights weights.now others.now }
{
    let mut left = others;
    for weight in weights {
        let Some((other, later)) = left.split_first() else {
            return false;
        };
        if !is_same_weight(weight, other) {
            return false;
        }
        left = later;
    }
    left.is_empty()
}

// Whether two weights are the same.
fn is_same_weight(weight: &Weight, other: &Weight) -> bool
    ensures { result ≡ same_weight weight.now other.now }
{
    match (weight, other) {
        (Weight::Ignore, Weight::Ignore) => true,
        (Weight::Own, Weight::Own) => true,
        (Weight::Names(ids), Weight::Names(others)) => has_same_ids(ids.get(), others.get()),
        _ => false,
    }
}

// Whether two lists of identifiers are the same.
fn has_same_ids(ids: &[Id], others: &[Id]) -> bool
    ensures { result ≡ same_list same_id ids.now others.now }
{
    let mut left = others;
    for id in ids {
        let Some((other, later)) = left.split_first() else {
            return false;
        };
        if !id.is_same(other) {
            return false;
        }
        left = later;
    }
    left.is_empty()
}
