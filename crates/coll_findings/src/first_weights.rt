//! What an entry weighs as at the first level, and whether a line of a block has it stand where it doesn't sort.
//!
//! What weighs as another there keeps its place in the order of texts wherever its own entry goes. And what weighs as itself sorts
//! at its own place, which is far from that of the entry before it where that one weighs as another. Entries that weigh as one which
//! stands behind them go along with it, and are passed; so many at most that a look is a fixed number of steps.

ghost use Rattle.std.specs.Prelude.{◌≡◌, Some, option_copied};
ghost use Rattle.coll_nodes.specs.Placement.{entry_at};
ghost use Rattle.coll_nodes.specs.Table.{entries_of};
ghost use Rattle.coll_nodes.specs.TableLayout.{collation};
ghost use Rattle.coll_findings.specs.FirstWeights.{comes_behind, first_weight, is_misplaced, is_symbol_there, lead_of, none_given, past, past_four, seems_to_sort, sorts_elsewhere, weighs_as, weighs_so};

use coll_syntax::{Id, OrderLine, Weight};
use coll_table::{Entry, Table};

/// What the entry of an identifier weighs as at the first level, if there is one, and its weight there begins with another than itself.
pub fn first_weight<'a>(table: &'a Table, id: &Id) -> Option<&'a Id>
    ensures { option_copied result ≡ first_weight (entry_at (entries_of (collation table.now)) id.now) }
{
    match table.entry(id) {
        Some(entry) => first_named(entry),
        None => None,
    }
}

/// What an entry weighs as at the first level: another, with which its weight there begins, or itself.
pub fn weighs_as(entry: &Entry) -> &Id
    ensures { result.now ≡ weighs_as entry.now }
{
    match first_named(entry) {
        Some(id) => id,
        None => entry.id(),
    }
}

/// The entry that stands before that of an identifier, past up to eight that weigh as it.
pub fn lead_of<'a>(table: &'a Table, id: &Id) -> Option<&'a Entry>
    ensures { option_copied result ≡ lead_of (entries_of (collation table.now)) id.now }
{
    let fifth = past_four(table, id, table.entry_before(id));
    past_four(table, id, fifth)
}

// An entry, or the one before it past up to four that weigh as an identifier.
fn past_four<'a>(table: &'a Table, weight: &Id, entry: Option<&'a Entry>) -> Option<&'a Entry>
    ensures { option_copied result ≡ past_four (entries_of (collation table.now)) weight.now (option_copied entry.entry) }
{
    let second = past(table, weight, entry);
    let third = past(table, weight, second);
    let fourth = past(table, weight, third);
    past(table, weight, fourth)
}

// An entry, or, where it weighs as an identifier, the one directly before it.
fn past<'a>(table: &'a Table, weight: &Id, entry: Option<&'a Entry>) -> Option<&'a Entry>
    ensures { option_copied result ≡ past (entries_of (collation table.now)) weight.now (option_copied entry.entry) }
{
    let Some(entry) = entry else {
        return None;
    };
    if weight.is_same(weighs_as(entry)) {
        return table.entry_before(entry.id());
    }
    Some(entry)
}

/// Whether a line of a block, over the table that it was put to, has its entry stand where it seems to sort and doesn't: it gives no
/// weights, or weighs as what itself weighs as another, or as itself behind what weighs as a symbol; and it doesn't sort behind what stands
/// before it (`lead_of`).
pub fn is_misplaced(table: &Table, line: &OrderLine) -> bool
    ensures { result ≡ is_misplaced (entries_of (collation table.now)) line.now }
{
    if line.weights.is_some() && !seems_to_sort(table, &line.id) {
        return false;
    }
    sorts_elsewhere(table, &line.id)
}

// Whether the entry of an identifier seems to sort where it stands: it weighs as what weighs as another itself, or as itself behind one
// that weighs as a symbol.
fn seems_to_sort(table: &Table, id: &Id) -> bool
    ensures { result ≡ seems_to_sort (entries_of (collation table.now)) (entry_at (entries_of (collation table.now)) id.now)
        (lead_of (entries_of (collation table.now)) id.now) }
{
    let Some(entry) = table.entry(id) else {
        return false;
    };
    match first_named(entry) {
        Some(weight) => match first_weight(table, weight) {
            Some(_) => true,
            None => false,
        },
        None => weighs_as_symbol(table, lead_of(table, id)),
    }
}

// Whether an entry, if there is one, weighs as a symbol at the first level: as another that has an entry without weights.
fn weighs_as_symbol(table: &Table, entry: Option<&Entry>) -> bool
    ensures { result ≡ is_symbol_there (entries_of (collation table.now)) (first_weight (option_copied entry.entry)) }
{
    let Some(entry) = entry else {
        return false;
    };
    let Some(weight) = first_named(entry) else {
        return false;
    };
    match table.entry(weight) {
        Some(symbol) => has_no_weights(symbol),
        None => false,
    }
}

// Whether an entry has no weights, as that of a collating symbol.
fn has_no_weights(entry: &Entry) -> bool
    ensures { result ≡ none_given entry.now.weights }
{
    match entry.weights() {
        [] => true,
        _ => false,
    }
}

// Whether the entry of an identifier doesn't sort behind what stands before it.
fn sorts_elsewhere(table: &Table, id: &Id) -> bool
    ensures { result ≡ sorts_elsewhere (entries_of (collation table.now)) id.now }
{
    let Some(entry) = table.entry(id) else {
        return false;
    };
    let Some(before) = lead_of(table, id) else {
        return false;
    };
    if let [Weight::Ignore, ..] = entry.weights() {
        return false;
    }
    !comes_behind(table, weighs_as(before), weighs_as(entry))
}

// Whether what weighs as an identifier sorts as what weighs as another at the first level, or behind it with nothing between.
fn comes_behind(table: &Table, before: &Id, weight: &Id) -> bool
    ensures { result ≡ comes_behind (entries_of (collation table.now)) before.now weight.now }
{
    if weight.is_same(before) {
        return true;
    }
    let Some(next) = table.entry_behind(before) else {
        return false;
    };
    if weight.is_same(next.id()) {
        return true;
    }
    match first_named(next) {
        Some(_) => weighs_so(before, lead_of(table, weight)),
        None => false,
    }
}

// Whether an entry, if there is one, weighs as this identifier.
fn weighs_so(id: &Id, entry: Option<&Entry>) -> bool
    ensures { result ≡ weighs_so id.now (option_copied entry.entry) }
{
    match entry {
        Some(entry) => id.is_same(weighs_as(entry)),
        None => false,
    }
}

// The first identifier that the weight of an entry at the first level names, if that is another than the entry itself.
fn first_named(entry: &Entry) -> Option<&Id>
    ensures { option_copied result ≡ first_weight (Some entry.now) }
{
    let [Weight::Names(ids), ..] = entry.weights() else {
        return None;
    };
    let [id, ..] = ids.get() else {
        return None;
    };
    if id.is_same(entry.id()) {
        return None;
    }
    Some(id)
}
