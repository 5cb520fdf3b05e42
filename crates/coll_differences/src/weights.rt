//! The entries that two tables have, with other weights in the second.
//!
//! They are told in the order of the second table, whether or not the entry has moved.

ghost use Rattle.std.specs.Prelude.{◌≡◌, map, option_copied, IfOk};
ghost use Rattle.coll_nodes.specs.Table.{entries_of};
ghost use Rattle.coll_nodes.specs.TableLayout.{collation};
ghost use Rattle.coll_nodes.specs.WalkItems.{visited_by};
ghost use Rattle.coll_differences.specs.Weights.{all_reweighted, is_reweighted, reweighted_visited};

use crate::sameness::has_same_weights;
use coll_table::{Entry, Table, WalkItem};
use std::alloc::{AllocError, Global};

/// The entries of the second table that the first has too, with other weights.
pub(crate) fn reweighted_entries<'a>(
    alloc: Global,
    first: &Table,
    second: &'a Table,
) -> Result<Vec<&'a Entry>, AllocError>
    ensures { IfOk result (λ found.
        map (λ entry. entry.now) found.items ≡ all_reweighted (entries_of (collation first.now)) (entries_of (collation second.now))) }
{
    let mut found = Vec::new(alloc);
    let mut left = second.walk();
    'reweighted: while let Some(item) = left.next() {
        if let Some(entry) = if_reweighted(first, item) {
            found.push(entry)?;
        }
    }
    Ok(found)
}

// The entry that is visited, if the first table has it with other weights.
fn if_reweighted<'a>(first: &Table, item: WalkItem<'a>) -> Option<&'a Entry>
    ensures { option_copied result ≡ reweighted_visited (entries_of (collation first.now)) (visited_by item.entry) }
{
    match item {
        WalkItem::Section(_) => None,
        WalkItem::Entry(entry) => {
            if is_reweighted_entry(first, entry) {
                Some(entry)
            } else {
                None
            }
        }
    }
}

// Whether the first table has an entry with other weights.
fn is_reweighted_entry(first: &Table, entry: &Entry) -> bool
    ensures { result ≡ is_reweighted (entries_of (collation first.now)) entry.now }
{
    match first.entry(entry.id()) {
        Some(found) => !has_same_weights(found.weights(), entry.weights()),
        None => false,
    }
}
