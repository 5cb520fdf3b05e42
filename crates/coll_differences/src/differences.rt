//! All that differs between two tables.
//!
//! `difference` first looks whether the tables are the same, which takes no memory. What differs is gathered as lists that lend from the
//! tables, and written by `lines`.

ghost use Rattle.std.specs.Prelude.{◌≡◌, ◌↔◌, IfOk, IfSome, IsNone};
ghost use Rattle.coll_nodes.specs.TableLayout.{collation};
ghost use Rattle.coll_differences.specs.Differences.{AreDifferences, TellsRules};

use crate::changes::{Change, changes_between};
use crate::declarations::declarations_between;
use crate::sameness::{are_same, has_same_rules};
use crate::weights::reweighted_entries;
use coll_syntax::Rule;
use coll_table::{Entry, Table};
use std::alloc::{AllocError, Global};

/// What differs between a first table and a second.
#[derive(Drop)]
pub struct Differences<'a> {
    /// The rules of the second table, where they are others.
    pub rules: Option<&'a [Rule]>,
    /// What makes the declarations of the second of those of the first: removals, in the order of the first, and then additions and
    /// moves, in the order of the second.
    pub declarations: Vec<Change<'a>>,
    /// What makes the order of the second of that of the first, so too.
    pub changes: Vec<Change<'a>>,
    /// The entries that the first has with other weights, in the order of the second and as they are there.
    pub weights: Vec<&'a Entry>,
}

/// What differs between two tables; nothing where they are the same. It takes memory for lists of what they have.
///
/// As few points as can be are moved; no clause says so.
pub fn difference<'a>(
    alloc: Global,
    first: &'a Table,
    second: &'a Table,
) -> Result<Option<Differences<'a>>, AllocError>
    ensures same { IfOk result (λ told. IsNone told ↔ (collation first.now ≡ collation second.now)) }
    ensures differences { IfOk result (λ told. IfSome told (AreDifferences (collation first.now) (collation second.now))) }
{
    if are_same(first, second) {
        return Ok(None);
    }
    let told = all_differences(alloc, first, second)?;
    Ok(Some(told))
}

// What differs between two tables.
fn all_differences<'a>(
    alloc: Global,
    first: &'a Table,
    second: &'a Table,
) -> Result<Differences<'a>, AllocError>
    ensures { IfOk result (AreDifferences (collation first.now) (collation second.now)) }
{
    let declarations = declarations_between(alloc, first, second)?;
    let changes = changes_between(alloc, first, second)?;
    let weights = reweighted_entries(alloc, first, second)?;
    Ok(Differences {
        rules: other_rules(first, second),
        declarations,
        changes,
        weights,
    })
}

// The rules of the second table, where they are others than those of the first.
fn other_rules<'a>(first: &Table, second: &'a Table) -> Option<&'a [Rule]>
    ensures { TellsRules (collation first.now).rules (collation second.now).rules result }
{
    if has_same_rules(first, second) {
        None
    } else {
        Some(second.rules())
    }
}
