//! Sort keys by rows that a caller keeps.
//!
//! Who compares many texts of few characters by one table has the rows of these characters once, and needs no ranks of the whole
//! table for their keys.

ghost use Rattle.std.specs.Prelude.{◌≡◌, ◌≤◌, ℕ, List, length, IfOk};
ghost use Rattle.coll_nodes.specs.TableLayout.{collation};
ghost use Rattle.coll_key.specs.RowKeys.{AreRowsOf};
ghost use Rattle.coll_key.specs.SortKey.{key_of};

use crate::keys::key_of_rows;
use coll_ranks::{CompiledWeights, ElementRow};
use coll_table::Table;
use std::alloc::{AllocError, Global};

/// The sort key of a text by a table, the same as `key` makes, where the elements of the text have these rows among compiled weights.
///
/// The weights must have the numbers of the table as it stands.
pub fn key_by_rows(
    alloc: Global,
    table: &Table,
    weights: &CompiledWeights,
    rows: &[ElementRow],
) -> Result<Vec<u64>, AllocError>
    requires { length rows.now ≤ 65_536 }
    ensures { IfOk result (λ key. (text : List ℕ) → AreRowsOf (collation table.now) text weights.now rows.now
        → key.items ≡ key_of (collation table.now) text) }
{
    let key = key_of_rows(alloc, weights, table.rules(), rows)?;
    Ok(key)
}
