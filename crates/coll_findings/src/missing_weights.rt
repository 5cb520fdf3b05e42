//! Whether an order line gives weights for few of the levels.
//!
//! A level without a weight has the entry itself, as the last one mostly has in published tables. Where more are missing, the entry sorts
//! by its own place where others sort by what they are, which is seldom meant.

ghost use Rattle.std.specs.Prelude.{◌≡◌, length};
ghost use Rattle.coll_nodes.specs.TableLayout.{collation};
ghost use Rattle.coll_findings.specs.MissingWeights.{lacks_weights};

use coll_syntax::OrderLine;
use coll_table::Table;

/// Whether a line gives weights, and none for more levels of a table than the last.
pub fn lacks_weights(table: &Table, line: &OrderLine) -> bool
    ensures { result ≡ lacks_weights (length (collation table.now).rules) line.now }
{
    match &line.weights {
        Some(weights) => table.rules().len().saturating_sub(weights.get().len()) > 1,
        None => false,
    }
}
