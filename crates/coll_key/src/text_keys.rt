//! Sort keys and comparison of short texts, without the ranks of the whole table.
//!
//! What a text meets of a table is looked up for the text alone, so a changed table costs nothing but new numbers of its entries.
//! For many texts or long ones `Ranks` serve better: they are the simple form (`keys`, `comparison`), and both have the clauses `key_of`
//! and `order_of`. `KeptRanks` of coll_bench chooses between the two, by how many characters were looked up since the last change.

ghost use Rattle.std.specs.Prelude.{◌≡◌, ◌≢◌, ◌||◌, chars, map, true, false, IfOk, IfErr};
ghost use Rattle.coll_nodes.specs.NodeNumbers.{AreNumbersOf};
ghost use Rattle.coll_nodes.specs.TableLayout.{collation};
ghost use Rattle.coll_ranks.specs.LevelWeights.{row_of};
ghost use Rattle.coll_key.specs.KeyLimits.{is_too_long};
ghost use Rattle.coll_key.specs.SortKey.{key_of};
ghost use Rattle.coll_key.specs.TextOrder.{order_of};
ghost use Rattle.coll_key.specs.WrittenKey.{has_key_form};
ghost use Rattle.coll_key.specs.declared.key_faults.KeyFault.TheVariants.{OutOfMemory};

use crate::key_faults::KeyFault;
use crate::keys::{key_of_rows, keys_are_ordered_as_texts};
use crate::limits::is_too_long;
use coll_lookups::EntryNumbers;
use coll_ranks::{CompiledWeights, ElementRow, TextElement, TextWeights};
use coll_table::Table;
use std::alloc::{AllocError, Global};
use std::cmp::Ordering;

/// The sort key of a text, the same as `key` makes: for each level its list of numbers, followed by 0.
///
/// A text of more than `MOST_TEXT_CHARACTERS` characters has none. The numbers must be those of the table's entries as it stands:
/// after an `apply` or a `flip` they are to be given anew.
pub fn key_of_text(
    alloc: Global,
    table: &Table,
    numbers: &EntryNumbers,
    text: &str,
) -> Result<Vec<u64>, KeyFault>
    requires { AreNumbersOf numbers.now table.now.layout }
    ensures ok { IfOk result (λ key. key.items ≡ key_of (collation table.now) (chars text.now)) }
    ensures form { IfOk result (λ key. has_key_form (collation table.now).rules key.items ≡ true) }
    ensures short { IfOk result (λ _. is_too_long (chars text.now) ≡ false) }
    ensures err { IfErr result (λ fault. fault ≢ OutOfMemory → is_too_long (chars text.now) ≡ true) }
    ensures memory { IfErr result (λ fault. fault ≡ OutOfMemory → is_too_long (chars text.now) ≡ false) }
{
    if is_too_long(text) {
        return Err(KeyFault::TextTooLong);
    }
    table.lemma_well_formed();
    let key = short_key(alloc, table, numbers, text)?;
    Ok(key)
}

/// The order of two texts by a table, the same as `compare` tells, by the keys of both.
///
/// Where either has more than `MOST_TEXT_CHARACTERS` characters there is none. The numbers must be those of the table's entries as
/// it stands: after an `apply` or a `flip` they are to be given anew.
pub fn compare_texts(
    alloc: Global,
    table: &Table,
    numbers: &EntryNumbers,
    text: &str,
    other: &str,
) -> Result<Ordering, KeyFault>
    requires { AreNumbersOf numbers.now table.now.layout }
    ensures ok { IfOk result (λ order. order ≡ order_of (collation table.now) (chars text.now) (chars other.now)) }
    ensures short { IfOk result (λ _. (is_too_long (chars text.now) || is_too_long (chars other.now)) ≡ false) }
    ensures err { IfErr result (λ fault. fault ≢ OutOfMemory → (is_too_long (chars text.now) || is_too_long (chars other.now)) ≡ true) }
    ensures memory { IfErr result (λ fault. fault ≡ OutOfMemory → (is_too_long (chars text.now) || is_too_long (chars other.now)) ≡ false) }
{
    if is_too_long(text) {
        return Err(KeyFault::TextTooLong);
    }
    if is_too_long(other) {
        return Err(KeyFault::TextTooLong);
    }
    table.lemma_well_formed();
    keys_are_ordered_as_texts();
    let key = short_key(alloc, table, numbers, text)?;
    let other_key = short_key(alloc, table, numbers, other)?;
    Ok(key.cmp(&other_key))
}

// The sort key of a text that isn't too long.
fn short_key(
    alloc: Global,
    table: &Table,
    numbers: &EntryNumbers,
    text: &str,
) -> Result<Vec<u64>, AllocError>
    requires numbers { AreNumbersOf numbers.now table.now.layout }
    requires short { is_too_long (chars text.now) ≡ false }
    ensures { IfOk result (λ key. key.items ≡ key_of (collation table.now) (chars text.now)) }
{
    let made = TextWeights::new(alloc, table, numbers, text)?;
    let weights = made.weights();
    let rows = rows_of(alloc, weights, made.elements())?;
    key_of_rows(alloc, weights, table.rules(), &rows)
}

// The rows of elements.
fn rows_of(
    alloc: Global,
    weights: &CompiledWeights,
    elements: &[TextElement],
) -> Result<Vec<ElementRow>, AllocError>
    ensures { IfOk result (λ rows. rows.items ≡ map (row_of weights.now) elements.now) }
{
    elements
        .iter()
        .map(|element| weights.row(*element))
        .collect(alloc)
}
