//! Sort keys.
//!
//! A key is made level by level from the rows of the text's elements, for which room is reserved first; behind the numbers of each
//! level stands a 0. That keys are ordered as their texts is a law over the definitions alone.

ghost use Rattle.std.specs.Prelude.{◌≡◌, ◌≢◌, ◌≤◌, ◌+◌, ◌*◌, chars, length, true, false, IfOk, IfErr};
ghost use Rattle.std.specs.List.{flat_map};
ghost use Rattle.coll_nodes.specs.TableLayout.{collation};
ghost use Rattle.coll_key.specs.KeyLimits.{is_too_long};
ghost use Rattle.coll_key.specs.LevelList.{level_lists_from};
ghost use Rattle.coll_ranks.specs.LevelWeights.{row_numbers};
ghost use Rattle.coll_ranks.specs.Ranks.{AreRanksOf, compiled_numbers, elements_by_ranks};
ghost use Rattle.coll_key.specs.SortKey.{ended, key_of, KeysAreOrderedAsTexts};
ghost use Rattle.coll_key.specs.WrittenKey.{has_key_form};
ghost use Rattle.coll_key.specs.declared.key_faults.KeyFault.TheVariants.{OutOfMemory};

use crate::element_rows::{kept_rows, put_rows};
use crate::key_faults::KeyFault;
use crate::levels::with_level;
use coll_ranks::{CompiledWeights, ElementRow, Ranks};
use coll_syntax::Rule;
use coll_table::Table;
use std::alloc::{AllocError, Global};

// Most bytes of a text whose rows stand on the stack, which spares a block of memory. Words have fewer.
const MOST_WORD_BYTES: usize = 16;

/// The sort key of a text: for each level its list of numbers, followed by 0.
///
/// A text of more than `MOST_TEXT_CHARACTERS` characters has none. The ranks must be those of the table as it stands: after an
/// `apply` or a `flip` that changes it, they are to be made anew.
pub fn key(alloc: Global, table: &Table, ranks: &Ranks, text: &str) -> Result<Vec<u64>, KeyFault>
    requires { AreRanksOf ranks.now (collation table.now) }
    ensures ok { IfOk result (λ key. key.items ≡ key_of (collation table.now) (chars text.now)) }
    ensures form { IfOk result (λ key. has_key_form (collation table.now).rules key.items ≡ true) }
    ensures short { IfOk result (λ _. is_too_long (chars text.now) ≡ false) }
    ensures err { IfErr result (λ fault. fault ≢ OutOfMemory → is_too_long (chars text.now) ≡ true) }
    ensures memory { IfErr result (λ fault. fault ≡ OutOfMemory → is_too_long (chars text.now) ≡ false) }
{
    table.lemma_well_formed();
    if text.len() <= MOST_WORD_BYTES {
        let key = key_of_word(alloc, ranks, table.rules(), text)?;
        return Ok(key);
    }
    let rows = kept_rows(alloc, ranks, text)?;
    let key = key_of_rows(alloc, ranks.weights(), table.rules(), &rows)?;
    Ok(key)
}

// The sort key of a text of few bytes, at levels with these rules. Its rows stand on the stack.
fn key_of_word(
    alloc: Global,
    ranks: &Ranks,
    rules: &[Rule],
    text: &str,
) -> Result<Vec<u64>, AllocError>
    requires { length text.now ≤ MOST_WORD_BYTES }
    ensures { IfOk result (λ key. key.items
        ≡ flat_map ended (level_lists_from rules.now 0 (compiled_numbers ranks.now.compiled)
        (elements_by_ranks ranks.now (chars text.now)))) }
{
    let mut rows = [ElementRow { first: 0, code: 0 }; MOST_WORD_BYTES];
    let count = put_rows(&mut rows[..], ranks, text);
    key_of_rows(alloc, ranks.weights(), rules, &rows[..count])
}

/// The sort key of a text whose elements have these rows, by compiled weights at levels with these rules.
pub(crate) fn key_of_rows(
    alloc: Global,
    weights: &CompiledWeights,
    rules: &[Rule],
    rows: &[ElementRow],
) -> Result<Vec<u64>, AllocError>
    requires few { length rows.now ≤ 65_536 }
    ensures { IfOk result (λ key. key.items ≡ flat_map ended (level_lists_from rules.now 0 (row_numbers weights.now) rows.now)) }
{
    let mut key = Vec::with_capacity(alloc, likely_numbers(rows.len(), rules.len()))?;
    for (level, rule) in rules.iter().enumerate() {
        key = with_level(key, weights, level, *rule, rows)?;
        key.push_reserved(0);
    }
    Ok(key)
}

/// The law of sort keys: they are ordered, as lists of numbers, as their texts are.
///
/// It does nothing; its contract is the law.
pub fn keys_are_ordered_as_texts()
    ensures { KeysAreOrderedAsTexts }
{}

// The numbers of a key whose weights name one identifier each, at most. A key of longer weights grows beyond that.
fn likely_numbers(elements: usize, levels: usize) -> usize
    ensures { result ≤ (elements * 2 + 1) * levels }
{
    elements
        .saturating_mul(2)
        .saturating_add(1)
        .saturating_mul(levels)
}
