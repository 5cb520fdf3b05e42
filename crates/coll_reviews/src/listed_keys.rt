//! Words of a list are sorted by keys that are made for this alone.
//!
//! A list keeps no keys, since few words of it are sorted so: those that move among others, or all where many do and their order can't
//! be guessed. The keys stand beside the words while these are sorted, and are given up behind that.

ghost use Rattle.std.specs.Prelude.{◌≡◌, chars, map, IfOk, OnOk};
ghost use Rattle.std.specs.List.Sorted.{IsPermutation};
ghost use Rattle.coll_nodes.specs.Table.{Collation};
ghost use Rattle.coll_nodes.specs.TableLayout.{collation};
ghost use Rattle.coll_nodes.specs.WellFormed.{IsWellFormed};
ghost use Rattle.coll_key.specs.SortKey.{key_of};
ghost use Rattle.coll_reviews.specs.ListedKeys.{HaveKeys, word_of};
ghost use Rattle.coll_reviews.specs.ListedWords.{IsSortedAgain};
ghost use Rattle.coll_reviews.specs.MovedWords.{StandInOrder};
ghost use Rattle.coll_word_lists.specs.PackedKeys.{packed_key};
ghost use Rattle.coll_reviews.specs.WordOrders.{Serves};

use crate::listed_words::ListedWord;
use crate::word_orders::{WordOrder, key_of_word};
use coll_key::KeyFault;
use coll_table::Table;
use coll_word_lists::Word;
use std::alloc::{AllocError, Global};

/// A word of a list, with its key by a table.
#[derive(Drop)]
pub(crate) struct KeyedListed<'a> {
    /// The word of the list.
    pub listed: ListedWord<'a>,
    /// A word without a text that has the key.
    pub key: Word,
}

/// Sorts a list by a table, with a key for each word.
pub(crate) fn sort_with_keys(
    alloc: Global,
    table: &Table,
    order: &WordOrder<'_>,
    list: &mut Vec<ListedWord<'_>>,
) -> Result<(), KeyFault>
    requires { Serves order.now table.now }
    ensures { OnOk result (IsSortedAgain (collation table.now) list.old.items list.new.items) }
{
    let mut keyed = with_keys(alloc, table, order, list)?;
    table.lemma_well_formed();
    sort_keyed(&mut keyed)?;
    let sorted = without_keys(alloc, &keyed)?;
    drop(keyed);
    *list = sorted;
    Ok(())
}

// The words of a list, each with its key.
fn with_keys<'a>(
    alloc: Global,
    table: &Table,
    order: &WordOrder<'_>,
    list: &[ListedWord<'a>],
) -> Result<Vec<KeyedListed<'a>>, KeyFault>
    requires { Serves order.now table.now }
    ensures words { IfOk result (λ keyed. map word_of keyed.items ≡ list.now) }
    ensures keys { IfOk result (λ keyed. HaveKeys (collation table.now) keyed.items) }
{
    let mut keyed = Vec::with_capacity(alloc, list.len())?;
    for listed in list {
        let key = key_alone(alloc, table, order, listed.text)?;
        let listed = *listed;
        keyed.push(KeyedListed { listed, key })?;
    }
    Ok(keyed)
}

// The key of a text by a table, with no text.
fn key_alone(
    alloc: Global,
    table: &Table,
    order: &WordOrder<'_>,
    text: &str,
) -> Result<Word, KeyFault>
    requires { Serves order.now table.now }
    ensures { IfOk result (λ word. word.key ≡ packed_key (key_of (collation table.now) (chars text.now))) }
{
    let numbers = key_of_word(alloc, table, order, text)?;
    let word = Word::with_key(alloc, &numbers, "")?;
    Ok(word)
}

// Sorts words by their keys, and words with the same by their lines.
fn sort_keyed(keyed: &mut Vec<KeyedListed<'_>>) -> Result<(), AllocError>
    ensures same { IsPermutation keyed.old.items keyed.new.items }
    ensures sorted { OnOk result ((table : Collation) → IsWellFormed table → HaveKeys table keyed.old.items
        → StandInOrder table (map word_of keyed.new.items)) }
{
    keyed.sort_by(|one, other| {
        one.key
            .order(&other.key)
            .then(one.listed.line.cmp(&other.listed.line))
    })?;
    Ok(())
}

// The words of a list, without their keys.
fn without_keys<'a>(
    alloc: Global,
    keyed: &[KeyedListed<'a>],
) -> Result<Vec<ListedWord<'a>>, AllocError>
    ensures { IfOk result (λ list. list.items ≡ map word_of keyed.now) }
{
    keyed.iter().map(|one| one.listed).collect(alloc)
}
