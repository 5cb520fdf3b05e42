//! The rows of the elements of a text: those of a word are put into an array, those of a longer text kept in a list, which is the simple
//! form; the clause `rows` says the same of both.

ghost use Rattle.std.specs.Prelude.{◌≡◌, ◌≢◌, ◌≤◌, ℕ, chars, length, map, take, true, false, IfOk, IfErr, IfSome, MatchOption};
ghost use Rattle.coll_key.specs.KeyLimits.{is_too_long};
ghost use Rattle.coll_ranks.specs.LevelWeights.{row_of};
ghost use Rattle.coll_ranks.specs.Ranks.{elements_by_ranks};
ghost use Rattle.coll_key.specs.declared.key_faults.KeyFault.TheVariants.{OutOfMemory};

use crate::key_faults::KeyFault;
use crate::limits::{MOST_TEXT_CHARACTERS, is_too_long};
use coll_ranks::{ElementRow, Ranks};
use std::alloc::{AllocError, Global};

/// Puts the rows of the elements of a short text into an array that has as many places as the text has bytes, and tells how many
/// they are. It takes no memory.
pub(crate) fn put_rows(rows: &mut [ElementRow], ranks: &Ranks, text: &str) -> usize
    requires places { length text.now ≤ length rows.old }
    requires few { length rows.old ≤ 16 }
    ensures rows { take result rows.new ≡ map (row_of ranks.now.compiled) (elements_by_ranks ranks.now (chars text.now)) }
    ensures within { result ≤ length rows.new }
    ensures places { length rows.new ≡ length rows.old }
{
    let mut left = text;
    let mut count = 0;
    'elements: while let Some(first) = ranks.first_element(left) {
        rows[count] = ranks.weights().row(first.element);
        count += 1;
        left = first.rest;
    }
    count
}

/// The rows of the elements of a text that isn't too long.
///
/// Lack of memory hides no text that is too long: where memory is refused, the text is judged by itself.
pub(crate) fn kept_rows(
    alloc: Global,
    ranks: &Ranks,
    text: &str,
) -> Result<Vec<ElementRow>, KeyFault>
    ensures ok { IfOk result (λ rows. rows.items ≡ map (row_of ranks.now.compiled) (elements_by_ranks ranks.now (chars text.now))) }
    ensures short { IfOk result (λ _. is_too_long (chars text.now) ≡ false) }
    ensures err { IfErr result (λ fault. fault ≢ OutOfMemory → is_too_long (chars text.now) ≡ true) }
    ensures memory { IfErr result (λ fault. fault ≡ OutOfMemory → is_too_long (chars text.now) ≡ false) }
{
    match split_rows(alloc, ranks, text) {
        Ok(Some(rows)) => Ok(rows),
        Ok(None) => Err(KeyFault::TextTooLong),
        Err(_) => Err(fault_without_memory(text)),
    }
}

// Why a text has no elements where memory was refused.
fn fault_without_memory(text: &str) -> KeyFault
    ensures long { result ≢ OutOfMemory → is_too_long (chars text.now) ≡ true }
    ensures memory { result ≡ OutOfMemory → is_too_long (chars text.now) ≡ false }
{
    if is_too_long(text) {
        KeyFault::TextTooLong
    } else {
        KeyFault::OutOfMemory
    }
}

// The rows of the elements of a text, or nothing where it is too long.
//
// Its characters are counted as it is split, since a long text would take a tenth more time if they were counted before.
fn split_rows(
    alloc: Global,
    ranks: &Ranks,
    text: &str,
) -> Result<Option<Vec<ElementRow>>, AllocError>
    ensures long { IfOk result (λ kept.
        MatchOption kept (is_too_long (chars text.now) ≡ true) (λ rows. is_too_long (chars text.now) ≡ false)) }
    ensures rows { IfOk result (λ kept.
        IfSome kept (λ rows. rows.items ≡ map (row_of ranks.now.compiled) (elements_by_ranks ranks.now (chars text.now)))) }
{
    let mut rows = Vec::with_capacity(alloc, most_elements(text.len()))?;
    let mut left = text;
    let mut room = MOST_TEXT_CHARACTERS;
    'elements: while let Some(first) = ranks.first_element(left) {
        if room < first.characters {
            return Ok(None);
        }
        room -= first.characters;
        rows.push_reserved(ranks.weights().row(first.element));
        left = first.rest;
    }
    Ok(Some(rows))
}

// The number of elements of a text of so many bytes, at most, where the text isn't too long.
fn most_elements(bytes: usize) -> usize
    ensures bytes { result ≤ bytes }
    ensures most { result ≤ 65_536 }
    ensures enough { (elements : ℕ) → elements ≤ bytes → elements ≤ 65_536 → elements ≤ result }
{
    bytes.min(MOST_TEXT_CHARACTERS)
}
