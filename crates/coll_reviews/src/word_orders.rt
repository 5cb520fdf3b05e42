//! What words are compared by behind a statement.
//!
//! Where the words have few characters, and few strings in them may be collating elements, the rows of these serve, and the table's entries
//! are only numbered anew. Where they aren't few, the ranks of the whole table are made. What the rows don't tell is told by keys, for which
//! the texts are looked up in the table one by one, until these took about a tenth of the time that ranks take. Then the ranks are made
//! after all, once for the statement, and tell it.

ghost use Rattle.std.specs.Prelude.{◌≡◌, chars, true, IfOk, IfSome};
ghost use Rattle.std.specs.List.Sorted.{IsPermutation};
ghost use Rattle.coll_nodes.specs.TableLayout.{collation};
ghost use Rattle.coll_key.specs.SortKey.{key_of};
ghost use Rattle.coll_key.specs.TextOrder.{order_of};
ghost use Rattle.coll_letters.specs.ElementMarks.{AreMarks};
ghost use Rattle.coll_letters.specs.FirstOrders.{IsSeen};
ghost use Rattle.coll_reviews.specs.WordOrders.{MayServe, Serves};
ghost use Rattle.coll_reviews.specs.declared.word_orders.WordOrder.TheVariants.{ByLetters};

use crate::letters::Letters;
use crate::listed_words::ListedWord;
use crate::word_fronts::WordFronts;
use coll_elements::CodePoints;
use coll_key::{
    EntryNumbers, KeyFault, Ranks, compare, is_too_long, key, key_of_text,
    keys_are_ordered_as_texts,
};
use coll_letters::{ElementMarks, FirstOrder, LetterWeights, SeenFirst, most_letters};
use coll_table::Table;
use std::alloc::{AllocError, Global};
use std::cmp::Ordering;

// For each word and each entry of the table so many strings of words may be looked at where elements may begin. Where there are more, ranks
// serve, since comparisons look each of these up.
const LOOKS_A_WORD: usize = 4;

// For so many entries of the table one number of a key, or one look-up of what a byte of its word may begin, is paid for behind a
// statement, where words are compared by keys since the rows don't tell. All of them take about a tenth of the time that ranks take.
const ENTRIES_A_KEY_NUMBER: usize = 4;

/// What is kept for a list of words from statement to statement.
#[derive(Drop)]
pub(crate) struct Looks {
    // The characters of the words, once these were looked at.
    letters: Option<Letters>,
    // The places of the table's entries when they were given last. Their memory is kept.
    numbers: EntryNumbers,
    // Behind how many statements ranks were made after keys.
    made_ranks: u32,
}

/// The rows of characters and strings, and what serves where these don't.
#[derive(Drop)]
pub(crate) struct LetterOrder<'a> {
    /// The rows.
    pub weights: LetterWeights,
    /// The places of the characters.
    pub places: &'a CodePoints,
    /// Whether a word may hold an element.
    pub joined: bool,
    /// The places of the table's entries.
    pub numbers: &'a EntryNumbers,
    /// How many numbers and look-ups are still paid for in keys of words of which the rows don't tell the order.
    pub left: usize,
    /// The ranks of the whole table, once nothing was left.
    pub ranks: Option<Ranks>,
}

/// What words are compared by.
#[derive(Drop)]
pub(crate) enum WordOrder<'a> {
    /// The ranks of the whole table.
    ByRanks(Ranks),
    /// The rows of the characters of the words, and of strings in them.
    ByLetters(LetterOrder<'a>),
}

impl Looks {
    /// Nothing is kept yet. It takes no memory.
    pub fn new(alloc: Global) -> Looks {
        Looks {
            letters: None,
            numbers: EntryNumbers::new(alloc),
            made_ranks: 0,
        }
    }

    /// Tells that ranks were made after keys: behind later statements half as many keys come before them.
    pub fn note_ranks_made(&mut self) {
        self.made_ranks = self.made_ranks.saturating_add(1);
    }
}

/// What the words of a list are compared by in a table. Marks of the table that are kept are taken, and stand in what serves until they
/// are given back (`give_back`).
pub(crate) fn word_order<'a>(
    alloc: Global,
    table: &Table,
    marks: &mut Option<ElementMarks>,
    looks: &'a mut Looks,
    list: &[ListedWord<'_>],
) -> Result<WordOrder<'a>, AllocError>
    requires { IfSome marks.old (AreMarks (collation table.now)) }
    ensures serves { IfOk result (λ order. Serves order table.now) }
    ensures marks { IfSome marks.new (AreMarks (collation table.now)) }
{
    if let Some(taken) = look_at_letters(alloc, table, marks, &mut looks.letters, list)? {
        let paid_for = table.len() / ENTRIES_A_KEY_NUMBER;
        let left = paid_for.checked_shr(looks.made_ranks).unwrap_or(0);
        if let Some(letters) = &looks.letters {
            let order = letter_order(alloc, table, letters, taken, &mut looks.numbers, left)?;
            return Ok(WordOrder::ByLetters(order));
        }
    }
    let ranks = Ranks::new(alloc, table)?;
    Ok(WordOrder::ByRanks(ranks))
}

/// Gives marks back that were taken, and tells whether ranks were made after keys.
pub(crate) fn give_back(
    _table: &Table,
    order: WordOrder<'_>,
    marks: &mut Option<ElementMarks>,
) -> bool
    requires serves { Serves order _table.now }
    requires marks { IfSome marks.old (AreMarks (collation _table.now)) }
    ensures { IfSome marks.new (AreMarks (collation _table.now)) }
{
    match order {
        WordOrder::ByRanks(ranks) => {
            drop(ranks);
            false
        }
        WordOrder::ByLetters(letters) => {
            let LetterOrder {
                weights,
                places: _,
                joined: _,
                numbers: _,
                left: _,
                ranks,
            } = letters;
            let were_made = ranks.is_some();
            drop(ranks);
            drop(marks.replace(weights.into_marks()));
            were_made
        }
    }
}

// The rows of characters, with the marks of a table.
fn letter_order<'a>(
    alloc: Global,
    table: &Table,
    letters: &'a Letters,
    marks: ElementMarks,
    numbers: &'a mut EntryNumbers,
    left: usize,
) -> Result<LetterOrder<'a>, AllocError>
    requires letters { MayServe letters.now }
    requires marks { AreMarks (collation table.now) marks }
    ensures { IfOk result (λ order. Serves (ByLetters order) table.now) }
{
    table.number_entries(numbers)?;
    let weights = LetterWeights::new(alloc, table, numbers, letters.text.as_str(), marks)?;
    Ok(LetterOrder {
        weights,
        places: &letters.places,
        joined: letters.joined,
        numbers,
        left,
        ranks: None,
    })
}

// The marks of a table, where words are compared by their characters and strings in it. These are gathered where they weren't, or where
// another element was declared since. Marks that are kept are taken, and kept still where they don't serve.
fn look_at_letters(
    alloc: Global,
    table: &Table,
    marks: &mut Option<ElementMarks>,
    kept: &mut Option<Letters>,
    list: &[ListedWord<'_>],
) -> Result<Option<ElementMarks>, AllocError>
    requires { IfSome marks.old (AreMarks (collation table.now)) }
    ensures serve { IfOk result (λ found. IfSome found (λ marks.
        AreMarks (collation table.now) marks × IfSome kept.new MayServe)) }
    ensures marks { IfSome marks.new (AreMarks (collation table.now)) }
{
    if matches!(kept, Some(letters) if !letters.all) {
        return Ok(None);
    }
    let taken = taken_marks(alloc, table, marks)?;
    gather(alloc, table, kept, &taken, list)?;
    if may_serve(kept) {
        return Ok(Some(taken));
    }
    drop(marks.replace(taken));
    Ok(None)
}

// Marks of a table that are kept, or else new ones.
fn taken_marks(
    alloc: Global,
    table: &Table,
    marks: &mut Option<ElementMarks>,
) -> Result<ElementMarks, AllocError>
    requires { IfSome marks.old (AreMarks (collation table.now)) }
    ensures taken { IfOk result (AreMarks (collation table.now)) }
    ensures marks { IfSome marks.new (AreMarks (collation table.now)) }
{
    match marks.take() {
        Some(taken) => Ok(taken),
        none => {
            drop(none);
            ElementMarks::of(alloc, table)
        }
    }
}

// Gathers the characters and strings of words where they weren't, or anew those of some where another element was declared since.
fn gather(
    alloc: Global,
    table: &Table,
    kept: &mut Option<Letters>,
    marks: &ElementMarks,
    list: &[ListedWord<'_>],
) -> Result<(), AllocError> {
    let most = most_letters(table);
    let looks = table
        .len()
        .saturating_add(list.len())
        .saturating_mul(LOOKS_A_WORD);
    let letters = match kept {
        Some(letters) if letters.elements == marks.count() => return Ok(()),
        Some(letters) => {
            let since = ElementMarks::since(alloc, table, letters.elements)?;
            letters.of_more(alloc, list, marks, &since, most, looks)?
        }
        None => Letters::of(alloc, list, marks, most, looks)?,
    };
    drop(kept.replace(letters));
    Ok(())
}

// Whether what words are compared by was gathered, nothing was left out, and it is no longer than a text may be.
fn may_serve(kept: &Option<Letters>) -> bool
    ensures { result ≡ true → IfSome kept.now MayServe }
{
    match kept {
        Some(letters) => letters.all && !is_too_long(letters.text.as_str()),
        None => false,
    }
}

/// The order of two words. What single numbers tell is told along the caller's own lines, before anything that may be refused.
#[inline(always)]
pub(crate) fn order_of_words(
    alloc: Global,
    table: &Table,
    order: &mut WordOrder<'_>,
    text: &str,
    other: &str,
) -> Result<Ordering, KeyFault>
    requires { Serves order.old table.now }
    ensures order { IfOk result (λ order. order ≡ order_of (collation table.now) (chars text.now) (chars other.now)) }
    ensures serves { Serves order.new table.now }
{
    match order {
        WordOrder::ByRanks(ranks) => compare(alloc, table, ranks, text, other),
        WordOrder::ByLetters(letters) => match letters
            .weights
            .first_order(table, letters.places, text, other)
        {
            FirstOrder::Told(order) => Ok(order),
            FirstOrder::Untold(seen) => {
                order_beyond_first(alloc, table, letters, text, other, seen)
            }
        },
    }
}

// The same by the rows of characters, where single numbers don't tell it, but this was seen.
#[inline(never)]
fn order_beyond_first(
    alloc: Global,
    table: &Table,
    letters: &mut LetterOrder<'_>,
    text: &str,
    other: &str,
    seen: SeenFirst,
) -> Result<Ordering, KeyFault>
    requires serves { Serves (ByLetters letters.old) table.now }
    requires seen { IsSeen (collation table.now) letters.old.weights.marks text.now other.now seen }
    ensures order { IfOk result (λ order. order ≡ order_of (collation table.now) (chars text.now) (chars other.now)) }
    ensures serves { Serves (ByLetters letters.new) table.now }
{
    if let Some(order) = letters
        .weights
        .order(alloc, table, letters.places, text, other, seen)?
    {
        return Ok(order);
    }
    if let Some(ranks) = &letters.ranks {
        return compare(alloc, table, ranks, text, other);
    }
    if letters.left > 0 {
        return order_by_keys(alloc, table, letters, text, other);
    }
    order_by_new_ranks(alloc, table, letters, text, other)
}

// The order of two words by ranks of the whole table, which are made for it and kept. The room of these is not that of each comparison.
#[inline(never)]
fn order_by_new_ranks(
    alloc: Global,
    table: &Table,
    letters: &mut LetterOrder<'_>,
    text: &str,
    other: &str,
) -> Result<Ordering, KeyFault>
    requires { Serves (ByLetters letters.old) table.now }
    ensures order { IfOk result (λ order. order ≡ order_of (collation table.now) (chars text.now) (chars other.now)) }
    ensures serves { Serves (ByLetters letters.new) table.now }
{
    let ranks = Ranks::new(alloc, table)?;
    let order = compare(alloc, table, &ranks, text, other);
    drop(letters.ranks.replace(ranks));
    order
}

// The order of two words that the rows don't tell, by their keys, which are paid for.
#[inline(never)]
fn order_by_keys(
    alloc: Global,
    table: &Table,
    letters: &mut LetterOrder<'_>,
    text: &str,
    other: &str,
) -> Result<Ordering, KeyFault>
    requires { Serves (ByLetters letters.old) table.now }
    ensures order { IfOk result (λ order. order ≡ order_of (collation table.now) (chars text.now) (chars other.now)) }
    ensures serves { Serves (ByLetters letters.new) table.now }
{
    table.lemma_well_formed();
    keys_are_ordered_as_texts();
    let key = key_by_letters(alloc, table, letters, text)?;
    let other_key = key_by_letters(alloc, table, letters, other)?;
    let bytes = text.len().saturating_add(other.len());
    let looked_up = bytes.saturating_mul(table.most_element_characters().max(1));
    let numbers = key.len().saturating_add(other_key.len());
    letters.left = letters
        .left
        .saturating_sub(looked_up.saturating_add(numbers));
    Ok(key.cmp(&other_key))
}

/// Whether the order of words may be guessed: they are their characters, which have rows, and the first level is looked at from the
/// front and has no positions. A guess is looked at once more, so a list with words that may hold an element goes without.
pub(crate) fn can_guess(table: &Table, order: &WordOrder<'_>) -> bool {
    match order {
        WordOrder::ByRanks(_) => false,
        WordOrder::ByLetters(letters) => match table.rules().first() {
            Some(rule) => !(letters.joined || rule.backward || rule.position),
            None => false,
        },
    }
}

/// Puts words into an order that is mostly right, where that may be guessed.
pub(crate) fn guess_order(
    alloc: Global,
    order: &WordOrder<'_>,
    list: &mut Vec<ListedWord<'_>>,
) -> Result<(), AllocError>
    ensures { IsPermutation list.old.items list.new.items }
{
    match order {
        WordOrder::ByRanks(_) => Ok(()),
        WordOrder::ByLetters(letters) => {
            let fronts = WordFronts::new(alloc, &letters.weights, letters.places)?;
            fronts.sort(list)
        }
    }
}

/// The sort key of a word.
pub(crate) fn key_of_word(
    alloc: Global,
    table: &Table,
    order: &WordOrder<'_>,
    text: &str,
) -> Result<Vec<u64>, KeyFault>
    requires { Serves order.now table.now }
    ensures { IfOk result (λ key. key.items ≡ key_of (collation table.now) (chars text.now)) }
{
    match order {
        WordOrder::ByRanks(ranks) => key(alloc, table, ranks, text),
        WordOrder::ByLetters(letters) => key_by_letters(alloc, table, letters, text),
    }
}

// The same, by the rows of characters and strings, where these serve.
fn key_by_letters(
    alloc: Global,
    table: &Table,
    letters: &LetterOrder<'_>,
    text: &str,
) -> Result<Vec<u64>, KeyFault>
    requires { Serves (ByLetters letters.now) table.now }
    ensures { IfOk result (λ key. key.items ≡ key_of (collation table.now) (chars text.now)) }
{
    match letters.weights.key(alloc, table, letters.places, text)? {
        Some(key) => Ok(key),
        None => match &letters.ranks {
            Some(ranks) => key(alloc, table, ranks, text),
            None => key_of_text(alloc, table, letters.numbers, text),
        },
    }
}
