//! Words with their sort keys, which are sorted by these.

ghost use Rattle.std.specs.Prelude.{◌≡◌, slice_index_or, OnOk, OnErr};
ghost use Rattle.coll_devices.specs.Devices.{Writes};
ghost use Rattle.coll_nodes.specs.Table.{Collation};
ghost use Rattle.coll_word_lists.specs.KeyedWords.{AreKeyed, texts_of};
ghost use Rattle.coll_word_lists.specs.LedWords.{lead_of};
ghost use Rattle.coll_word_lists.specs.PackedKeys.{packed_key};
ghost use Rattle.coll_word_lists.specs.SortRuns.{SortsWords};
ghost use Rattle.coll_word_lists.specs.Words.{written_word, written_words};

use crate::packed_keys::packed_key;
use coll_devices::{Sink, WriteStop};
use coll_key::{KeyFault, Ranks, key};
use coll_lex::TextBuf;
use coll_table::Table;
use coll_texts::{Piece, write_pieces};
use std::alloc::{AllocError, Global};
use std::cmp::Ordering;
use std::marker::Model;

// How many numbers of a key stand beside the text.
const LEAD_NUMBERS: usize = 4;

/// A word with its sort key by a table.
#[derive(Drop)]
pub struct Word {
    text: TextBuf,
    // The first numbers of the key, which decide nearly always, so that it mostly needn't be looked up in memory.
    lead: [u32; LEAD_NUMBERS],
    // The key, packed.
    key: Vec<u32>,
}

impl Model for Word {
    ghost use Rattle.coll_word_lists.specs.KeyedWords.{KeyedWord};

    ghost Value = { KeyedWord };

    ghost view = { λ w. record { text = w.text; key = w.key.items } };

    ghost use Rattle.coll_word_lists.specs.LedWords.{IsLed};

    ghost invariant = { IsLed };
}

impl Word {
    ghost use Rattle.std.specs.Prelude.{◌≢◌, chars, encode_utf8_all, true, false, IfOk, IfErr};
    ghost use Rattle.coll_nodes.specs.TableLayout.{collation};
    ghost use Rattle.coll_ranks.specs.Ranks.{AreRanksOf};
    ghost use Rattle.coll_key.specs.KeyLimits.{is_too_long};
    ghost use Rattle.coll_key.specs.TextOrder.{list_order};
    ghost use Rattle.coll_key.specs.declared.key_faults.KeyFault.TheVariants.{OutOfMemory};
    ghost use Rattle.coll_word_lists.specs.KeyedWords.{IsKeyed};

    /// The word of a text, with its key by a table, in new memory.
    ///
    /// A text of more than `MOST_TEXT_CHARACTERS` characters has no key. The ranks must be those of the table as it stands.
    pub fn new(alloc: Global, table: &Table, ranks: &Ranks, text: &str) -> Result<Word, KeyFault>
        requires { AreRanksOf ranks.now (collation table.now) }
        ensures text { IfOk result (λ word. word.text ≡ chars text.now) }
        ensures key { IfOk result (λ word. IsKeyed (collation table.now) word) }
        ensures short { IfOk result (λ _. is_too_long (chars text.now) ≡ false) }
        ensures err { IfErr result (λ fault. fault ≢ OutOfMemory → is_too_long (chars text.now) ≡ true) }
    {
        let numbers = key(alloc, table, ranks, text)?;
        let word = Word::with_key(alloc, &numbers, text)?;
        Ok(word)
    }

    /// The word of a text, with this key, in new memory.
    pub fn with_key(alloc: Global, numbers: &[u64], text: &str) -> Result<Word, AllocError>
        ensures text { IfOk result (λ word. word.text ≡ chars text.now) }
        ensures key { IfOk result (λ word. word.key ≡ packed_key numbers.now) }
    {
        let key = packed_key(alloc, numbers)?;
        let text = TextBuf::copied(alloc, text)?;
        let lead = lead_of(&key);
        Ok(Word { text, lead, key })
    }

    /// Lends the word, which is UTF-8.
    pub fn text(&self) -> &str
        ensures characters { chars result.now ≡ self.now.text }
        ensures bytes { encode_utf8_all self.now.text ≡ result.now }
    {
        self.text.get()
    }

    /// The order of the keys of two words: that of the words, where both keys are by one table. It takes no memory.
    pub fn order(&self, other: &Word) -> Ordering
        ensures { result ≡ list_order self.now.key other.now.key }
    {
        match self.lead[..].cmp(&other.lead[..]) {
            Ordering::Less => Ordering::Less,
            Ordering::Equal => self.key.cmp(&other.key),
            Ordering::Greater => Ordering::Greater,
        }
    }
}

// The first numbers of a key, with 0 in place of those that it hasn't.
fn lead_of(key: &[u32]) -> [u32; LEAD_NUMBERS]
    ensures { result ≡ lead_of key.now }
{
    [
        number_at(key, 0),
        number_at(key, 1),
        number_at(key, 2),
        number_at(key, 3),
    ]
}

/// The number of a key at a place, or 0 where there is none.
pub(crate) fn number_at(key: &[u32], place: usize) -> u32
    ensures { result ≡ slice_index_or key.now place 0 }
{
    match key.get(place) {
        Some(number) => *number,
        None => 0,
    }
}

/// Sorts words by their keys. Words with equal keys keep their order, and where memory is refused all do.
pub fn sort_by_keys(words: &mut Vec<Word>) -> Result<(), AllocError>
    ensures sorted { OnOk result (SortsWords words.old.items (texts_of words.new.items)) }
    ensures keyed { (table : Collation) → AreKeyed table words.old.items → AreKeyed table words.new.items }
    ensures err { OnErr result (words.new.items ≡ words.old.items) }
{
    words.sort_by(|word, other| word.order(other))?;
    Ok(())
}

/// Writes words, one a line. Where a write fails, the device has taken a prefix of them.
pub fn write_words<W: Sink>(words: &[Word], out: &mut W) -> Result<(), WriteStop>
    ensures { Writes (W.taken out.old) (W.taken out.new) (W.failed out.old) (W.failed out.new) (written_words (texts_of words.now)) result }
{
    for word in words {
        // Not `?`: behind its conversion this exit would need a lemma.
        if let Err(stop) = write_word(word, out) {
            return Err(stop);
        }
    }
    Ok(())
}

// Writes a word, and a line feed.
fn write_word<W: Sink>(word: &Word, out: &mut W) -> Result<(), WriteStop>
    ensures { Writes (W.taken out.old) (W.taken out.new) (W.failed out.old) (W.failed out.new) (written_word word.now.text) result }
{
    write_pieces(
        out,
        &[Piece::Bytes(word.text().as_bytes()), Piece::Bytes(b"\n")],
    )
}
