//! Words with keys that are lent, which are sorted by these.
//!
//! The lead of a key (`key_leads`) stands beside the word. It mostly decides, by one comparison, so that few keys need be looked up in
//! memory. Words are seen with the lead as the first number of the key, so the order of two words is that of these lists.

ghost use Rattle.std.specs.Prelude.{◌≡◌, ◌∷◌, chars, OnOk};
ghost use Rattle.std.specs.Str.{IsUtf8};
ghost use Rattle.coll_devices.specs.Devices.{Writes};
ghost use Rattle.coll_word_lists.specs.KeyedWords.{AreSortedByKeys, texts_of};
ghost use Rattle.coll_word_lists.specs.Words.{written_word, written_words};

use coll_devices::{Sink, WriteStop};
use coll_texts::{Piece, write_pieces};
use std::alloc::AllocError;
use std::cmp::Ordering;
use std::marker::Model;

/// A word with a key, both of which stand elsewhere.
#[derive(Drop)]
pub(crate) struct LentWord<'a> {
    // The lead of the key, or 0 in each of the words that are sorted together.
    lead: u64,
    // The key, packed.
    key: &'a [u32],
    // The text, in UTF-8.
    text: &'a [u8],
}

impl<'a> Model for LentWord<'a> {
    ghost use Rattle.std.specs.Prelude.{◌∷◌, chars};
    ghost use Rattle.std.specs.Str.{IsUtf8};
    ghost use Rattle.coll_word_lists.specs.KeyedWords.{KeyedWord};

    ghost Value = { KeyedWord };

    ghost view = { λ w. record { text = chars w.text.now; key = w.lead ∷ w.key.now } };

    ghost invariant = { λ w. IsUtf8 w.text.now };
}

impl<'a> LentWord<'a> {
    ghost use Rattle.coll_key.specs.TextOrder.{list_order};

    /// A word with this text and this key, behind its lead.
    pub fn new(lead: u64, text: &'a [u8], key: &'a [u32]) -> LentWord<'a>
        requires { IsUtf8 text.now }
        ensures { result ≡ record { text = chars text.now; key = lead ∷ key.now } }
    {
        LentWord { lead, key, text }
    }

    /// The bytes of its text.
    pub fn text(&self) -> &'a [u8]
        ensures text { chars result.now ≡ self.now.text }
        ensures utf8 { IsUtf8 result.now }
    {
        self.text
    }

    /// Puts another text in place of its own, and leaves the key.
    pub fn put_text(&mut self, text: &'a [u8])
        requires { IsUtf8 text.now }
        ensures { self.new ≡ record self.old { text = chars text.now } }
    {
        self.text = text;
    }

    /// The order of the keys of two words. It takes no memory.
    pub fn order(&self, other: &LentWord<'_>) -> Ordering
        ensures { result ≡ list_order self.now.key other.now.key }
    {
        if self.lead != other.lead {
            return self.lead.cmp(&other.lead);
        }
        self.key.cmp(other.key)
    }
}

/// Sorts words by their keys. Words with equal keys keep their order.
pub(crate) fn sort_lent_words(words: &mut Vec<LentWord<'_>>) -> Result<(), AllocError>
    ensures { OnOk result (AreSortedByKeys words.old.items words.new.items) }
{
    words.sort_by(|word, other| word.order(other))?;
    Ok(())
}

/// Writes words, one a line. Where a write fails, the device has taken a prefix of them.
pub(crate) fn write_lent_words<W: Sink>(
    words: &[LentWord<'_>],
    out: &mut W,
) -> Result<(), WriteStop>
    ensures { Writes (W.taken out.old) (W.taken out.new) (W.failed out.old) (W.failed out.new) (written_words (texts_of words.now)) result }
{
    for word in words {
        // Not `?`: behind its conversion this exit would need a lemma.
        if let Err(stop) = write_lent_word(word, out) {
            return Err(stop);
        }
    }
    Ok(())
}

// Writes a word, and a line feed.
fn write_lent_word<W: Sink>(word: &LentWord<'_>, out: &mut W) -> Result<(), WriteStop>
    ensures { Writes (W.taken out.old) (W.taken out.new) (W.failed out.old) (W.failed out.new) (written_word word.now.text) result }
{
    write_pieces(out, &[Piece::Bytes(word.text), Piece::Bytes(b"\n")])
}
