//! Texts, one behind another in one block of memory.
//!
//! A text by itself may have memory of its own. Here a text is where it begins and ends, so many of them ask for hardly more blocks than
//! one.

ghost use Rattle.std.specs.Prelude.{◌≡◌, ◌<◌, ◌++◌, ◌∷◌, [], chars, length, OnOk};
ghost use Rattle.std.specs.Str.{IsUtf8};
ghost use Rattle.coll_word_lists.specs.StoredTexts.{AreTextPlaces, texts_at};

use crate::taking_texts::TakesTexts;
use std::alloc::{AllocError, Global};
use std::marker::Model;
use std::str;

/// Where a text stands.
#[derive(Clone, Copy)]
pub struct TextPlace {
    /// Where it begins.
    pub start: usize,
    /// Where it ends.
    pub end: usize,
}

/// Texts.
#[derive(Drop)]
pub struct StoredTexts {
    // The texts, in UTF-8.
    bytes: Vec<u8>,
    places: Vec<TextPlace>,
}

impl Model for StoredTexts {
    ghost use Rattle.std.specs.Prelude.{ℕ, List};
    ghost use Rattle.coll_word_lists.specs.StoredTexts.{AreTextPlaces, texts_at};

    ghost Value = { List (List ℕ) };

    ghost view = { λ s. texts_at s.bytes.items s.places.items };

    ghost invariant = { λ s. AreTextPlaces s.bytes.items s.places.items };
}

impl StoredTexts {
    /// No texts. It takes no memory.
    pub fn new(alloc: Global) -> StoredTexts
        ensures { result ≡ [] }
    {
        StoredTexts {
            bytes: Vec::new(alloc),
            places: Vec::new(alloc),
        }
    }

    /// How many texts there are.
    pub fn len(&self) -> usize
        ensures { result ≡ length self.now }
    {
        self.places.len()
    }

    /// Puts a text behind the others. Where memory is refused, they stay as they are.
    pub fn put_text(&mut self, text: &str) -> Result<(), AllocError>
        ensures { OnOk result (self.new ≡ self.old ++ chars text.now ∷ []) }
    {
        let start = self.bytes.len();
        self.places.reserve(1)?;
        self.bytes.extend_from_slice(text.as_bytes())?;
        let end = self.bytes.len();
        self.places.push_reserved(TextPlace { start, end });
        Ok(())
    }

    /// Lends a text.
    pub fn text(&self, place: usize) -> &str
        requires { place < length self.now }
    {
        let place = self.places[place];
        text_of(&self.bytes[place.start..place.end])
    }

    /// Lends the bytes of all texts, and where each stands.
    pub fn parts(&self) -> (&[u8], &[TextPlace])
        ensures places { AreTextPlaces result.0.now result.1.now }
        ensures texts { self.now ≡ texts_at result.0.now result.1.now }
    {
        (&self.bytes, &self.places)
    }
}

impl TakesTexts for StoredTexts {
    ghost texts = { λ texts. texts };

    fn count(&self) -> usize {
        self.len()
    }

    fn put(&mut self, _alloc: Global, text: &str) -> Result<(), AllocError> {
        self.put_text(text)
    }
}

/// The text of bytes.
pub fn text_of(bytes: &[u8]) -> &str
    requires { IsUtf8 bytes.now }
    ensures { chars result.now ≡ chars bytes.now }
{
    match str::from_utf8(bytes) {
        Ok(text) => text,
        // Never: the bytes are those of a text.
        Err(_) => "",
    }
}
