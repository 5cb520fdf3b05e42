//! What takes the texts of words, one after another.
//!
//! The lines of an input are read by `word_texts`, whatever their texts are put into: a list of texts, each of which may have memory of
//! its own, or a store of them all (`stored_texts`).

ghost use Rattle.std.specs.Prelude.{◌≡◌, ◌++◌, ◌∷◌, [], ℕ, List, chars, length, OnOk};

use std::alloc::{AllocError, Global};

/// What takes texts, one after another.
pub(crate) trait TakesTexts {
    ghost texts: { Self → List (List ℕ) };

    /// How many texts were taken.
    fn count(&self) -> usize
        ensures { result ≡ length (texts self.now) };

    /// Puts a text behind others. Where memory is refused, no clause says which are there.
    fn put(&mut self, alloc: Global, text: &str) -> Result<(), AllocError>
        ensures { OnOk result (texts self.new ≡ texts self.old ++ chars text.now ∷ []) };
}
