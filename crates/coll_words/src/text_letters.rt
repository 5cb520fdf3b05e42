//! What the texts of a sort are made of: their characters, and the strings in them that may be collating elements, each once.
//!
//! They are gathered once for all texts (`TextPieces`). Where they are many the texts don't go by them, and who gathers them stops there.

ghost use Rattle.std.specs.Prelude.{IfOk, IfSome};
ghost use Rattle.coll_words.specs.LetterKeys.{ServesTexts};

use coll_key::is_too_long;
use coll_letters::{ElementMarks, PieceText, TextPieces};
use coll_word_lists::StoredTexts;
use std::alloc::{AllocError, Global};

/// The pieces of texts, no more than so many, if they are a text that may have a key. Where elements may begin so many strings are looked
/// at.
pub(crate) fn pieces_of_texts(
    alloc: Global,
    texts: &StoredTexts,
    marks: &ElementMarks,
    most: usize,
    looks: usize,
) -> Result<Option<PieceText>, AllocError>
    ensures { IfOk result (λ found. IfSome found ServesTexts) }
{
    let mut pieces = TextPieces::new(alloc, most, looks, looks);
    if !add_texts(&mut pieces, texts, marks)? {
        drop(pieces);
        return Ok(None);
    }
    let pieces = pieces.into_text()?;
    if is_too_long(pieces.text.as_str()) {
        drop(pieces);
        return Ok(None);
    }
    Ok(Some(pieces))
}

// Adds the pieces of texts, up to one for which there is no room, and tells whether there was none.
fn add_texts(
    pieces: &mut TextPieces,
    texts: &StoredTexts,
    marks: &ElementMarks,
) -> Result<bool, AllocError> {
    let mut place = 0;
    'texts: while place < texts.len() {
        if !pieces.add(texts.text(place), marks)? {
            return Ok(false);
        }
        place += 1;
    }
    Ok(true)
}
