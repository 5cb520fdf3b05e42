//! A text of a source: its bytes as UTF-8, and its physical lines.
//!
//! Published sources are UTF-8, and some old ones ISO/IEC 8859-1, which no line of theirs says. A text that isn't UTF-8 as a whole is
//! taken as such.

use memchr::memchr;
use std::alloc::{AllocError, Global};

/// The text of these bytes: as it is where it is UTF-8, and otherwise each byte is the character of that number.
pub(crate) fn text_of(alloc: Global, bytes: Vec<u8>) -> Result<String, AllocError> {
    match String::from_utf8(bytes) {
        Ok(text) => Ok(text),
        Err(refused) => from_latin(alloc, refused.as_bytes()),
    }
}

// The text in which each of these bytes is the character of that number.
fn from_latin(alloc: Global, bytes: &[u8]) -> Result<String, AllocError> {
    let mut text = String::with_capacity(alloc, bytes.len())?;
    for byte in bytes {
        text.push(char::from(*byte))?;
    }
    Ok(text)
}

/// The physical line that begins at a place of a text, without its line feed, and the place behind it; none at the end of the text.
pub(crate) fn line_at(text: &[u8], start: usize) -> Option<(&[u8], usize)> {
    let rest = text.get(start..)?;
    if rest.is_empty() {
        return None;
    }
    match memchr(b'\n', rest) {
        Some(length) => Some((
            &rest[..length],
            start.saturating_add(length).saturating_add(1),
        )),
        None => Some((rest, text.len())),
    }
}
