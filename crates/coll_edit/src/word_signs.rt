//! A line of `edit` in which a `#` within a word is a character of that word.
//!
//! A file may be named `my#file`, and a `#` begins a comment only where a word may begin, as in a shell. The lexer ends a word before
//! it, unless it is escaped; so here the escape character is put before each `#` that stands directly behind a character of a word
//! (`specs/WordSigns.antt`). In a string and in a symbol that changes nothing.

ghost use Rattle.std.specs.Prelude.{◌≡◌, ◌++◌, IfOk, OnOk};
ghost use Rattle.coll_edit.specs.WordSigns.{behind as stated_behind, parts_words, put_sign, with_signs as stated_signs};
ghost use Rattle.coll_edit.specs.declared.word_signs.Before.TheVariants as before;

use std::alloc::{AllocError, Global};

/// What stands directly before a byte of a line, as far as it says whether a `#` there is within a word.
#[derive(Clone, Copy)]
pub(crate) enum Before {
    /// Nothing, or what no word goes on behind.
    Apart,
    /// A character of a word.
    Word,
    /// The escape character.
    Escape,
}

/// A line with an escape character before each `#` within a word.
pub(crate) fn with_signs(alloc: Global, line: &[u8]) -> Result<Vec<u8>, AllocError>
    ensures { IfOk result (λ kept. kept.items ≡ stated_signs before.Apart line.now) }
{
    let mut kept = Vec::with_capacity(alloc, line.len())?;
    let mut stands = Before::Apart;
    'line: for byte in line {
        put_byte(&mut kept, stands, *byte)?;
        stands = behind(stands, *byte);
    }
    Ok(kept)
}

// Puts a byte behind others, and an escape character before it if it is a `#` within a word.
fn put_byte(kept: &mut Vec<u8>, stands: Before, byte: u8) -> Result<(), AllocError>
    ensures { OnOk result (kept.new.items ≡ kept.old.items ++ put_sign stands byte) }
{
    match stands {
        Before::Word if byte == b'#' => {
            kept.push(b'\\')?;
            kept.push(byte)?;
            Ok(())
        }
        _ => {
            kept.push(byte)?;
            Ok(())
        }
    }
}

// What stands directly before the next byte.
fn behind(stands: Before, byte: u8) -> Before
    ensures { result ≡ stated_behind stands byte }
{
    match stands {
        Before::Escape => Before::Word,
        _ if byte == b'\\' => Before::Escape,
        _ if parts_words(byte) => Before::Apart,
        _ => Before::Word,
    }
}

// Whether no word goes on behind a byte: a blank, and what begins, ends or parts operands.
fn parts_words(byte: u8) -> bool
    ensures { result ≡ parts_words byte }
{
    matches!(byte, b' ' | b'\t' | b'"' | b',' | b';' | b'<' | b'>')
}
