//! Runs of bytes that are taken at once: whole symbols, words, and blanks.
//!
//! What makes the scan fast is here: a run is found by its bytes in the line that is there, with one test a byte, and is
//! then taken as a slice. All bytes of a run are ASCII, so each is a character; whatever else stands in a line is read
//! character by character, which is the simple form (`parts` chooses); `TakesPart` joins both.

ghost use Rattle.std.specs.Prelude.{◌≡◌, ◌≤◌, length, take, true, IfSome};
ghost use Rattle.std.specs.List.{list_all};
ghost use Rattle.coll_lex.specs.Runs.{is_name_byte, is_letter, is_word_byte, is_separator, begins_with_separator, BeginsWithSymbol};
ghost use Rattle.coll_lex.specs.Runs.{is_blank_byte, begins_comment};

use crate::Chars;
use crate::blanks::is_blank;

// Whether a byte stands for itself in a symbol, and a name may have it.
fn is_name_byte(escape: char, byte: u8) -> bool
    ensures { result ≡ is_name_byte escape byte }
{
    b' ' < byte && byte < 0x7f && byte != b'>' && char::from(byte) != escape
}

// Whether a byte is a letter of ASCII outside symbols and strings, unless it is the comment or the escape character.
fn is_letter(byte: u8) -> bool
    ensures { result ≡ is_letter byte }
{
    if byte > b'<' {
        return byte < 0x80;
    }
    b' ' < byte && byte < b';' && byte != b'"' && byte != b','
}

// Whether a byte stands for itself outside symbols and strings, and doesn't end a word.
fn is_word_byte(special: Chars, byte: u8) -> bool
    ensures { result ≡ is_word_byte special byte }
{
    let c = char::from(byte);
    is_letter(byte) && c != special.escape && c != special.comment
}

// Whether a byte is a blank, and isn't the escape character.
fn is_blank_byte(escape: char, byte: u8) -> bool
    ensures { result ≡ is_blank_byte escape byte }
{
    let c = char::from(byte);
    is_blank(c) && c != escape
}

/// Whether a comment begins with this byte where no symbol, string or word is open.
pub(crate) fn begins_comment(special: Chars, byte: u8) -> bool
    ensures { result ≡ begins_comment special byte }
{
    let c = char::from(byte);
    if c != special.comment || c == special.escape {
        return false;
    }
    b' ' < byte && byte < 0x7f && byte != b'<' && byte != b';' && byte != b','
}

/// How many bytes at the front are of a name.
pub(crate) fn name_length(escape: char, bytes: &[u8]) -> usize
    ensures within { result ≤ length bytes.now }
    ensures plain { list_all (is_name_byte escape) (take result bytes.now) ≡ true }
{
    for (at, byte) in bytes.iter().enumerate() {
        if !is_name_byte(escape, *byte) {
            return at;
        }
    }
    bytes.len()
}

/// How many bytes at the front are blanks.
pub(crate) fn blanks_length(escape: char, bytes: &[u8]) -> usize
    ensures within { result ≤ length bytes.now }
    ensures blank { list_all (is_blank_byte escape) (take result bytes.now) ≡ true }
{
    for (at, byte) in bytes.iter().enumerate() {
        if !is_blank_byte(escape, *byte) {
            return at;
        }
    }
    bytes.len()
}

/// How many bytes at the front are of a word.
pub(crate) fn word_length(special: Chars, bytes: &[u8]) -> usize
    ensures within { result ≤ length bytes.now }
    ensures plain { list_all (is_word_byte special) (take result bytes.now) ≡ true }
{
    for (at, byte) in bytes.iter().enumerate() {
        if !is_word_byte(special, *byte) {
            return at;
        }
    }
    bytes.len()
}

/// Whether a text begins with a blank, a semicolon or a comma that isn't the escape character.
pub(crate) fn begins_with_separator(escape: char, text: &[u8]) -> bool
    ensures { result ≡ begins_with_separator escape text.now }
{
    match text.first() {
        Some(first) => is_separator(escape, char::from(*first)),
        None => false,
    }
}

// Whether a character is a blank, a semicolon or a comma, and isn't the escape character.
fn is_separator(escape: char, c: char) -> bool
    ensures { result ≡ is_separator escape c }
{
    (is_blank(c) || c == ';' || c == ',') && c != escape
}

/// The name of the symbol that a text begins with, and what follows the symbol. None where it begins with none, or where
/// the symbol has to be read character by character.
pub(crate) fn whole_symbol(escape: char, text: &str) -> Option<(&str, &str)>
    ensures { IfSome result (λ parts. BeginsWithSymbol escape text.now parts.0.now parts.1.now) }
{
    let (first, inside) = text.as_bytes().split_first()?;
    if *first != b'<' || escape == '<' || escape == '>' {
        return None;
    }
    let length = name_length(escape, inside);
    if length == 0 || length == inside.len() || inside[length] != b'>' {
        return None;
    }
    Some((&text[1..length + 1], &text[length + 2..]))
}
