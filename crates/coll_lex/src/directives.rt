//! The directives `comment_char` and `escape_char`, which choose a text's two characters (POSIX.1-2017, 7.3).
//!
//! They are recognised by their bytes, before any escape is read, so a line may hold anything after the part
//! that decides. The functions here look at one physical line without its carriage return. Another directive is
//! another arm of `directive`, here and in the definition. Nearly all lines are told from a directive by their first byte.

ghost use Rattle.std.specs.Prelude.{◌≡◌, None, option_map};
ghost use Rattle.std.specs.Bool.{OnTrue};
ghost use Rattle.coll_lex.specs.Directives.{operand_of, named_character, with_comment, with_escape, directive};

use crate::blanks::{begins_apart, past_blanks};
use crate::{Chars, LexFault};

// The characters that a directive may choose.
const ALLOWED: &[u8] = b"!#$%&'()*+/=?@[\\]^{|}~`";

// What follows a word, where the line begins with it and a blank or the line's end comes after it.
#[tactic(auto, unfolding(crate::specs::Directives::operand_of))]
fn operand_of<'a>(word: &[u8], line: &'a [u8]) -> Option<&'a [u8]>
    ensures { option_map (λ r. r.now) result ≡ operand_of word.now line.now }
{
    if !line.starts_with(word) {
        return None;
    }
    let rest = &line[word.len()..];
    if begins_apart(rest) { Some(rest) } else { None }
}

// The allowed character that stands first, with a blank or the line's end after it.
#[tactic(auto, unfolding(crate::specs::Directives::named_character))]
fn named_character(operand: &[u8]) -> Option<char>
    ensures { result ≡ named_character operand.now }
{
    let (byte, rest) = operand.split_first()?;
    if !ALLOWED.contains(byte) {
        return None;
    }
    if begins_apart(rest) {
        Some(char::from(*byte))
    } else {
        None
    }
}

// The characters with another comment character, which may not be the escape character.
fn with_comment(special: Chars, named: Option<char>) -> Result<Chars, LexFault>
    ensures { result ≡ with_comment special named }
{
    match named {
        Some(comment) if comment != special.escape => Ok(Chars { comment, ..special }),
        _ => Err(LexFault::BadCharDirective),
    }
}

// The characters with another escape character, which may not be the comment character.
fn with_escape(special: Chars, named: Option<char>) -> Result<Chars, LexFault>
    ensures { result ≡ with_escape special named }
{
    match named {
        Some(escape) if escape != special.comment => Ok(Chars { escape, ..special }),
        _ => Err(LexFault::BadCharDirective),
    }
}

/// Whether a line is told to be no directive. One that begins with a symbol is by its first byte.
#[inline(always)]
pub(crate) fn is_no_directive(special: Chars, line: &[u8]) -> bool
    ensures { OnTrue result (directive special line.now ≡ None) }
{
    let Some((first, _)) = line.split_first() else {
        return true;
    };
    if *first == b'<' {
        return true;
    }
    directive(special, line).is_none()
}

/// The characters after this line if it is a directive, or its fault. None where the line is no directive.
pub(crate) fn directive(special: Chars, line: &[u8]) -> Option<Result<Chars, LexFault>>
    ensures { result ≡ directive special line.now }
{
    let text = past_blanks(line);
    let (first, _) = text.split_first()?;
    if *first == b'c' {
        let operand = operand_of(b"comment_char", text)?;
        return Some(with_comment(special, named_character(past_blanks(operand))));
    }
    if *first == b'e' {
        let operand = operand_of(b"escape_char", text)?;
        return Some(with_escape(special, named_character(past_blanks(operand))));
    }
    None
}
