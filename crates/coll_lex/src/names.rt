//! Names: what stands between the brackets of a symbol and spells no code point.
//!
//! The scan of symbols decides by these tests what a symbol stands for; `is_name` is for names that come from
//! elsewhere. A change here is a change of `symbol_of` in `specs/Tokens.antt`.

ghost use Rattle.std.specs.Prelude.{◌≡◌, ◌||◌, nat_lt, length, chars, min, option_map, if◌then◌else◌};
ghost use Rattle.std.specs.List.{list_all};
ghost use Rattle.coll_lex.specs.Blanks.{is_blank};
ghost use Rattle.coll_lex.specs.Limits.{most_name_chars};
ghost use Rattle.coll_lex.specs.Names.{is_proper_name};
ghost use Rattle.coll_lex.specs.Runs.{is_graphic};
ghost use Rattle.coll_lex.specs.Tokens.{is_name as has_only_name_chars, code_point_of, hex_number, is_hex_digit, is_control};

use crate::blanks::is_blank;
use crate::limits::MOST_NAME_CHARS;

/// Whether a text is a name: 1 to 64 characters, none of them blank or control, and not `U` with four to eight
/// hexadecimal digits. It takes no memory.
pub fn is_name(text: &str) -> bool
    ensures { result ≡ is_proper_name (chars text.now) }
{
    if text.is_empty() {
        return false;
    }
    if code_point(text).is_some() {
        return false;
    }
    has_name_chars(text)
}

// The first number above all code points. Larger ones aren't told apart.
const PAST_CODE_POINTS: u32 = 0x11_0000;

// Whether a character is blank or a control character, so that no name has it.
fn is_barred(c: char) -> bool
    ensures { result ≡ (is_blank c || is_control c) }
{
    is_blank(c) || c < ' ' || c == '\u{7f}'
}

/// Whether a text is short enough for a name, and has no character that is barred from names.
pub(crate) fn has_name_chars(text: &str) -> bool
    ensures { result ≡ has_only_name_chars (chars text.now) }
{
    if text.len() <= MOST_NAME_CHARS && are_graphic(text.as_bytes()) {
        return true;
    }
    if is_long(text) {
        return false;
    }
    text.chars().all(|c| !is_barred(c))
}

// Whether all of these bytes are characters of ASCII that are seen: nearly all names have no others, and need no other look.
fn are_graphic(bytes: &[u8]) -> bool
    ensures { result ≡ list_all is_graphic bytes.now }
{
    bytes.iter().all(|byte| b' ' < *byte && *byte < 0x7f)
}

// Whether a text has too many characters for a name. They are counted only where its bytes are more than that.
fn is_long(text: &str) -> bool
    ensures { result ≡ nat_lt most_name_chars (length (chars text.now)) }
{
    text.len() > MOST_NAME_CHARS && text.chars().count() > MOST_NAME_CHARS
}

// The number that hexadecimal digits spell, but no more than the first number past the code points. None where
// one is no such digit.
fn hex_number(digits: &[u8]) -> Option<u32>
    ensures { result
        ≡ (if list_all is_hex_digit digits.now then Some (min (hex_number digits.now) PAST_CODE_POINTS) else None) }
{
    let mut number: u32 = 0;
    for digit in digits {
        let value = char::from(*digit).to_digit(16)?;
        number = PAST_CODE_POINTS.min(16 * number + value);
    }
    Some(number)
}

/// The number of the code point that a symbol names as `U` and four to eight hexadecimal digits.
pub(crate) fn code_point(name: &str) -> Option<u32>
    ensures { result ≡ option_map (λ n. min n PAST_CODE_POINTS) (code_point_of (chars name.now)) }
{
    let (first, digits) = name.as_bytes().split_first()?;
    if *first != b'U' {
        return None;
    }
    if digits.len() < 4 {
        return None;
    }
    if digits.len() > 8 {
        return None;
    }
    hex_number(digits)
}
