//! What to do about a name that isn't declared, where its spelling shows what was meant.
//!
//! A symbol whose `>` was forgotten goes on to that of the next one, and so its name has a `<`; and a code point of too few or too many
//! digits, or behind `U+` as Unicode writes it, is the name of a symbol, and so is a character in brackets. Each may be a declared name,
//! so the sentence of the number stays true; what is told only stands beside it. A further spelling is a case of `by_spelling`.

ghost use Rattle.std.specs.Prelude.{◌≡◌, is_some};
ghost use Rattle.coll_advice.specs.FaultNumbers.{is_fault_number};

use crate::sentences::advice_of;
use coll_syntax::Id;

// The number of what isn't declared.
const NOT_DECLARED: u8 = 34;

// The number of a target that has no entry, declared or not.
const TARGET_NOT_PLACED: u8 = 50;

// What to do about a symbol that goes on to the end of another one.
const NO_END: &str =
    "close the symbol before the next < with >, or declare it with collating-symbol";

// What to do about a name of one character.
const CHARACTER: &str = "declare it with collating-symbol; a character stands without brackets";

// What to do about a code point that is spelled otherwise than here.
const CODE_POINT: &str =
    "spell a character as U and four to eight digits, or declare the name with collating-symbol";

// The same of a target.
const TARGET: &str =
    "spell a character as U and four to eight digits, or name a target that is placed";

// The same of a target.
const TARGET_CHARACTER: &str =
    "place the target first, or name one that is placed; a character stands without brackets";

/// What to do about a fault with a number, which is about this identifier, if it is about one; nothing where no fault has the number.
/// That is the sentence of the number but for a name that isn't declared, or has no entry, of which the spelling may show what was meant.
pub fn sentence_for(number: u8, id: Option<&Id>) -> Option<&'static str>
    ensures { is_some result ≡ is_fault_number number }
{
    match advice_of(number) {
        Some(told) => Some(by_identifier(number, id, told.sentence)),
        None => None,
    }
}

// What to do about such a fault, where this is the sentence of its number.
fn by_identifier(number: u8, id: Option<&Id>, sentence: &'static str) -> &'static str {
    match id {
        Some(Id::Named(name)) if number == NOT_DECLARED => by_spelling(name.get(), sentence),
        Some(Id::Named(name)) if number == TARGET_NOT_PLACED && is_code_point(name.get()) => TARGET,
        Some(Id::Named(name)) if number == TARGET_NOT_PLACED && is_character(name.get()) => {
            TARGET_CHARACTER
        }
        _ => sentence,
    }
}

// What to do about a name that isn't declared, where this is the sentence of any.
fn by_spelling(name: &str, sentence: &'static str) -> &'static str {
    if name.contains('<') {
        return NO_END;
    }
    if is_code_point(name) {
        return CODE_POINT;
    }
    if is_character(name) {
        return CHARACTER;
    }
    sentence
}

// Whether a name has no second character.
fn is_character(name: &str) -> bool {
    name.chars().nth(1).is_none()
}

/// Whether a name is that of a code point elsewhere: `U` or `U+` and hexadecimal digits alone. With four to eight digits behind `U` it is
/// no name here.
pub(crate) fn is_code_point(name: &str) -> bool {
    let bytes = name.as_bytes();
    match bytes {
        [b'U' | b'u', b'+', digits @ ..] => are_digits(digits),
        [b'U' | b'u', digits @ ..] => are_digits(digits),
        _ => false,
    }
}

// Whether there are hexadecimal digits, and nothing else.
fn are_digits(bytes: &[u8]) -> bool {
    for byte in bytes {
        if !byte.is_ascii_hexdigit() {
            return false;
        }
    }
    !bytes.is_empty()
}
