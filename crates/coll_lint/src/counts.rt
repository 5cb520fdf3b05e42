//! How a count is written for people, with a comma before each three digits: `1,234,567`.

ghost use Rattle.std.specs.Prelude.{◌≡◌, ◌+◌, ◌≤◌, ◌∷◌, ◌++◌, length};
ghost use Rattle.arrayvec.specs.ArrayVec.{array_vec_len};
ghost use Rattle.coll_lint.specs.Counts.{comma_behind, is_set_off as set_off_behind, set_off as digits_set_off, with_commas as commas};

use arrayvec::ArrayVec;
use itoa::Buffer;

// Most digits of a count, and most bytes, since a comma stands behind each of them at most.
const MOST_DIGITS: usize = 10;

// Most bytes of a count with its commas.
const MOST_COUNT_BYTES: usize = 2 * MOST_DIGITS;

/// The digits of a count, with their commas.
pub(crate) fn with_commas(count: u32) -> ArrayVec<u8, MOST_COUNT_BYTES>
    ensures { result.items ≡ commas count }
{
    let mut digits = Buffer::new();
    set_off(digits.format(count).as_bytes())
}

// Digits, with their commas.
fn set_off(digits: &[u8]) -> ArrayVec<u8, MOST_COUNT_BYTES>
    requires { length digits.now ≤ MOST_DIGITS }
    ensures { result.items ≡ digits_set_off digits.now }
{
    let mut text = ArrayVec::new();
    for (place, digit) in digits.iter().enumerate() {
        push_digit(&mut text, *digit, digits.len() - place - 1);
    }
    text
}

// Puts a digit with so many digits behind it at the end, with its comma.
fn push_digit(text: &mut ArrayVec<u8, MOST_COUNT_BYTES>, digit: u8, behind: usize)
    requires { array_vec_len text.old + 2 ≤ MOST_COUNT_BYTES }
    ensures { text.new.items ≡ text.old.items ++ (digit ∷ comma_behind behind) }
{
    text.push(digit);
    if is_set_off(behind) {
        text.push(b',');
    }
}

// Whether a comma stands behind a digit with so many digits behind it.
fn is_set_off(behind: usize) -> bool
    ensures { result ≡ set_off_behind behind }
{
    behind > 0 && behind % 3 == 0
}
