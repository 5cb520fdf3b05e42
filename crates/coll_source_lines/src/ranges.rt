//! Ranges of names: letters that all have, and then a number of as many digits in each.
//!
//! All names of a range are spelled in one room, and kept as short texts are, which take no memory. `spell_next` makes of a name the one
//! behind it; where that is more than another last digit it is left to `spell_name`, the simple form; `range_name` says what both spell.

ghost use Rattle.std.specs.Prelude.{◌≡◌, ◌==◌, ◌<◌, ◌≤◌, ◌+◌, ◌-◌, ◌/◌, ◌%◌, ◌^◌, ◌++◌, ℕ, List, [], Some, length, chars, string_bytes, IfOk, IfSome, IfNone, OnOk};
ghost use Rattle.coll_lex.specs.Spelling.{hex_digit};
ghost use Rattle.coll_source_lines.specs.NameRanges.{base_of, digits_in, range_name, HasDigits, HasNumber};

use coll_lex::TextBuf;
use std::alloc::{AllocError, Global};

// Most digits of the number in a name of a range.
const MOST_DIGITS: usize = 8;

/// How the numbers of a range are spelled.
#[derive(Clone, Copy)]
pub enum Digits {
    /// `...` and `....`.
    Decimal,
    /// `..`.
    Hexadecimal,
}

impl Digits {
    // How many digits there are.
    fn base(self) -> u32
        ensures { result ≡ base_of self }
    {
        match self {
            Digits::Decimal => 10,
            Digits::Hexadecimal => 16,
        }
    }

    // What a number is without its last digit.
    fn without_last(self, number: u32) -> u32
        ensures { result ≡ number / base_of self }
    {
        match self {
            Digits::Decimal => number / 10,
            Digits::Hexadecimal => number / 16,
        }
    }

    // The last digit of a number.
    fn last(self, number: u32) -> u32
        ensures value { result ≡ number % base_of self }
        ensures small { result < 16 }
    {
        match self {
            Digits::Decimal => number % 10,
            Digits::Hexadecimal => number % 16,
        }
    }
}

/// A range of names.
pub struct NameRange {
    // What all names begin with.
    letters: TextBuf,
    // How many digits each has behind that, at most eight.
    width: usize,
    // How they are spelled.
    digits: Digits,
    /// The number of the first name.
    pub first: u32,
    /// The number of the last one.
    pub last: u32,
}

// Written out, so that each place that drops one is one call, with no step for each part.
impl Drop for NameRange {
    fn drop(self) {
        let NameRange {
            letters,
            width: _,
            digits: _,
            first: _,
            last: _,
        } = self;
        drop(letters);
    }
}

impl NameRange {
    /// A copy.
    pub fn try_copy(&self) -> Result<NameRange, AllocError>
        ensures { IfOk result (λ copy. copy ≡ self.now) }
    {
        let letters = self.letters.try_copy()?;
        Ok(NameRange {
            letters,
            width: self.width,
            digits: self.digits,
            first: self.first,
            last: self.last,
        })
    }

    /// How many names it has.
    pub fn count(&self) -> usize
        ensures { result ≡ self.now.last - self.now.first + 1 }
    {
        (self.last.saturating_sub(self.first) as usize).saturating_add(1)
    }

    /// Whether its digits are hexadecimal.
    pub fn is_hexadecimal(&self) -> bool
        ensures { result ≡ (base_of self.now.digits == 16) }
    {
        matches!(self.digits, Digits::Hexadecimal)
    }

    /// The number of a name, if the range has it. It takes no memory.
    pub fn number(&self, name: &str) -> Option<u32>
        ensures name { IfSome result (λ number. range_name self.now number ≡ chars name.now) }
        ensures within { IfSome result (λ number. (self.now.first ≤ number) × (number ≤ self.now.last)) }
        ensures found { (number : ℕ) → HasNumber self.now number → range_name self.now number ≡ chars name.now → result ≡ Some number }
    {
        let digits = self.digits_behind(name)?;
        let number = upper_number(digits, self.digits)?;
        if number < self.first || self.last < number {
            return None;
        }
        Some(number)
    }

    // The digits of a name, if it has the letters of the range, and as many digits behind them.
    fn digits_behind<'a>(&self, name: &'a str) -> Option<&'a [u8]>
        ensures some { IfSome result (λ digits. HasDigits self.now name.now digits.now) }
        ensures none { IfNone result ((digits : List ℕ) → HasDigits self.now name.now digits → ⊥) }
    {
        let letters = self.letters.get().as_bytes();
        let (front, digits) = name.as_bytes().split_at_checked(letters.len())?;
        if digits.len() != self.width {
            return None;
        }
        if front != letters {
            return None;
        }
        Some(digits)
    }
}

/// The range from one name to another; none where they have no common form, or the last stands before the first.
pub fn name_range(
    alloc: Global,
    first: &str,
    last: &str,
    digits: Digits,
) -> Result<Option<NameRange>, AllocError> {
    let common = common_length(first, last);
    let (Some(letters), Some(from), Some(to)) = (
        first.get(..common),
        first.as_bytes().get(common..),
        last.as_bytes().get(common..),
    ) else {
        return Ok(None);
    };
    if from.len() != to.len() || from.len() > MOST_DIGITS {
        return Ok(None);
    }
    match (number_of(from, digits), number_of(to, digits)) {
        (Some(first), Some(last)) if first <= last => Ok(Some(NameRange {
            letters: TextBuf::copied(alloc, letters)?,
            width: from.len(),
            digits,
            first,
            last,
        })),
        _ => Ok(None),
    }
}

// How many bytes the characters have that two names begin with.
fn common_length(first: &str, last: &str) -> usize {
    let mut length = 0usize;
    for (c, d) in first.chars().zip(last.chars()) {
        if c != d {
            return length;
        }
        length = length.saturating_add(c.len_utf8());
    }
    length
}

// The number that digits spell, in upper or lower case; none where one is no digit.
fn number_of(digits: &[u8], spelled: Digits) -> Option<u32> {
    let mut number = 0u32;
    for digit in digits {
        number = with_digit(number, digit.to_ascii_uppercase(), spelled)?;
    }
    Some(number)
}

// The number that digits spell as names of ranges are spelled, in upper case.
fn upper_number(digits: &[u8], spelled: Digits) -> Option<u32>
    ensures spells { IfSome result (λ number. digits_in (base_of spelled) (length digits.now) number ≡ digits.now) }
    ensures found { (number : ℕ) → number < 2 ^ 32 → number < base_of spelled ^ length digits.now
        → digits_in (base_of spelled) (length digits.now) number ≡ digits.now → result ≡ Some number }
{
    let mut number = 0u32;
    for digit in digits {
        number = with_digit(number, *digit, spelled)?;
    }
    Some(number)
}

// A number with a digit more, which is in upper case.
fn with_digit(number: u32, digit: u8, spelled: Digits) -> Option<u32>
    ensures spells { IfSome result (λ more. (more / base_of spelled ≡ number) × (hex_digit (more % base_of spelled) ≡ digit)) }
    ensures found { (more : ℕ) → more < 2 ^ 32 → more / base_of spelled ≡ number → hex_digit (more % base_of spelled) ≡ digit
        → result ≡ Some more }
{
    let value = digit_value(digit)?;
    let base = spelled.base();
    if value >= base {
        return None;
    }
    number.checked_mul(base)?.checked_add(value)
}

// What a digit in upper case is worth.
fn digit_value(digit: u8) -> Option<u32>
    ensures some { IfSome result (λ value. (value < 16) × (hex_digit value ≡ digit)) }
    ensures found { (value : ℕ) → value < 16 → hex_digit value ≡ digit → result ≡ Some value }
{
    match digit {
        b'0'..=b'9' => Some(u32::from(digit - b'0')),
        b'A'..=b'F' => Some(u32::from(digit - b'A' + 10)),
        _ => None,
    }
}

/// The name of a range that has this number, in new memory.
pub fn name_at(alloc: Global, range: &NameRange, number: u32) -> Result<TextBuf, AllocError>
    ensures { IfOk result (λ name. name ≡ range_name range.now number) }
{
    let mut name = String::with_capacity(
        alloc,
        range.letters.get().len().saturating_add(range.width),
    )?;
    spell_name(&mut name, range, number)?;
    TextBuf::copied(alloc, name.as_str())
}

/// Spells the name of a range that has this number in place of a text: so one room serves all names of a range.
pub fn spell_name(name: &mut String, range: &NameRange, number: u32) -> Result<(), AllocError>
    ensures { OnOk result (chars (string_bytes name.new) ≡ range_name range.now number) }
{
    name.clear();
    name.push_str(range.letters.get())?;
    push_digits(name, range.digits, range.width, number)?;
    Ok(())
}

/// Spells the name of a range that has this number in place of that of the number before, or in place of no text: mostly the last digit
/// alone is another one.
pub fn spell_next(name: &mut String, range: &NameRange, number: u32) -> Result<(), AllocError>
    ensures first { OnOk result (string_bytes name.old ≡ [] → chars (string_bytes name.new) ≡ range_name range.now number) }
    ensures next { OnOk result (chars (string_bytes name.old) ≡ range_name range.now (number - 1)
        → chars (string_bytes name.new) ≡ range_name range.now number) }
{
    let last = range.digits.last(number);
    if last == 0 || range.width == 0 {
        return spell_name(name, range, number);
    }
    let Some(before) = name.pop() else {
        return spell_name(name, range, number);
    };
    if before > '\u{7f}' {
        return spell_name(name, range, number);
    }
    name.push(digit(last))?;
    Ok(())
}

// Puts the last digits of a number at the end of a name, as many as are asked for.
#[tactic(auto, unfolding(crate::specs::NameRanges::digits_in))]
fn push_digits(
    name: &mut String,
    digits: Digits,
    count: usize,
    number: u32,
) -> Result<(), AllocError>
    ensures { OnOk result (chars (string_bytes name.new) ≡ chars (string_bytes name.old) ++ digits_in (base_of digits) count number) }
{
    if count == 0 {
        return Ok(());
    }
    push_digits(name, digits, count - 1, digits.without_last(number))?;
    name.push(digit(digits.last(number)))?;
    Ok(())
}

// A digit, in upper case.
fn digit(value: u32) -> char
    requires { value < 16 }
    ensures value { result ≡ hex_digit value }
    ensures ascii { result < 128 }
{
    if value < 10 {
        char::from(b'0' + value as u8)
    } else {
        char::from(b'A' - 10 + value as u8)
    }
}
