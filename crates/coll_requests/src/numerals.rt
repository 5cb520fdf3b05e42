//! Numerals: words of one to nine decimal digits, which a command may be given.
//!
//! The number of a numeral is `decimal_number` of `specs/Numerals.antt`. It fits in 32 bits, and takes no memory.

ghost use Rattle.std.specs.Prelude.{◌≡◌, ◌≢◌, Some, None, IfErr, chars, min, if◌then◌else◌};
ghost use Rattle.std.specs.List.{list_all};
ghost use Rattle.coll_syntax.specs.Operands.{only};
ghost use Rattle.coll_syntax.specs.declared.syntax_faults.SyntaxFault.TheVariants.{OutOfMemory};
ghost use Rattle.coll_requests.specs.Numerals.{is_digit, decimal_number, numeral_of, number_in};

use coll_lex::Token;
use coll_syntax::{SyntaxFault, ended};

// The first number of ten digits. Larger ones aren't told apart.
const PAST_NUMERALS: u64 = 1_000_000_000;

/// The one argument of a command, a numeral: its number.
pub(crate) fn only_number(arguments: &[Token]) -> Result<u32, SyntaxFault>
    ensures number { result ≡ only number_in arguments.now }
    ensures spared { IfErr result (λ fault. fault ≢ OutOfMemory) }
{
    let Some((argument, rest)) = arguments.split_first() else {
        return Err(SyntaxFault::MissingOperand);
    };
    let Token::Word(word) = argument else {
        return Err(SyntaxFault::BadOperand);
    };
    let Some(number) = number_of(word.get()) else {
        return Err(SyntaxFault::BadOperand);
    };
    ended(number, rest)
}

// The number that a text spells, if it is one to nine decimal digits.
fn number_of(text: &str) -> Option<u32>
    ensures { result ≡ numeral_of (chars text.now) }
{
    let digits = text.as_bytes();
    if digits.is_empty() {
        return None;
    }
    if digits.len() > 9 {
        return None;
    }
    capped_number(digits)
}

// The number that decimal digits spell, but no more than the first number of ten digits. None where one is no such digit.
fn capped_number(digits: &[u8]) -> Option<u32>
    ensures { result
        ≡ (if list_all is_digit digits.now then Some (min (decimal_number digits.now) PAST_NUMERALS) else None) }
{
    let mut number: u64 = 0;
    for digit in digits {
        let value = char::from(*digit).to_digit(10)?;
        number = PAST_NUMERALS.min(10 * number + u64::from(value));
    }
    Some(number as u32)
}
