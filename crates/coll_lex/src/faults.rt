//! The faults of lines.
//!
//! Each fault has a number and a name, which replies and messages show. A fault type lists the faults that its
//! calls can answer and no others, so a new fault is a new variant with its number and its name here and in
//! the definitions that the contracts cite. Lack of memory is one fault among the others, by `From`.

ghost use Rattle.std.specs.Prelude.{◌≡◌};
ghost use Rattle.coll_lex.specs.Faults.{lex_fault_number, lex_fault_name, ends_text};
ghost use Rattle.coll_lex.specs.declared.faults.LexFault.TheVariants.{OutOfMemory};

use std::alloc::{AllocError, AllocFailed};
use std::fmt;
use thiserror::Error;

/// Why a line could not be lexed.
#[derive(Clone, Copy, Debug, PartialEq, Eq, Error)]
pub enum LexFault {
    /// A physical line isn't UTF-8.
    NotUtf8,
    /// The line ends in a symbol that no `>` has closed.
    OpenSymbol,
    /// Nothing stands between `<` and `>`.
    EmptySymbol,
    /// A name has more than 64 characters, or a blank or a control character.
    BadName,
    /// A symbol's digits are those of a surrogate, or of a number above 10FFFF.
    BadCodePoint,
    /// The line ends in a string that no `"` has closed.
    OpenString,
    /// The escape character stands before `d`, `x` or a digit 0 to 7, outside a symbol. POSIX.1-2017, 7.3, has
    /// character constants there; this product doesn't read them.
    CharacterConstant,
    /// The text ends where a line is continued.
    DanglingEscape,
    /// A physical line, or the physical lines of a continued line together, have more than 65,536 bytes.
    LineTooLong,
    /// Behind `comment_char` or `escape_char` stands no single character that is allowed there, or the one that the
    /// other directive has chosen.
    BadCharDirective,
    /// A text has more than 4,194,304 physical lines.
    TooManyLines,
    /// Memory was refused.
    OutOfMemory,
}

impl LexFault {
    /// The number that a reply or a message shows.
    pub fn number(self) -> u8
        ensures { result ≡ lex_fault_number self }
    {
        match self {
            LexFault::NotUtf8 => 1,
            LexFault::OpenSymbol => 2,
            LexFault::EmptySymbol => 3,
            LexFault::BadName => 4,
            LexFault::BadCodePoint => 5,
            LexFault::OpenString => 6,
            LexFault::CharacterConstant => 8,
            LexFault::DanglingEscape => 9,
            LexFault::LineTooLong => 10,
            LexFault::BadCharDirective => 11,
            LexFault::TooManyLines => 12,
            LexFault::OutOfMemory => 70,
        }
    }

    /// The name that a reply or a message shows.
    pub fn name(self) -> &'static str
        ensures { result.now ≡ lex_fault_name self }
    {
        match self {
            LexFault::NotUtf8 => "NotUtf8",
            LexFault::OpenSymbol => "OpenSymbol",
            LexFault::EmptySymbol => "EmptySymbol",
            LexFault::BadName => "BadName",
            LexFault::BadCodePoint => "BadCodePoint",
            LexFault::OpenString => "OpenString",
            LexFault::CharacterConstant => "CharacterConstant",
            LexFault::DanglingEscape => "DanglingEscape",
            LexFault::LineTooLong => "LineTooLong",
            LexFault::BadCharDirective => "BadCharDirective",
            LexFault::TooManyLines => "TooManyLines",
            LexFault::OutOfMemory => "OutOfMemory",
        }
    }
}

impl fmt::Display for LexFault {
    fn fmt<W: fmt::Write>(&self, f: &mut fmt::Formatter<W>) -> fmt::Result {
        write!(f, "{} {}", self.number(), self.name())
    }
}

impl LexFault {
    /// Whether a text ends with this fault, so that nothing behind its line is read: it does where a line is too long
    /// (10), or one too many (12).
    pub fn ends_text(self) -> bool
        ensures { result ≡ ends_text self }
    {
        matches!(self, LexFault::LineTooLong | LexFault::TooManyLines)
    }
}

impl From<AllocError> for LexFault {
    ghost from_gives = { λ _ fault. fault ≡ OutOfMemory };

    fn from(_error: AllocError) -> LexFault {
        LexFault::OutOfMemory
    }
}

impl<T: Drop> From<AllocFailed<T>> for LexFault {
    ghost from_gives = { λ _ fault. fault ≡ OutOfMemory };

    fn from(_error: AllocFailed<T>) -> LexFault {
        LexFault::OutOfMemory
    }
}
