//! The faults of lines that have tokens but don't say anything.
//!
//! Each fault has a number and a name, which replies and messages show. A new fault is a new variant with its number and
//! its name, here and in `specs/SyntaxFaults.antt`.

ghost use Rattle.std.specs.Prelude.{◌≡◌};
ghost use Rattle.coll_syntax.specs.SyntaxFaults.{syntax_fault_number, syntax_fault_name};
ghost use Rattle.coll_syntax.specs.declared.syntax_faults.SyntaxFault.TheVariants.{OutOfMemory};

use std::alloc::{AllocError, AllocFailed};
use std::fmt;
use thiserror::Error;

/// Why a line could not be read as one of a table or a delta.
#[derive(Clone, Copy, Debug, PartialEq, Eq, Error)]
pub enum SyntaxFault {
    /// The first token begins no line of this kind.
    UnknownStatement,
    /// A token is wanted and the line has ended.
    MissingOperand,
    /// A token is left over.
    ExtraOperand,
    /// What stands between two semicolons after `order_start` is no rule.
    BadRule,
    /// A fifth operand of `order_start`, whatever it holds.
    TooManyLevels,
    /// A weight has more than 32 identifiers.
    WeightTooLong,
    /// The string of a collating element has fewer than 2 or more than 16 characters.
    ElementLength,
    /// A block has more lines than allowed. Whoever builds the block answers it.
    BlockTooLong,
    /// A string that has to spell something is empty.
    EmptyString,
    /// A token is of the wrong kind.
    BadOperand,
    /// Memory was refused.
    OutOfMemory,
}

impl SyntaxFault {
    /// The number that a reply or a message shows.
    pub fn number(self) -> u8
        ensures { result ≡ syntax_fault_number self }
    {
        match self {
            SyntaxFault::UnknownStatement => 20,
            SyntaxFault::MissingOperand => 21,
            SyntaxFault::ExtraOperand => 22,
            SyntaxFault::BadRule => 23,
            SyntaxFault::TooManyLevels => 24,
            SyntaxFault::WeightTooLong => 25,
            SyntaxFault::ElementLength => 26,
            SyntaxFault::BlockTooLong => 27,
            SyntaxFault::EmptyString => 28,
            SyntaxFault::BadOperand => 29,
            SyntaxFault::OutOfMemory => 70,
        }
    }

    /// The name that a reply or a message shows.
    pub fn name(self) -> &'static str
        ensures { result.now ≡ syntax_fault_name self }
    {
        match self {
            SyntaxFault::UnknownStatement => "UnknownStatement",
            SyntaxFault::MissingOperand => "MissingOperand",
            SyntaxFault::ExtraOperand => "ExtraOperand",
            SyntaxFault::BadRule => "BadRule",
            SyntaxFault::TooManyLevels => "TooManyLevels",
            SyntaxFault::WeightTooLong => "WeightTooLong",
            SyntaxFault::ElementLength => "ElementLength",
            SyntaxFault::BlockTooLong => "BlockTooLong",
            SyntaxFault::EmptyString => "EmptyString",
            SyntaxFault::BadOperand => "BadOperand",
            SyntaxFault::OutOfMemory => "OutOfMemory",
        }
    }
}

impl fmt::Display for SyntaxFault {
    fn fmt<W: fmt::Write>(&self, f: &mut fmt::Formatter<W>) -> fmt::Result {
        write!(f, "{} {}", self.number(), self.name())
    }
}

impl From<AllocError> for SyntaxFault {
    ghost from_gives = { λ _ fault. fault ≡ OutOfMemory };

    fn from(_error: AllocError) -> SyntaxFault {
        SyntaxFault::OutOfMemory
    }
}

impl<T: Drop> From<AllocFailed<T>> for SyntaxFault {
    ghost from_gives = { λ _ fault. fault ≡ OutOfMemory };

    fn from(_error: AllocFailed<T>) -> SyntaxFault {
        SyntaxFault::OutOfMemory
    }
}
