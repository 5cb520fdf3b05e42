//! Why a table refuses a statement.
//!
//! Each refusal has a number and a name, which replies and messages show. A new refusal is a new variant with its number
//! and its name, here and in `specs/Refusals.antt`.

ghost use Rattle.std.specs.Prelude.{◌≡◌};
ghost use Rattle.coll_table.specs.Refusals.{refusal_number, refusal_name};
ghost use Rattle.coll_table.specs.declared.refusals.Refusal.TheVariants.{OutOfMemory};

use std::alloc::{AllocError, AllocFailed};
use std::fmt;
use thiserror::Error;

/// Why a statement was refused. The table is then as it was.
#[derive(Clone, Copy, Debug, PartialEq, Eq, Error)]
pub enum Refusal {
    /// A name is declared already.
    DeclaredTwice,
    /// A line or a weight names what the table doesn't declare, or a second name is to be declared for that.
    NotDeclared,
    /// A line gives weights to a collating symbol, which has none.
    SymbolWithWeights,
    /// A line gives more weights than the table has levels.
    TooManyWeights,
    /// A weight names what has no entry in the table that would result.
    WeightNotPlaced,
    /// Another collating element has the string.
    StringTwice,
    /// The table would have more entries than `MOST_ENTRIES`, or more declarations than `MOST_DECLARATIONS`.
    Full,
    /// The target of a block has no entry.
    TargetNotPlaced,
    /// A line of a block has the identifier of the target, or of a line before it.
    TwiceInBlock,
    /// A section that is to be moved, or to be moved after, isn't there.
    NoSuchSection,
    /// A section is to be moved after itself.
    SectionAfterItself,
    /// An order line outside a block has an identifier without an entry.
    NotPlaced,
    /// An order line outside a block gives no weights.
    NoWeights,
    /// Memory was refused.
    OutOfMemory,
    /// What is to get a second name is a collating element, and no collating symbol.
    NotASymbol,
}

impl Refusal {
    /// The number that a reply or a message shows.
    pub fn number(self) -> u8
        ensures { result ≡ refusal_number self }
    {
        match self {
            Refusal::DeclaredTwice => 33,
            Refusal::NotDeclared => 34,
            Refusal::SymbolWithWeights => 36,
            Refusal::TooManyWeights => 37,
            Refusal::WeightNotPlaced => 38,
            Refusal::StringTwice => 39,
            Refusal::Full => 42,
            Refusal::TargetNotPlaced => 50,
            Refusal::TwiceInBlock => 51,
            Refusal::NoSuchSection => 52,
            Refusal::SectionAfterItself => 53,
            Refusal::NotPlaced => 54,
            Refusal::NoWeights => 55,
            Refusal::OutOfMemory => 70,
            Refusal::NotASymbol => 73,
        }
    }

    /// The name that a reply or a message shows.
    pub fn name(self) -> &'static str
        ensures { result.now ≡ refusal_name self }
    {
        match self {
            Refusal::DeclaredTwice => "DeclaredTwice",
            Refusal::NotDeclared => "NotDeclared",
            Refusal::SymbolWithWeights => "SymbolWithWeights",
            Refusal::TooManyWeights => "TooManyWeights",
            Refusal::WeightNotPlaced => "WeightNotPlaced",
            Refusal::StringTwice => "StringTwice",
            Refusal::Full => "Full",
            Refusal::TargetNotPlaced => "TargetNotPlaced",
            Refusal::TwiceInBlock => "TwiceInBlock",
            Refusal::NoSuchSection => "NoSuchSection",
            Refusal::SectionAfterItself => "SectionAfterItself",
            Refusal::NotPlaced => "NotPlaced",
            Refusal::NoWeights => "NoWeights",
            Refusal::OutOfMemory => "OutOfMemory",
            Refusal::NotASymbol => "NotASymbol",
        }
    }
}

impl fmt::Display for Refusal {
    fn fmt<W: fmt::Write>(&self, f: &mut fmt::Formatter<W>) -> fmt::Result {
        write!(f, "{} {}", self.number(), self.name())
    }
}

impl From<AllocError> for Refusal {
    ghost from_gives = { λ _ refusal. refusal ≡ OutOfMemory };

    fn from(_error: AllocError) -> Refusal {
        Refusal::OutOfMemory
    }
}

impl<T: Drop> From<AllocFailed<T>> for Refusal {
    ghost from_gives = { λ _ refusal. refusal ≡ OutOfMemory };

    fn from(_error: AllocFailed<T>) -> Refusal {
        Refusal::OutOfMemory
    }
}
