//! Why a source is refused.
//!
//! A fault has a place and a cause, and a number and a name, which messages show. Where a fault is one that tables have too, it
//! keeps that number; those of sources alone begin at 80. A new cause is a new variant with its number and its name, here and in
//! `specs/SourceFaults.antt`.

ghost use Rattle.std.specs.Prelude.{◌≡◌};
ghost use Rattle.coll_texts.specs.declared.load_faults.LoadCause.TheVariants.{OutOfMemory};
ghost use Rattle.coll_texts.specs.LoadFaults.{lex_cause};
ghost use Rattle.coll_source_lines.specs.declared.source_faults.SourceCause.TheVariants.{Load};

use crate::SourcePlace;
use coll_lex::LexFault;
use coll_texts::LoadCause;
use std::alloc::{AllocError, AllocFailed};
use std::fmt;
use thiserror::Error;

/// Why a source is refused, and where.
#[derive(Clone, Copy, Debug, PartialEq, Eq, Error)]
#[error("{cause}")]
pub struct SourceFault {
    /// The line at fault. A text that ends too early has the number of its lines.
    pub place: SourcePlace,
    /// What is wrong.
    pub cause: SourceCause,
}

/// Why a source is refused.
#[derive(Clone, Copy, Debug, PartialEq, Eq, Error)]
pub enum SourceCause {
    /// What a table text is refused for as well.
    Load(LoadCause),
    /// A text copies one that it stands in itself.
    CopyOfItself,
    /// A text copies one of another folder: the name has a `/`.
    CopyElsewhere,
    /// The category ends within a condition.
    ConditionNotEnded,
    /// `else` or `endif` stands where no condition does, or a second `else`.
    NoCondition,
    /// A range goes backward, or its ends have no common form.
    BadRange,
}

impl SourceCause {
    ghost use Rattle.coll_source_lines.specs.SourceFaults.{source_cause_number, source_cause_name};

    /// The number that a message shows.
    pub fn number(self) -> u8
        ensures { result ≡ source_cause_number self }
    {
        match self {
            SourceCause::Load(cause) => cause.number(),
            SourceCause::CopyOfItself => 80,
            SourceCause::CopyElsewhere => 81,
            SourceCause::ConditionNotEnded => 82,
            SourceCause::NoCondition => 83,
            SourceCause::BadRange => 84,
        }
    }

    /// The name that a message shows.
    pub fn name(self) -> &'static str
        ensures { result.now ≡ source_cause_name self }
    {
        match self {
            SourceCause::Load(cause) => cause.name(),
            SourceCause::CopyOfItself => "CopyOfItself",
            SourceCause::CopyElsewhere => "CopyElsewhere",
            SourceCause::ConditionNotEnded => "ConditionNotEnded",
            SourceCause::NoCondition => "NoCondition",
            SourceCause::BadRange => "BadRange",
        }
    }
}

impl fmt::Display for SourceCause {
    fn fmt<W: fmt::Write>(&self, f: &mut fmt::Formatter<W>) -> fmt::Result {
        write!(f, "{} {}", self.number(), self.name())
    }
}

impl SourcePlace {
    /// A fault that stands here.
    pub fn fault(self, cause: SourceCause) -> SourceFault
        ensures { result ≡ record { place = self; cause = cause } }
    {
        SourceFault { place: self, cause }
    }

    /// A fault that tables have too, and that stands here.
    pub fn load_fault(self, cause: LoadCause) -> SourceFault
        ensures { result ≡ record { place = self; cause = Load cause } }
    {
        self.fault(SourceCause::Load(cause))
    }

    /// A fault of the lexer that stands here.
    pub fn lex_fault(self, fault: LexFault) -> SourceFault
        ensures { result ≡ record { place = self; cause = Load (lex_cause fault) } }
    {
        self.load_fault(LoadCause::from(fault))
    }
}

impl From<AllocError> for SourceFault {
    ghost from_gives = { λ _ fault. fault ≡ record { place = record { text = 0; line = 0 }; cause = Load OutOfMemory } };

    fn from(_error: AllocError) -> SourceFault {
        SourceFault {
            place: SourcePlace { text: 0, line: 0 },
            cause: SourceCause::Load(LoadCause::OutOfMemory),
        }
    }
}

impl<T: Drop> From<AllocFailed<T>> for SourceFault {
    ghost from_gives = { λ _ fault. fault ≡ record { place = record { text = 0; line = 0 }; cause = Load OutOfMemory } };

    fn from(_error: AllocFailed<T>) -> SourceFault {
        SourceFault {
            place: SourcePlace { text: 0, line: 0 },
            cause: SourceCause::Load(LoadCause::OutOfMemory),
        }
    }
}
