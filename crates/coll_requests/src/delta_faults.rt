//! Why a delta file could not be read.
//!
//! A fault has a line and a cause, and a number and a name, which messages show: those of its cause, and a fault of a line
//! keeps its own. A new cause is a new variant with its number and its name, here and in `specs/DeltaFaults.antt`.

ghost use Rattle.std.specs.Prelude.{◌≡◌};

use crate::request_faults::RequestFault;
use coll_lex::{EarlyEnd, LexFault};
use std::fmt;
use thiserror::Error;

/// Why a delta file could not be read, and where.
#[derive(Clone, Copy, Debug, PartialEq, Eq, Error)]
#[error("line {line}: {cause}")]
pub struct DeltaFault {
    /// The number of the line at fault, from 1; of a file that ends too early, the number of its lines, which may be 0.
    pub line: u32,
    /// What was wrong.
    pub cause: DeltaCause,
}

impl DeltaFault {
    ghost use Rattle.coll_requests.specs.DeltaFaults.{delta_fault_number, delta_fault_name};

    /// The number that a message shows, which is that of the cause.
    pub fn number(self) -> u8
        ensures { result ≡ delta_fault_number self }
    {
        self.cause.number()
    }

    /// The name that a message shows, which is that of the cause.
    pub fn name(self) -> &'static str
        ensures { result.now ≡ delta_fault_name self }
    {
        self.cause.name()
    }
}

/// Why a delta file could not be read.
#[derive(Clone, Copy, Debug, PartialEq, Eq, Error)]
pub enum DeltaCause {
    /// A line or a block is refused.
    Request(RequestFault),
    /// The file has no line `LC_COLLATE`.
    NoCategory,
    /// The file ends before its category does.
    NoEnd,
}

impl DeltaCause {
    ghost use Rattle.coll_requests.specs.DeltaFaults.{delta_cause_number, delta_cause_name, lacks_memory};

    /// The number that a message shows.
    pub fn number(self) -> u8
        ensures { result ≡ delta_cause_number self }
    {
        match self {
            DeltaCause::Request(fault) => fault.number(),
            DeltaCause::NoCategory => 30,
            DeltaCause::NoEnd => 43,
        }
    }

    /// The name that a message shows.
    pub fn name(self) -> &'static str
        ensures { result.now ≡ delta_cause_name self }
    {
        match self {
            DeltaCause::Request(fault) => fault.name(),
            DeltaCause::NoCategory => "NoCategory",
            DeltaCause::NoEnd => "NoEnd",
        }
    }

    /// Whether memory was refused.
    pub fn is_lack_of_memory(self) -> bool
        ensures { result ≡ lacks_memory self }
    {
        match self {
            DeltaCause::Request(fault) => fault.is_lack_of_memory(),
            DeltaCause::NoCategory => false,
            DeltaCause::NoEnd => false,
        }
    }
}

impl From<EarlyEnd> for DeltaFault {
    ghost use Rattle.coll_requests.specs.DeltaFaults.{early_fault};

    ghost from_gives = { λ end fault. fault ≡ early_fault end };

    fn from(end: EarlyEnd) -> DeltaFault {
        let (line, cause) = match end {
            EarlyEnd::LeftOpen(line) => (
                line,
                DeltaCause::Request(RequestFault::Lex(LexFault::DanglingEscape)),
            ),
            EarlyEnd::WithinCategory(line) => (line, DeltaCause::NoEnd),
            EarlyEnd::BeforeCategory(line) => (line, DeltaCause::NoCategory),
        };
        DeltaFault { line, cause }
    }
}

impl fmt::Display for DeltaCause {
    fn fmt<W: fmt::Write>(&self, f: &mut fmt::Formatter<W>) -> fmt::Result {
        write!(f, "{} {}", self.number(), self.name())
    }
}
