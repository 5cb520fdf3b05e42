//! The faults that sessions and batches answer, and the one that ends a run.
//!
//! A fault of a lower part is kept as it came, so that it has one number and one name everywhere. A new kind of
//! fault is a new variant with its number and its name here and in `specs/Faults.antt`.

ghost use Rattle.std.specs.Prelude.{◌≡◌};
ghost use Rattle.coll_faults.specs.Faults.{fault_number, fault_name, fault_of, delta_fault_of};

use coll_devices::{ReadStop, WriteStop};
use coll_history::BenchFault;
use coll_key::KeyFault;
use coll_lex::LexFault;
use coll_requests::{DeltaCause, DeltaFault, RequestFault};
use coll_syntax::SyntaxFault;
use coll_table::Refusal;
use coll_texts::{LoadCause, LoadFault};
use std::fmt;
use thiserror::Error;

/// Why a line, a block or a statement of a session was refused, or why a run ended.
#[derive(Clone, Copy, Debug, PartialEq, Eq, Error)]
pub enum Fault {
    /// No further line could be read.
    Read(ReadStop),
    /// A reply could not be written.
    Write(WriteStop),
    /// The lexer refused a line.
    Lex(LexFault),
    /// The grammar refused a line, or the arguments of a command.
    Syntax(SyntaxFault),
    /// A table could not be loaded.
    Load(LoadFault),
    /// A table refused a statement of which no history is kept.
    Table(Refusal),
    /// A text has no key.
    Key(KeyFault),
    /// The table or the history of a session refused a statement, or nothing was to be taken back.
    Bench(BenchFault),
    /// A block is open, and what the line asks for isn't taken there.
    BlockOpen,
    /// The text ended in an open block.
    BlockNotEnded,
    /// The line begins with `:` and is no command.
    UnknownCommand,
    /// `reorder-end` stands where no block is open.
    NoBlock,
}

impl Fault {
    /// The number that a reply or a message shows.
    pub fn number(self) -> u8
        ensures { result ≡ fault_number self }
    {
        match self {
            Fault::Read(stop) => stop.number(),
            Fault::Write(stop) => stop.number(),
            Fault::Lex(fault) => fault.number(),
            Fault::Syntax(fault) => fault.number(),
            Fault::Load(fault) => fault.number(),
            Fault::Table(refusal) => refusal.number(),
            Fault::Key(fault) => fault.number(),
            Fault::Bench(fault) => fault.number(),
            Fault::BlockOpen => 62,
            Fault::BlockNotEnded => 63,
            Fault::UnknownCommand => 64,
            Fault::NoBlock => 69,
        }
    }

    /// The name that a reply or a message shows.
    pub fn name(self) -> &'static str
        ensures { result.now ≡ fault_name self }
    {
        match self {
            Fault::Read(stop) => stop.name(),
            Fault::Write(stop) => stop.name(),
            Fault::Lex(fault) => fault.name(),
            Fault::Syntax(fault) => fault.name(),
            Fault::Load(fault) => fault.name(),
            Fault::Table(refusal) => refusal.name(),
            Fault::Key(fault) => fault.name(),
            Fault::Bench(fault) => fault.name(),
            Fault::BlockOpen => "BlockOpen",
            Fault::BlockNotEnded => "BlockNotEnded",
            Fault::UnknownCommand => "UnknownCommand",
            Fault::NoBlock => "NoBlock",
        }
    }
}

impl fmt::Display for Fault {
    fn fmt<W: fmt::Write>(&self, f: &mut fmt::Formatter<W>) -> fmt::Result {
        write!(f, "{} {}", self.number(), self.name())
    }
}

impl From<RequestFault> for Fault {
    ghost from_gives = { λ found fault. fault ≡ fault_of found };

    fn from(found: RequestFault) -> Fault {
        match found {
            RequestFault::Lex(fault) => Fault::Lex(fault),
            RequestFault::Syntax(fault) => Fault::Syntax(fault),
            RequestFault::BlockOpen => Fault::BlockOpen,
            RequestFault::BlockNotEnded => Fault::BlockNotEnded,
            RequestFault::UnknownCommand => Fault::UnknownCommand,
            RequestFault::NoBlock => Fault::NoBlock,
        }
    }
}

impl From<DeltaFault> for Fault {
    ghost from_gives = { λ found fault. fault ≡ delta_fault_of found.line found.cause };

    fn from(found: DeltaFault) -> Fault {
        let line = found.line;
        match found.cause {
            DeltaCause::Request(fault) => Fault::from(fault),
            DeltaCause::NoCategory => Fault::Load(LoadFault {
                line,
                cause: LoadCause::NoCategory,
            }),
            DeltaCause::NoEnd => Fault::Load(LoadFault {
                line,
                cause: LoadCause::NoEnd,
            }),
        }
    }
}

/// The fault that ended a run.
#[derive(Clone, Copy, Debug, PartialEq, Eq, Error)]
#[error("{line}: {fault}")]
pub struct RunFault {
    /// Which input it comes from. A session has one, which is 0.
    pub input: usize,
    /// The number of the line that it comes from, from 1, or 0 where it comes from none.
    pub line: u32,
    /// What it is.
    pub fault: Fault,
}
