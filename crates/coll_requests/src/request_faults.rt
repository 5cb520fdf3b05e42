//! The faults of the lines of a session or of a delta file, which are found apart from any table.
//!
//! A fault of the lexer or of the grammar is kept as it came, so that it has one number and one name everywhere. A new kind
//! of fault is a new variant with its number and its name here and in `specs/RequestFaults.antt`.

ghost use Rattle.std.specs.Prelude.{◌≡◌};
ghost use Rattle.coll_requests.specs.RequestFaults.{request_fault_number, request_fault_name, is_lack_of_memory as lacks_memory};

use coll_lex::LexFault;
use coll_syntax::SyntaxFault;
use std::fmt;
use thiserror::Error;

/// Why a line, a block or a command is refused before any table is looked at.
#[derive(Clone, Copy, Debug, PartialEq, Eq, Error)]
pub enum RequestFault {
    /// The lexer refused a line.
    Lex(LexFault),
    /// The grammar refused a line, or the arguments of a command.
    Syntax(SyntaxFault),
    /// A block is open, and what the line asks for isn't taken there.
    BlockOpen,
    /// The text ended in an open block.
    BlockNotEnded,
    /// The line begins with `:` and is no command.
    UnknownCommand,
    /// `reorder-end` stands where no block is open.
    NoBlock,
}

impl RequestFault {
    /// The number that a reply or a message shows.
    pub fn number(self) -> u8
        ensures { result ≡ request_fault_number self }
    {
        match self {
            RequestFault::Lex(fault) => fault.number(),
            RequestFault::Syntax(fault) => fault.number(),
            RequestFault::BlockOpen => 62,
            RequestFault::BlockNotEnded => 63,
            RequestFault::UnknownCommand => 64,
            RequestFault::NoBlock => 69,
        }
    }

    /// The name that a reply or a message shows.
    pub fn name(self) -> &'static str
        ensures { result.now ≡ request_fault_name self }
    {
        match self {
            RequestFault::Lex(fault) => fault.name(),
            RequestFault::Syntax(fault) => fault.name(),
            RequestFault::BlockOpen => "BlockOpen",
            RequestFault::BlockNotEnded => "BlockNotEnded",
            RequestFault::UnknownCommand => "UnknownCommand",
            RequestFault::NoBlock => "NoBlock",
        }
    }

    /// Whether memory was refused, whatever for.
    pub fn is_lack_of_memory(self) -> bool
        ensures { result ≡ lacks_memory self }
    {
        match self {
            RequestFault::Lex(LexFault::OutOfMemory) => true,
            RequestFault::Syntax(SyntaxFault::OutOfMemory) => true,
            _ => false,
        }
    }
}

impl fmt::Display for RequestFault {
    fn fmt<W: fmt::Write>(&self, f: &mut fmt::Formatter<W>) -> fmt::Result {
        write!(f, "{} {}", self.number(), self.name())
    }
}
