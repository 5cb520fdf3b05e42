//! The stops of reading and of writing: why no line could be read, and why bytes could not be written.
//!
//! Each stop has a number and a name, which replies and messages show. A type lists the stops that its calls can
//! answer and no others, so a new stop is a new variant with its number and its name here and in the definitions
//! that the contracts cite.

ghost use Rattle.std.specs.Prelude.{◌≡◌};
ghost use Rattle.coll_devices.specs.Stops.{read_stop_number, read_stop_name, write_stop_number, write_stop_name};

use std::fmt;
use thiserror::Error;

/// Why no physical line could be read. A reader that has stopped answers the same stop from then on.
#[derive(Clone, Copy, Debug, PartialEq, Eq, Error)]
pub enum ReadStop {
    /// More than 65,536 bytes stand before a line feed.
    LineTooLong,
    /// A read of the device answered an error.
    ReadFault,
}

impl ReadStop {
    /// The number that a reply or a message shows.
    pub fn number(self) -> u8
        ensures { result ≡ read_stop_number self }
    {
        match self {
            ReadStop::LineTooLong => 10,
            ReadStop::ReadFault => 67,
        }
    }

    /// The name that a reply or a message shows.
    pub fn name(self) -> &'static str
        ensures { result.now ≡ read_stop_name self }
    {
        match self {
            ReadStop::LineTooLong => "LineTooLong",
            ReadStop::ReadFault => "ReadFault",
        }
    }
}

impl fmt::Display for ReadStop {
    fn fmt<W: fmt::Write>(&self, f: &mut fmt::Formatter<W>) -> fmt::Result {
        write!(f, "{} {}", self.number(), self.name())
    }
}

/// Why bytes could not be written.
#[derive(Clone, Copy, Debug, PartialEq, Eq, Error)]
pub enum WriteStop {
    /// A write or a flush of the device answered an error, or a write took no byte.
    WriteFault,
}

impl WriteStop {
    /// The number that a message shows.
    pub fn number(self) -> u8
        ensures { result ≡ write_stop_number self }
    {
        match self {
            WriteStop::WriteFault => 68,
        }
    }

    /// The name that a message shows.
    pub fn name(self) -> &'static str
        ensures { result.now ≡ write_stop_name self }
    {
        match self {
            WriteStop::WriteFault => "WriteFault",
        }
    }
}

impl fmt::Display for WriteStop {
    fn fmt<W: fmt::Write>(&self, f: &mut fmt::Formatter<W>) -> fmt::Result {
        write!(f, "{} {}", self.number(), self.name())
    }
}
