//! Why a text has no key, or two texts aren't compared.
//!
//! Each fault has a number and a name, which replies and messages show. A new fault is a new variant with its number and its
//! name, here and in `specs/KeyFaults.antt`.

ghost use Rattle.std.specs.Prelude.{◌≡◌};
ghost use Rattle.coll_key.specs.KeyFaults.{fault_number, fault_name};
ghost use Rattle.coll_key.specs.declared.key_faults.KeyFault.TheVariants.{OutOfMemory};

use std::alloc::{AllocError, AllocFailed};
use std::fmt;
use thiserror::Error;

/// Why a text has no key.
#[derive(Clone, Copy, Debug, PartialEq, Eq, Error)]
pub enum KeyFault {
    /// A text has more characters than `MOST_TEXT_CHARACTERS`.
    TextTooLong,
    /// Memory was refused.
    OutOfMemory,
}

impl KeyFault {
    /// The number that a reply or a message shows.
    pub fn number(self) -> u8
        ensures { result ≡ fault_number self }
    {
        match self {
            KeyFault::TextTooLong => 65,
            KeyFault::OutOfMemory => 70,
        }
    }

    /// The name that a reply or a message shows.
    pub fn name(self) -> &'static str
        ensures { result.now ≡ fault_name self }
    {
        match self {
            KeyFault::TextTooLong => "TextTooLong",
            KeyFault::OutOfMemory => "OutOfMemory",
        }
    }
}

impl fmt::Display for KeyFault {
    fn fmt<W: fmt::Write>(&self, f: &mut fmt::Formatter<W>) -> fmt::Result {
        write!(f, "{} {}", self.number(), self.name())
    }
}

impl From<AllocError> for KeyFault {
    ghost from_gives = { λ _ fault. fault ≡ OutOfMemory };

    fn from(_error: AllocError) -> KeyFault {
        KeyFault::OutOfMemory
    }
}

impl<T: Drop> From<AllocFailed<T>> for KeyFault {
    ghost from_gives = { λ _ fault. fault ≡ OutOfMemory };

    fn from(_error: AllocFailed<T>) -> KeyFault {
        KeyFault::OutOfMemory
    }
}
