//! What stands in an order: characters, names that a table declares, and `UNDEFINED`.
//!
//! An `Id` is plain data. Two are the same where `same_id` of `specs/Identifier.antt` says so; how a token spells one
//! is said there too.

ghost use Rattle.std.specs.Prelude.{◌≡◌};
ghost use lib.Utf8.{scalar};

use coll_lex::{TextBuf, is_name};
use std::alloc::AllocError;

/// An identifier of an order (POSIX.1-2017, 7.3.2.4).
#[derive(Debug, Drop)]
pub enum Id {
    /// A character, which needs no declaration.
    Char(char),
    /// A name that the table declares. It has 1 to 64 characters.
    Named(TextBuf),
    /// The word `UNDEFINED`: all characters that have no entry.
    Undefined,
}

impl Clone for Id {
    ghost is_clone = { λ id copy. copy ≡ id };

    fn clone(&self) -> Result<Id, AllocError> {
        match self {
            Id::Char(c) => Ok(Id::Char(*c)),
            Id::Named(name) => {
                let name = name.try_copy()?;
                Ok(Id::Named(name))
            }
            Id::Undefined => Ok(Id::Undefined),
        }
    }
}

impl Id {
    ghost use Rattle.coll_syntax.specs.Identifier.{same_id};
    ghost use Rattle.coll_syntax.specs.Proper.{is_proper_id, is_weight_id};

    /// Whether two identifiers are the same: the same character, the same name, or both `UNDEFINED`.
    pub fn is_same(&self, other: &Id) -> bool
        ensures { result ≡ same_id self.now other.now }
    {
        match (self, other) {
            (Id::Char(a), Id::Char(b)) => *a == *b,
            (Id::Named(a), Id::Named(b)) => a.get() == b.get(),
            (Id::Undefined, Id::Undefined) => true,
            _ => false,
        }
    }

    /// Whether it is an identifier: a name in it is a name.
    pub(crate) fn is_proper(&self) -> bool
        ensures { result ≡ is_proper_id self.now }
    {
        match self {
            Id::Char(c) => is_character(*c),
            Id::Named(name) => is_name(name.get()),
            Id::Undefined => true,
        }
    }

    /// Whether it may stand in a weight: a character or a name.
    pub(crate) fn is_weight_id(&self) -> bool
        ensures { result ≡ is_weight_id self.now }
    {
        match self {
            Id::Char(c) => is_character(*c),
            Id::Named(name) => is_name(name.get()),
            Id::Undefined => false,
        }
    }
}

// Whether this is a character, that is a Unicode scalar value. Each `char` is one, so nothing is left to test.
fn is_character(_c: char) -> bool
    ensures { result ≡ scalar _c }
{
    true
}
