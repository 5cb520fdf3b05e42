//! Why a line is not read, and the tokens that sources alone have.

use coll_lex::Token;
use coll_syntax::{SyntaxFault, is_word};
use std::alloc::{AllocError, AllocFailed};

/// Why a line isn't read.
#[derive(Clone, Copy)]
pub(crate) enum Unread {
    /// It is no line of the grammar.
    NoLine,
    /// It has a range that goes backward, or whose ends have no common form.
    BadRange,
    /// Memory was refused.
    OutOfMemory,
}

impl From<AllocError> for Unread {
    fn from(_error: AllocError) -> Unread {
        Unread::OutOfMemory
    }
}

impl<T: Drop> From<AllocFailed<T>> for Unread {
    fn from(_error: AllocFailed<T>) -> Unread {
        Unread::OutOfMemory
    }
}

impl From<SyntaxFault> for Unread {
    fn from(fault: SyntaxFault) -> Unread {
        match fault {
            SyntaxFault::OutOfMemory => Unread::OutOfMemory,
            _ => Unread::NoLine,
        }
    }
}

/// Whether a token stands for what lies between: `..`, `...` or `....`.
pub(crate) fn is_ellipsis(token: &Token) -> bool {
    is_word(token, "..") || is_word(token, "...") || is_word(token, "....")
}
