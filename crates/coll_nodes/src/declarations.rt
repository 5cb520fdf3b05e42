//! What a table declares: collating symbols, collating elements, and second names for symbols.
//!
//! A declaration is plain data, which a line of a table or of a delta gives; a new kind of declaration is a new variant.

ghost use Rattle.std.specs.Prelude.{◌≡◌};

use coll_lex::TextBuf;
use std::alloc::AllocError;

/// A declaration of a table (POSIX.1-2017, 7.3.2.1 and 7.3.2.2; second names are the project's own meaning of a line that some
/// tables have).
#[derive(Debug)]
pub enum Declaration {
    /// A collating symbol, which has a place in the order and no weights.
    Symbol(TextBuf),
    /// A collating element.
    Element {
        /// Its name, which is apart from all names declared.
        name: TextBuf,
        /// The characters that it stands for, 2 to 16.
        text: TextBuf,
    },
    /// A second name for a collating symbol.
    Equivalence {
        /// The second name, which is apart from all names declared.
        name: TextBuf,
        /// The own name of the symbol that it stands for.
        symbol: TextBuf,
    },
}

// Written out, so that each place that drops one is one call, with no step for each kind.
impl Drop for Declaration {
    #[inline]
    fn drop(self) {
        match self {
            Declaration::Symbol(name) => drop(name),
            Declaration::Element { name, text } => {
                drop(name);
                drop(text);
            }
            Declaration::Equivalence { name, symbol } => {
                drop(name);
                drop(symbol);
            }
        }
    }
}

impl Clone for Declaration {
    ghost is_clone = { λ declaration copy. copy ≡ declaration };

    fn clone(&self) -> Result<Declaration, AllocError> {
        match self {
            Declaration::Symbol(name) => {
                let name = name.try_copy()?;
                Ok(Declaration::Symbol(name))
            }
            Declaration::Element { name, text } => {
                let name = name.try_copy()?;
                let text = text.try_copy()?;
                Ok(Declaration::Element { name, text })
            }
            Declaration::Equivalence { name, symbol } => {
                let name = name.try_copy()?;
                let symbol = symbol.try_copy()?;
                Ok(Declaration::Equivalence { name, symbol })
            }
        }
    }
}
