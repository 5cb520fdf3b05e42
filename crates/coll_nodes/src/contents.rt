//! What the nodes of a table are.
//!
//! A `Content` is plain data, which `specs/TableLayout.antt` reads a table from. A new kind of node is a new variant, and a
//! ring that holds it.

ghost use Rattle.std.specs.Prelude.{◌≡◌, Some, IfOk};
ghost use Rattle.coll_nodes.specs.Moving.{exchanged, weighed};

use crate::{Declaration, Entry};
use coll_lex::{ListBuf, TextBuf};
use coll_order::RingId;
use coll_syntax::Weight;
use std::alloc::AllocError;
use std::mem;

/// What a node of a table is.
pub enum Content {
    /// A declaration, in the ring of the declarations.
    Declared(Declaration),
    /// A section, in the ring of the sections.
    Begun {
        /// The name of the section; the first has none.
        name: Option<TextBuf>,
        /// The ring of its entries.
        ring: RingId,
    },
    /// An entry, in the ring of its section.
    Placed(Entry),
}

// Written out, so that each place that drops one is one call, with no step for each kind.
impl Drop for Content {
    #[inline]
    fn drop(self) {
        match self {
            Content::Declared(declaration) => drop(declaration),
            Content::Begun { name, ring: _ } => drop(name),
            Content::Placed(entry) => drop(entry),
        }
    }
}

impl Content {
    /// Exchanges the weights of an entry with these. What isn't an entry, and the weights, then stay.
    pub(crate) fn exchange(&mut self, weights: &mut ListBuf<Weight>)
        ensures content { self.new ≡ weighed (Some weights.old) self.old }
        ensures weights { Some weights.new ≡ exchanged (Some weights.old) (Some self.old) }
    {
        if let Content::Placed(entry) = self {
            mem::swap(&mut entry.weights, weights);
        }
    }
}

impl Clone for Content {
    ghost is_clone = { λ content copy. copy ≡ content };

    fn clone(&self) -> Result<Content, AllocError> {
        match self {
            Content::Declared(declaration) => {
                let declaration = declaration.clone()?;
                Ok(Content::Declared(declaration))
            }
            Content::Begun { name, ring } => {
                let name = copied_if_any(name)?;
                Ok(Content::Begun { name, ring: *ring })
            }
            Content::Placed(entry) => {
                let entry = entry.clone()?;
                Ok(Content::Placed(entry))
            }
        }
    }
}

// A copy of a name, if there is one.
fn copied_if_any(name: &Option<TextBuf>) -> Result<Option<TextBuf>, AllocError>
    ensures { IfOk result (λ copy. copy ≡ name.now) }
{
    match name {
        None => Ok(None),
        Some(name) => {
            let copy = name.try_copy()?;
            Ok(Some(copy))
        }
    }
}
