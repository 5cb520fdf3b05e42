//! Weights that name what isn't placed yet: they are given at the end.

use coll_lookups::{HashKeys, WordKeys};
use coll_source_lines::SourcePlace;
use coll_syntax::{Id, OrderLine};
use indexmap::IndexMap;
use std::alloc::{AllocError, Global};

/// An order line, and where it comes from.
#[derive(Drop)]
pub(crate) struct LineAt {
    pub(crate) place: SourcePlace,
    pub(crate) line: OrderLine,
}

/// The order lines whose weights are given at the end, at most one for an identifier.
#[derive(Drop)]
pub(crate) struct LaterWeights {
    // In the order of the source; none where a later line has taken it back.
    lines: Vec<Option<LineAt>>,
    // Where that of an identifier stands.
    places: IndexMap<String, usize, WordKeys>,
    alloc: Global,
}

impl LaterWeights {
    /// There are none. It takes no memory.
    pub(crate) fn new(alloc: Global, keys: HashKeys) -> LaterWeights {
        LaterWeights {
            lines: Vec::new(alloc),
            places: IndexMap::with_hasher(alloc, WordKeys::new(keys)),
            alloc,
        }
    }

    /// Keeps a line for the end, in place of one of the same identifier.
    pub(crate) fn keep(&mut self, place: SourcePlace, line: OrderLine) -> Result<(), AllocError> {
        match self.keep_place(&line.id) {
            Ok(()) => Ok(self.lines.push(Some(LineAt { place, line }))?),
            Err(error) => {
                drop(line);
                Err(error)
            }
        }
    }

    // Notes that the next line is that of an identifier, and drops the one before.
    fn keep_place(&mut self, id: &Id) -> Result<(), AllocError> {
        let key = key_of(self.alloc, id)?;
        if let Some(before) = self.places.insert(key, self.lines.len())? {
            self.drop_at(before);
        }
        Ok(())
    }

    /// Takes the line of an identifier back, if there is one: it has got other weights.
    pub(crate) fn take_back(&mut self, id: &Id) -> Result<(), AllocError> {
        if self.places.is_empty() {
            return Ok(());
        }
        let key = key_of(self.alloc, id)?;
        if let Some(at) = self.places.swap_remove(key.as_str()) {
            self.drop_at(at);
        }
        Ok(())
    }

    // Drops a line.
    fn drop_at(&mut self, at: usize) {
        if let Some(line) = self.lines.get_mut(at) {
            drop(line.take());
        }
    }

    /// Takes the lines out, in the order of the source.
    pub(crate) fn take_lines(&mut self) -> Vec<Option<LineAt>> {
        std::mem::replace(&mut self.lines, Vec::new(self.alloc))
    }
}

// What an identifier is looked up by: no two have the same.
fn key_of(alloc: Global, id: &Id) -> Result<String, AllocError> {
    let mut key = String::new(alloc);
    match id {
        Id::Char(c) => key.push(*c)?,
        Id::Named(name) => {
            key.push('<')?;
            key.push_str(name.get())?;
        }
        Id::Undefined => {}
    }
    Ok(key)
}
