//! What a name means in a table that is tailored, if there is one.

use crate::known_names::Meaning;
use coll_lex::TextBuf;
use coll_syntax::Id;
use coll_table::Table;
use std::alloc::{AllocError, Global};

/// The own name of a name that the table declares.
pub(crate) fn own_name<'t>(table: Option<&'t Table>, name: &str) -> Option<&'t str> {
    match table {
        Some(table) => table.resolve(name),
        None => None,
    }
}

/// The name of the symbol of a second name of the table.
pub(crate) fn own_of_second<'t>(table: Option<&'t Table>, name: &str) -> Option<&'t str> {
    match own_name(table, name) {
        Some(own) if own != name => Some(own),
        _ => None,
    }
}

/// The symbol of a second name that the table declares, in new memory.
pub(crate) fn own_id_of_second(
    alloc: Global,
    table: Option<&Table>,
    name: &str,
) -> Result<Option<Id>, AllocError> {
    match own_of_second(table, name) {
        Some(own) => Ok(Some(Id::Named(TextBuf::copied(alloc, own)?))),
        None => Ok(None),
    }
}

/// Whether an identifier is that of a symbol of the table.
pub(crate) fn is_symbol_of(table: Option<&Table>, id: &Id) -> bool {
    match table {
        Some(table) => table.is_symbol(id),
        None => false,
    }
}

/// Whether a name is that of a symbol of the table.
pub(crate) fn is_symbol_of_table(
    table: Option<&Table>,
    name: &TextBuf,
) -> Result<bool, AllocError> {
    if table.is_none() {
        return Ok(false);
    }
    let id = Id::Named(name.try_copy()?);
    let is_symbol = is_symbol_of(table, &id);
    drop(id);
    Ok(is_symbol)
}

/// What a name means in the table, if it is declared there.
pub(crate) fn meant_by_table(
    alloc: Global,
    table: Option<&Table>,
    name: &TextBuf,
) -> Result<Option<Meaning>, AllocError> {
    if own_name(table, name.get()).is_none() {
        return Ok(None);
    }
    match own_id_of_second(alloc, table, name.get())? {
        Some(own) => Ok(Some(Meaning::Other(own))),
        None => Ok(Some(own_meaning(table, name)?)),
    }
}

// What an own name of the table means.
fn own_meaning(table: Option<&Table>, name: &TextBuf) -> Result<Meaning, AllocError> {
    if is_symbol_of_table(table, name)? {
        Ok(Meaning::Symbol)
    } else {
        Ok(Meaning::Element)
    }
}
