//! Identifiers by their own names, and whether they are known and placed.
//!
//! A table judges a statement by own names: a second name stands for its symbol. Here an identifier is looked up as the table does it,
//! so that what is told of a fault can name it as the statement does. The own name is a copy, in new memory.

ghost use Rattle.std.specs.Prelude.{◌≡◌, IfOk};
ghost use Rattle.coll_nodes.specs.OwnNames.{named_own, own_id};
ghost use Rattle.coll_nodes.specs.Table.{is_known, is_own_name, is_placed};
ghost use Rattle.coll_nodes.specs.TableLayout.{collation};

use crate::texts::is_same_text;
use coll_lex::TextBuf;
use coll_syntax::Id;
use coll_table::Table;
use std::alloc::{AllocError, Global};

/// An identifier by its own name.
pub fn copied_own_id(alloc: Global, table: &Table, id: &Id) -> Result<Id, AllocError>
    ensures { IfOk result (λ own. own ≡ own_id (collation table.now).declared id.now) }
{
    match id {
        Id::Char(c) => Ok(Id::Char(*c)),
        Id::Named(name) => {
            let own = copied_own_name(alloc, table, name)?;
            Ok(Id::Named(own))
        }
        Id::Undefined => Ok(Id::Undefined),
    }
}

// The own name of a name; a name that isn't declared stays.
fn copied_own_name(alloc: Global, table: &Table, name: &TextBuf) -> Result<TextBuf, AllocError>
    ensures { IfOk result (λ own. own ≡ named_own (collation table.now).declared name.now) }
{
    match table.resolve(name.get()) {
        Some(own) => TextBuf::copied(alloc, own),
        None => name.try_copy(),
    }
}

/// Whether an identifier may stand in a table: a name has to be declared as an own name.
pub(crate) fn is_known(table: &Table, id: &Id) -> bool
    ensures { result ≡ is_known (collation table.now).declared id.now }
{
    match id {
        Id::Char(_) => true,
        Id::Named(name) => is_own_name(table, name),
        Id::Undefined => true,
    }
}

// Whether a name is declared as an own name: then it is its own.
fn is_own_name(table: &Table, name: &TextBuf) -> bool
    ensures { result ≡ is_own_name (collation table.now).declared name.now }
{
    table.lemma_well_formed();
    match table.resolve(name.get()) {
        Some(own) => is_same_text(own, name.get()),
        None => false,
    }
}

/// Whether an identifier stands in a table.
pub fn is_placed(table: &Table, id: &Id) -> bool
    ensures { result ≡ is_placed (collation table.now) id.now }
{
    table.entry(id).is_some()
}
