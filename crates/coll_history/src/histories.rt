//! A table with the history of its statements.
//!
//! A `Session` keeps the table as the statements that remain have made it, and with each statement the record that takes it back,
//! or, once it is undone, puts it again. No other table is kept: an undo turns one record, at the nodes that its statement changed,
//! and a withdrawal puts the later statements to the table anew. The invariant says that each record leads back to the table that
//! its statement was accepted in. Whoever adds a call that changes the history has to keep to that, to say what becomes of the places
//! that were handed over (`following`), and to make the room that every later undo and redo needs before the table changes.

ghost use Rattle.std.specs.Prelude.{◌≡◌, ◌≢◌, ◌↔◌, ◌<◌, ◌≤◌, ◌+◌, [], length, reverse, slice_get, vec_len};
ghost use Rattle.std.specs.Prelude.{vec_capacity, option_copied, IsOk, IsTrue, Ok, Err, IfOk, IfErr, OnOk, OnErr};
ghost use Rattle.coll_syntax.specs.Proper.{IsProper};
ghost use Rattle.coll_table.specs.Record.{AreLoose, Extends, dropped_nodes, more_steps, without_nodes};
ghost use Rattle.coll_nodes.specs.NodeNumbers.{AreNumbersOf};
ghost use Rattle.coll_nodes.specs.TableLayout.{collation};
ghost use Rattle.coll_history.specs.Kept.{added_by_all, statements_of};
ghost use Rattle.coll_history.specs.Limits.{most_remaining};
ghost use Rattle.coll_history.specs.declared.history_faults.BenchFault.TheVariants.{HistoryFull};
ghost use Rattle.coll_history.specs.Histories.{History, begun, judged, taken_back, put_again, undo_steps};
ghost use Rattle.coll_history.specs.Histories.{redo_steps, numbered, table_now, RefusesStatement};

use crate::following::{Standing, catch_up, give_places};
use crate::history_faults::BenchFault;
use crate::limits::MOST_REMAINING;
use coll_syntax::Statement;
use coll_table::{
    EntryNumbers, Record, Table, lemma_records_fit_narrower, lemma_records_fit_wider,
    lemma_records_turn_back, lemma_undone_records_put_in, lemma_wider_tables_are_numbered_alike,
    lemma_wider_tables_read_alike,
};
use std::alloc::{AllocError, Global};
use std::marker::Model;

/// An accepted statement, with the record that takes it back, or, once it is undone, puts it again.
#[derive(Drop)]
pub struct Kept {
    pub(crate) statement: Statement,
    pub(crate) change: Record,
}

/// A table, the statements that remain, and those that were taken back.
pub struct Session {
    /// The table as the remaining statements have made it.
    pub(crate) table: Table,
    /// The statements that remain, from the first.
    pub(crate) remaining: Vec<Kept>,
    /// The statements taken back; the last one here is the next to be put again.
    pub(crate) undone: Vec<Kept>,
    /// The places of entries that were handed over last, or their memory alone.
    pub(crate) numbers: EntryNumbers,
    /// Which table these are the places of.
    pub(crate) standing: Standing,
}

// Written out, so that each place that drops one is one call, with no step for each part.
impl Drop for Session {
    fn drop(self) {
        let Session {
            table,
            remaining,
            undone,
            numbers,
            standing: _,
        } = self;
        drop(table);
        drop(remaining);
        drop(undone);
        drop(numbers);
    }
}

impl Model for Session {
    ghost use Rattle.coll_history.specs.Histories.{SessionValue};

    ghost Value = { SessionValue };

    ghost use Rattle.coll_history.specs.Kept.{session_of, IsSoundSession};

    ghost view = { λ s. session_of s.table s.remaining.items s.undone.items };

    ghost invariant = { λ s. IsSoundSession s };
}

impl Session {
    /// A session on a table, in which nothing has happened yet. It takes no memory.
    pub fn new(alloc: Global, table: Table) -> Session
        ensures history { result.history ≡ begun (collation table) }
        ensures layout { result.layout ≡ table.layout }
        ensures steps { result.steps ≡ table.steps }
    {
        Session {
            table,
            remaining: Vec::new(alloc),
            undone: Vec::new(alloc),
            numbers: EntryNumbers::new(alloc),
            standing: Standing::Unknown,
        }
    }

    /// Judges a statement, and answers how many statements then remain.
    ///
    /// It is refused with `HistoryFull` where 65,535 remain, and else as the table refuses it. A refusal, lack of
    /// memory included, leaves the table, what remains and what was taken back as they were. An accepted statement
    /// empties what was taken back.
    pub fn statement(&mut self, statement: Statement) -> Result<u32, BenchFault>
        requires proper { IsProper statement }
        ensures accepted { IfOk result (λ _. judged self.old.history statement ≡ Ok self.new.history) }
        ensures count { IfOk result (λ n. n ≡ length self.new.history.remaining) }
        ensures full { most_remaining ≤ length self.old.history.remaining → result ≡ Err HistoryFull }
        ensures refused { IfErr result (λ fault. RefusesStatement self.old.history statement fault) }
        ensures unchanged { OnErr result (self.new ≡ self.old) }
    {
        if self.remaining.len() >= MOST_REMAINING {
            drop(statement);
            return Err(BenchFault::HistoryFull);
        }
        if let Err(refused) = make_room(&mut self.remaining, &mut self.undone) {
            drop(statement);
            return Err(BenchFault::from(refused));
        }
        lemma_records_turn_back();
        lemma_records_fit_wider();
        lemma_records_fit_narrower();
        lemma_wider_tables_read_alike();
        lemma_wider_tables_are_numbered_alike();
        lemma_undone_records_put_in();
        self.table.lemma_well_formed();
        self.standing = catch_up(
            &self.table,
            &self.remaining,
            &self.undone,
            self.standing,
            &mut self.numbers,
            self.table.most_moves(1),
        );
        let change = match self.table.apply(&statement) {
            Ok(change) => change,
            Err(refusal) => {
                drop(statement);
                return Err(BenchFault::Table(refusal));
            }
        };
        self.table.lemma_well_formed();
        self.remaining.push_reserved(Kept { statement, change });
        give_up(&mut self.table, &mut self.undone);
        self.table.lemma_well_formed();
        self.standing = self.standing.behind_statement();
        Ok(self.remaining.len() as u32)
    }

    /// Takes the last remaining statement back, and answers how many then remain. It takes no memory.
    ///
    /// The table is then the one in which the statement was accepted, or, behind a withdrawal, the one that the statements before it
    /// now give, and has taken just the ring steps of the statement's own nodes. It is refused with `NothingToUndo` exactly where no
    /// statement remains; nothing has then changed.
    pub fn undo(&mut self) -> Result<u32, BenchFault>
        ensures undone { IfOk result (λ _. taken_back self.old.history ≡ Ok self.new.history) }
        ensures count { IfOk result (λ n. n ≡ length self.new.history.remaining) }
        ensures steps { OnOk result (self.new.steps ≡ more_steps self.old.steps (undo_steps self.old.history)) }
        ensures refused { IfErr result (λ fault. taken_back self.old.history ≡ Err fault) }
        ensures unchanged { OnErr result (self.new ≡ self.old) }
    {
        let Some(mut kept) = self.remaining.pop() else {
            return Err(BenchFault::NothingToUndo);
        };
        self.table.lemma_well_formed();
        lemma_records_turn_back();
        self.table.flip(&mut kept.change);
        self.undone.push_reserved(kept);
        self.standing = self.standing.behind_undo();
        Ok(self.remaining.len() as u32)
    }

    /// Puts the statement that was taken back last again, and answers how many then remain. It takes no memory.
    ///
    /// The table is then the one that the statement gave, and has taken just the ring steps of the statement's own nodes. It is
    /// refused with `NothingToRedo` exactly where nothing was taken back; nothing has then changed.
    pub fn redo(&mut self) -> Result<u32, BenchFault>
        ensures redone { IfOk result (λ _. put_again self.old.history ≡ Ok self.new.history) }
        ensures count { IfOk result (λ n. n ≡ length self.new.history.remaining) }
        ensures steps { OnOk result (self.new.steps ≡ more_steps self.old.steps (redo_steps self.old.history)) }
        ensures refused { IfErr result (λ fault. put_again self.old.history ≡ Err fault) }
        ensures unchanged { OnErr result (self.new ≡ self.old) }
    {
        let Some(mut kept) = self.undone.pop() else {
            return Err(BenchFault::NothingToRedo);
        };
        self.table.lemma_well_formed();
        lemma_records_turn_back();
        self.table.flip(&mut kept.change);
        self.remaining.push_reserved(kept);
        self.standing = self.standing.behind_redo();
        Ok(self.remaining.len() as u32)
    }

    /// Takes the places of the table's entries over, to have them follow the changes to come. It takes no memory.
    pub fn keep_places(&mut self, places: EntryNumbers)
        requires { AreNumbersOf places self.old.layout }
        ensures { self.new ≡ self.old }
    {
        drop(std::mem::replace(&mut self.numbers, places));
        self.standing = Standing::Now;
    }

    /// Gives the places of the table's entries, for a look for so many characters: those that were handed over, where they have
    /// followed what changed since and the look may go by their moves, else all anew.
    ///
    /// It takes memory only for nodes that the places handed over had no room for; where that is refused, none are known.
    pub fn take_places(&mut self, characters: usize) -> Result<EntryNumbers, AllocError>
        ensures places { IfOk result (λ places. AreNumbersOf places self.new.layout) }
        ensures unchanged { self.new ≡ self.old }
    {
        let most_moves = self.table.most_moves(characters);
        let standing = catch_up(
            &self.table,
            &self.remaining,
            &self.undone,
            self.standing,
            &mut self.numbers,
            most_moves,
        );
        self.standing = Standing::Unknown;
        give_places(&self.table, standing, &mut self.numbers, most_moves)?;
        let none = EntryNumbers::new(*self.undone.allocator());
        Ok(std::mem::replace(&mut self.numbers, none))
    }

    /// How many statements remain.
    pub fn remaining_len(&self) -> u32
        ensures { result ≡ length self.now.history.remaining }
    {
        self.remaining.len() as u32
    }

    /// How many statements were taken back and can be put again.
    pub fn undone_len(&self) -> u32
        ensures { result ≡ length self.now.history.undone }
    {
        self.undone.len() as u32
    }

    /// The statement that remains with a number, counted from 1, if there is one.
    pub fn remaining(&self, number: u32) -> Option<&Statement>
        ensures { option_copied result ≡ numbered self.now.history.remaining number }
    {
        if number == 0 {
            return None;
        }
        statement_at(&self.remaining, number as usize - 1)
    }

    /// The statement that was taken back with a number, counted from 1, if there is one: the first is what `redo` puts again next.
    pub fn undone(&self, number: u32) -> Option<&Statement>
        ensures { option_copied result ≡ numbered self.now.history.undone number }
    {
        if number == 0 {
            return None;
        }
        let len = self.undone.len();
        if number as usize > len {
            return None;
        }
        statement_at(&self.undone, len - number as usize)
    }

    /// The table now: the one at first, rewritten by the statements that remain, in order.
    pub fn table(&self) -> &Table
        ensures table { collation result.now ≡ table_now self.now.history }
        ensures layout { result.now.layout ≡ self.now.layout }
        ensures steps { result.now.steps ≡ self.now.steps }
    {
        // Each field is named, so that a session that keeps more is refused here.
        let Session {
            table,
            remaining: _,
            undone: _,
            numbers: _,
            standing: _,
        } = self;
        table
    }
}

// The statement that is kept at an index, if there is one.
fn statement_at(kept: &[Kept], index: usize) -> Option<&Statement>
    ensures { option_copied result ≡ slice_get (statements_of kept.now) index }
{
    match kept.get(index) {
        Some(kept) => Some(&kept.statement),
        None => None,
    }
}

// Makes the room that an accepted statement needs, and every undo and redo of what then remains.
fn make_room(remaining: &mut Vec<Kept>, undone: &mut Vec<Kept>) -> Result<(), AllocError>
    requires { vec_len remaining.old < MOST_REMAINING }
    ensures remaining { remaining.new.items ≡ remaining.old.items }
    ensures len { vec_len remaining.new ≡ vec_len remaining.old }
    ensures undone { undone.new.items ≡ undone.old.items }
    ensures undone_len { vec_len undone.new ≡ vec_len undone.old }
    ensures shrinks_not { vec_capacity undone.old ≤ vec_capacity undone.new }
    ensures keeps { vec_capacity remaining.old ≤ vec_capacity remaining.new }
    ensures place { OnOk result (vec_len remaining.new < vec_capacity remaining.new) }
    ensures room { OnOk result (vec_len remaining.old + 1 ≤ vec_capacity undone.new) }
{
    remaining.reserve(1)?;
    undone.reserve(remaining.len() + 1)?;
    Ok(())
}

/// Gives up the records of statements that will not be put again. The table stays, without the nodes that they would put in.
pub(crate) fn give_up(table: &mut Table, undone: &mut Vec<Kept>)
    requires loose { AreLoose table.old.layout (added_by_all (reverse undone.old.items)) }
    ensures table { Extends table.old table.new }
    ensures dropped { table.new ≡ without_nodes table.old (added_by_all (reverse undone.old.items)) }
    ensures steps { table.new.steps ≡ table.old.steps }
    ensures undone { undone.new.items ≡ [] }
    ensures len { vec_len undone.new ≡ 0 }
    ensures room { vec_capacity undone.new ≡ vec_capacity undone.old }
{
    while let Some(kept) = undone.pop() {
        give_up_one(table, kept);
    }
}

/// Gives up the record of a statement. The table stays, without the nodes that an undone one would put in.
pub(crate) fn give_up_one(table: &mut Table, kept: Kept)
    requires loose { AreLoose table.old.layout (dropped_nodes kept.change) }
    ensures { table.new ≡ without_nodes table.old (dropped_nodes kept.change) }
{
    let Kept { statement, change } = kept;
    drop(statement);
    table.forget(change);
}
