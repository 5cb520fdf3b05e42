//! A session with what is kept beside its table for keys and comparisons.
//!
//! Ranks, and places of entries, are made where a key or an order is asked for, and kept over commands and refusals. With each
//! change of the table the ranks are given up: an accepted statement, an undo, a redo, a withdrawal. The places follow a
//! change where they are asked for again, or where a further statement or a withdrawal comes first. Whoever adds a call that changes
//! the table has it go by what is kept. Contracts see what they see of the session, and nothing that is kept.

ghost use Rattle.std.specs.Prelude.{◌≡◌, ◌≢◌, ◌≤◌, ◌||◌, true, false, chars, length, IsTrue, IfSome, IfOk, IfErr, OnOk, OnErr};
ghost use Rattle.coll_syntax.specs.Proper.{IsProper};
ghost use Rattle.coll_nodes.specs.NodeNumbers.{AreNumbersOf};
ghost use Rattle.coll_nodes.specs.TableLayout.{collation};
ghost use Rattle.coll_key.specs.KeyLimits.{is_too_long};
ghost use Rattle.coll_key.specs.SortKey.{key_of};
ghost use Rattle.coll_key.specs.TextOrder.{order_of};
ghost use Rattle.coll_key.specs.WrittenKey.{has_key_form};
ghost use Rattle.coll_key.specs.declared.key_faults.KeyFault.TheVariants.{OutOfMemory};
ghost use Rattle.coll_table.specs.Record.{more_steps};
ghost use Rattle.coll_history.specs.Limits.{most_remaining};
ghost use Rattle.coll_history.specs.declared.history_faults.BenchFault.TheVariants.{HistoryFull};
ghost use Rattle.coll_history.specs.declared.history_faults.BenchFault.TheVariants as bench;
ghost use Rattle.coll_table.specs.declared.refusals.Refusal.TheVariants as refusal;
ghost use Rattle.coll_history.specs.Withdrawal.{withdrawn, is_numbered};
ghost use Rattle.coll_history.specs.Histories.{begun, judged, taken_back, put_again, undo_steps, redo_steps, table_now, RefusesStatement};

use crate::kept_ranks::KeptRanks;
use coll_history::{BenchFault, Session};
use coll_key::KeyFault;
use coll_lookups::EntryNumbers;
use coll_syntax::Statement;
use coll_table::Table;
use std::alloc::{AllocError, Global};
use std::cmp::Ordering;
use std::marker::Model;

/// A session, and what is kept beside its table.
pub(crate) struct RankedSession {
    session: Session,
    kept: KeptRanks,
}

// Written out, so that each place that drops one is one call, with no step for each part.
impl Drop for RankedSession {
    fn drop(self) {
        let RankedSession { session, kept } = self;
        drop(session);
        drop(kept);
    }
}

impl Model for RankedSession {
    ghost use Rattle.coll_history.specs.Histories.{SessionValue, table_now};
    ghost use Rattle.coll_bench.specs.Ranked.{IsKeptFor};

    ghost Value = { SessionValue };

    ghost view = { λ s. s.session };

    ghost invariant = { λ s. IsKeptFor s.kept (table_now s.session.history) s.session.layout };
}

impl RankedSession {
    /// A session on a table, in which nothing has happened yet. It takes no memory.
    pub fn new(alloc: Global, table: Table) -> RankedSession
        ensures history { result.history ≡ begun (collation table) }
        ensures layout { result.layout ≡ table.layout }
        ensures steps { result.steps ≡ table.steps }
    {
        RankedSession {
            session: Session::new(alloc, table),
            kept: KeptRanks::new(),
        }
    }

    /// Judges a statement, and answers how many statements then remain.
    ///
    /// It is refused with `HistoryFull` where 65,535 remain, and else as the table refuses it. A refusal, lack of memory
    /// included, changes nothing.
    pub fn statement(&mut self, statement: Statement) -> Result<u32, BenchFault>
        requires proper { IsProper statement }
        ensures accepted { IfOk result (λ _. judged self.old.history statement ≡ Ok self.new.history) }
        ensures count { IfOk result (λ n. n ≡ length self.new.history.remaining) }
        ensures full { most_remaining ≤ length self.old.history.remaining → result ≡ Err HistoryFull }
        ensures refused { IfErr result (λ fault. RefusesStatement self.old.history statement fault) }
        ensures unchanged { OnErr result (self.new ≡ self.old) }
    {
        let count = self.kept.statement(&mut self.session, statement)?;
        Ok(count)
    }

    /// Takes the last remaining statement back, and answers how many then remain. It takes no memory.
    ///
    /// It is refused with `NothingToUndo` exactly where no statement remains; nothing has then changed.
    pub fn undo(&mut self) -> Result<u32, BenchFault>
        ensures undone { IfOk result (λ _. taken_back self.old.history ≡ Ok self.new.history) }
        ensures count { IfOk result (λ n. n ≡ length self.new.history.remaining) }
        ensures steps { OnOk result (self.new.steps ≡ more_steps self.old.steps (undo_steps self.old.history)) }
        ensures refused { IfErr result (λ fault. taken_back self.old.history ≡ Err fault) }
        ensures unchanged { OnErr result (self.new ≡ self.old) }
    {
        let count = self.kept.undo(&mut self.session)?;
        Ok(count)
    }

    /// Puts the statement that was taken back last again, and answers how many then remain. It takes no memory.
    ///
    /// It is refused with `NothingToRedo` exactly where nothing was taken back; nothing has then changed.
    pub fn redo(&mut self) -> Result<u32, BenchFault>
        ensures redone { IfOk result (λ _. put_again self.old.history ≡ Ok self.new.history) }
        ensures count { IfOk result (λ n. n ≡ length self.new.history.remaining) }
        ensures steps { OnOk result (self.new.steps ≡ more_steps self.old.steps (redo_steps self.old.history)) }
        ensures refused { IfErr result (λ fault. put_again self.old.history ≡ Err fault) }
        ensures unchanged { OnErr result (self.new ≡ self.old) }
    {
        let count = self.kept.redo(&mut self.session)?;
        Ok(count)
    }

    /// Withdraws the remaining statement with a number, counted from 1, and answers how many then remain: the others are put to the
    /// table at first again, in order.
    ///
    /// It is refused with `NoSuchStatement` exactly where no statement remains with the number, and nothing has then changed; else
    /// with `StillNeeded` where another one is then refused. A refusal, lack of memory included, leaves the history and the table.
    pub fn withdraw(&mut self, number: u32) -> Result<u32, BenchFault>
        ensures withdrawn { IfOk result (λ _. withdrawn self.old.history number ≡ Ok self.new.history) }
        ensures count { IfOk result (λ n. n ≡ length self.new.history.remaining) }
        ensures refused { IfErr result (λ fault. fault ≢ bench.Table refusal.OutOfMemory → withdrawn self.old.history number ≡ Err fault) }
        ensures memory { IfErr result (λ fault. fault ≡ bench.Table refusal.OutOfMemory → IsTrue (is_numbered self.old.history number)) }
        ensures missing { withdrawn self.old.history number ≡ Err bench.NoSuchStatement → result ≡ Err bench.NoSuchStatement }
        ensures missing_changes_nothing { withdrawn self.old.history number ≡ Err bench.NoSuchStatement → self.new ≡ self.old }
        ensures unchanged { OnErr result (self.new.history ≡ self.old.history) }
        ensures layout { OnErr result (self.new.layout ≡ self.old.layout) }
    {
        let count = self.kept.withdraw(&mut self.session, number)?;
        Ok(count)
    }

    /// The session.
    pub fn session(&self) -> &Session
        ensures { result.now ≡ self.now }
    {
        &self.session
    }

    /// The sort key of a text in the table now.
    ///
    /// It is refused with `TextTooLong` only where the text has more than 65,536 characters, and with `OutOfMemory` where memory
    /// is refused to the ranks, to the places of entries or to the key. The history stays.
    pub fn key(&mut self, alloc: Global, text: &str) -> Result<Vec<u64>, KeyFault>
        ensures unchanged { self.new ≡ self.old }
        ensures ok { IfOk result (λ key. key.items ≡ key_of (table_now self.old.history) (chars text.now)) }
        ensures form { IfOk result (λ key. has_key_form (table_now self.old.history).rules key.items ≡ true) }
        ensures short { IfOk result (λ _. is_too_long (chars text.now) ≡ false) }
        ensures err { IfErr result (λ fault. fault ≢ OutOfMemory → is_too_long (chars text.now) ≡ true) }
    {
        let key = self.kept.key(alloc, &mut self.session, text)?;
        Ok(key)
    }

    /// The order of two texts in the table now.
    ///
    /// It is refused with `TextTooLong` only where one of them has more than 65,536 characters, and with `OutOfMemory` where memory
    /// is refused to the ranks, to the places of entries or to the comparison. The history stays.
    pub fn compare(&mut self, alloc: Global, text: &str, other: &str) -> Result<Ordering, KeyFault>
        ensures unchanged { self.new ≡ self.old }
        ensures ok { IfOk result (λ order. order ≡ order_of (table_now self.old.history) (chars text.now) (chars other.now)) }
        ensures short { IfOk result (λ _. (is_too_long (chars text.now) || is_too_long (chars other.now)) ≡ false) }
        ensures err { IfErr result (λ fault. fault ≢ OutOfMemory → (is_too_long (chars text.now) || is_too_long (chars other.now)) ≡ true) }
    {
        let order = self.kept.compare(alloc, &mut self.session, text, other)?;
        Ok(order)
    }

    /// Gives the entries of the table now their places, for `places`, unless these are there, and quick for a look at so many
    /// characters. Where memory is refused there are none. The history stays.
    pub fn give_places(&mut self, characters: usize) -> Result<(), AllocError>
        ensures { self.new ≡ self.old }
    {
        self.kept.give_places(&mut self.session, characters)
    }

    /// The places of the entries of the table now, where they are kept.
    pub fn places(&self) -> Option<&EntryNumbers>
        ensures { IfSome result (λ places. AreNumbersOf places.now self.now.layout) }
    {
        self.kept.places()
    }
}
