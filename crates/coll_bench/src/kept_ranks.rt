//! What a session keeps beside its table, for keys and comparisons.
//!
//! The ranks of a whole table are made in one pass over its entries, and then serve each look at once. After a change they have
//! to be made anew, which is dear where one word is looked up and the next change comes. So a look for a text that is short beside
//! the table is served by the places of the entries, which are given anew in a much shorter pass, and it looks up what the text asks
//! for and no more. Such a look costs more by itself: where those since the last change have together more than 64 characters, and
//! one more for each 32 entries, the ranks are made after all. What is kept is true of one table as it stands
//! (`specs/Ranked.antt`). What changes the table goes by it: the ranks are then given up, and the places handed to the session, which
//! has them follow the change where that takes less than giving them anew, once a look asks for them or the next change comes.

ghost use Rattle.std.specs.Prelude.{◌≡◌, ◌≢◌, ◌≤◌, ◌+◌, ◌||◌, true, false, chars, is_some, length, None, Some, Ok, Err, IsSome, IsTrue, IfSome, IfOk, IfErr, OnOk, OnErr};
ghost use Rattle.coll_syntax.specs.Proper.{IsProper};
ghost use Rattle.coll_nodes.specs.TableLayout.{collation};
ghost use Rattle.coll_key.specs.KeyLimits.{is_too_long};
ghost use Rattle.coll_key.specs.SortKey.{key_of};
ghost use Rattle.coll_key.specs.TextOrder.{order_of};
ghost use Rattle.coll_key.specs.WrittenKey.{has_key_form};
ghost use Rattle.coll_key.specs.declared.key_faults.KeyFault.TheVariants.{OutOfMemory};
ghost use Rattle.coll_table.specs.Record.{more_steps};
ghost use Rattle.coll_table.specs.declared.refusals.Refusal.TheVariants as refusal;
ghost use Rattle.coll_history.specs.Limits.{most_remaining};
ghost use Rattle.coll_history.specs.Withdrawal.{is_numbered, withdrawn};
ghost use Rattle.coll_history.specs.declared.history_faults.BenchFault.TheVariants as bench;
ghost use Rattle.coll_history.specs.declared.history_faults.BenchFault.TheVariants.{HistoryFull};
ghost use Rattle.coll_history.specs.Histories.{judged, taken_back, put_again, undo_steps, redo_steps, table_now, RefusesStatement};
ghost use Rattle.coll_bench.specs.Ranked.{AreRanksIfAny, CanServe, IsKeptFor};
ghost use Rattle.coll_bench.specs.Ranked.{kept_nothing, looked_after, with_look};

use coll_history::{BenchFault, Session};
use coll_key::{KeyFault, compare, compare_texts, key, key_of_text};
use coll_lookups::EntryNumbers;
use coll_ranks::Ranks;
use coll_syntax::Statement;
use coll_table::Table;
use std::alloc::{AllocError, Global};
use std::cmp::Ordering;
use std::marker::Model;

// How many characters are looked up by themselves between two changes, whatever the table.
const FEW_CHARACTERS: usize = 64;

// For so many entries of the table it is one character more: it is looked up in some half of the time that their ranks take.
const ENTRIES_A_CHARACTER: usize = 32;

/// The ranks of a table, if they were made, and the places of its entries.
pub(crate) struct KeptRanks {
    // All ranks, if they were made since the last change.
    ranks: Option<Ranks>,
    // The places of the entries in the table as it stands, if they were asked for since the last change. Else the session has them,
    // with their memory.
    places: Option<EntryNumbers>,
    // How many characters were looked up by themselves since the last change.
    looked: usize,
}

// Written out, so that each place that drops one is one call, with no step for each part.
impl Drop for KeptRanks {
    fn drop(self) {
        let KeptRanks {
            ranks,
            places,
            looked: _,
        } = self;
        drop(ranks);
        drop(places);
    }
}

impl Model for KeptRanks {
    ghost use Rattle.coll_bench.specs.Ranked.{KeptValue};

    ghost Value = { KeptValue };

    ghost view = { λ k. record { ranks = k.ranks; places = k.places; looked = k.looked } };
}

impl KeptRanks {
    /// Nothing is kept yet. It takes no memory.
    pub(crate) fn new() -> KeptRanks
        ensures { result ≡ kept_nothing }
    {
        KeptRanks {
            ranks: None,
            places: None,
            looked: 0,
        }
    }

    /// Has a session judge a statement. Where it is accepted, the ranks are given up. The session has the places.
    pub(crate) fn statement(
        &mut self,
        session: &mut Session,
        statement: Statement,
    ) -> Result<u32, BenchFault>
        requires proper { IsProper statement }
        requires kept { IsKeptFor self.old (table_now session.old.history) session.old.layout }
        ensures kept { IsKeptFor self.new (table_now session.new.history) session.new.layout }
        ensures ranks { OnOk result (self.new.ranks ≡ None) }
        ensures looked { OnOk result (self.new.looked ≡ 0) }
        ensures accepted { IfOk result (λ _. judged session.old.history statement ≡ Ok session.new.history) }
        ensures count { IfOk result (λ n. n ≡ length session.new.history.remaining) }
        ensures full { most_remaining ≤ length session.old.history.remaining → result ≡ Err HistoryFull }
        ensures refused { IfErr result (λ fault. RefusesStatement session.old.history statement fault) }
        ensures unchanged { OnErr result (session.new ≡ session.old) }
    {
        self.hand_over(session);
        let count = session.statement(statement)?;
        keep(&mut self.ranks, None);
        self.looked = 0;
        Ok(count)
    }

    /// Has a session take its last statement back. The ranks are then given up. The session has the places.
    pub(crate) fn undo(&mut self, session: &mut Session) -> Result<u32, BenchFault>
        requires { IsKeptFor self.old (table_now session.old.history) session.old.layout }
        ensures kept { IsKeptFor self.new (table_now session.new.history) session.new.layout }
        ensures ranks { OnOk result (self.new.ranks ≡ None) }
        ensures looked { OnOk result (self.new.looked ≡ 0) }
        ensures undone { IfOk result (λ _. taken_back session.old.history ≡ Ok session.new.history) }
        ensures count { IfOk result (λ n. n ≡ length session.new.history.remaining) }
        ensures steps { OnOk result (session.new.steps ≡ more_steps session.old.steps (undo_steps session.old.history)) }
        ensures refused { IfErr result (λ fault. taken_back session.old.history ≡ Err fault) }
        ensures unchanged { OnErr result (session.new ≡ session.old) }
    {
        self.hand_over(session);
        let count = session.undo()?;
        keep(&mut self.ranks, None);
        self.looked = 0;
        Ok(count)
    }

    /// Has a session put a statement again. The ranks are then given up. The session has the places.
    pub(crate) fn redo(&mut self, session: &mut Session) -> Result<u32, BenchFault>
        requires { IsKeptFor self.old (table_now session.old.history) session.old.layout }
        ensures kept { IsKeptFor self.new (table_now session.new.history) session.new.layout }
        ensures ranks { OnOk result (self.new.ranks ≡ None) }
        ensures looked { OnOk result (self.new.looked ≡ 0) }
        ensures redone { IfOk result (λ _. put_again session.old.history ≡ Ok session.new.history) }
        ensures count { IfOk result (λ n. n ≡ length session.new.history.remaining) }
        ensures steps { OnOk result (session.new.steps ≡ more_steps session.old.steps (redo_steps session.old.history)) }
        ensures refused { IfErr result (λ fault. put_again session.old.history ≡ Err fault) }
        ensures unchanged { OnErr result (session.new ≡ session.old) }
    {
        self.hand_over(session);
        let count = session.redo()?;
        keep(&mut self.ranks, None);
        self.looked = 0;
        Ok(count)
    }

    /// Has a session withdraw a statement. The ranks are then given up. The session has the places.
    pub(crate) fn withdraw(&mut self, session: &mut Session, number: u32) -> Result<u32, BenchFault>
        requires { IsKeptFor self.old (table_now session.old.history) session.old.layout }
        ensures kept { IsKeptFor self.new (table_now session.new.history) session.new.layout }
        ensures ranks { OnOk result (self.new.ranks ≡ None) }
        ensures looked { OnOk result (self.new.looked ≡ 0) }
        ensures withdrawn { IfOk result (λ _. withdrawn session.old.history number ≡ Ok session.new.history) }
        ensures count { IfOk result (λ n. n ≡ length session.new.history.remaining) }
        ensures refused { IfErr result (λ fault. fault ≢ bench.Table refusal.OutOfMemory → withdrawn session.old.history number ≡ Err fault) }
        ensures memory { IfErr result (λ fault. fault ≡ bench.Table refusal.OutOfMemory → IsTrue (is_numbered session.old.history number)) }
        ensures missing { withdrawn session.old.history number ≡ Err bench.NoSuchStatement → result ≡ Err bench.NoSuchStatement }
        ensures missing_changes_nothing { withdrawn session.old.history number ≡ Err bench.NoSuchStatement → session.new ≡ session.old }
        ensures unchanged { OnErr result (session.new.history ≡ session.old.history) }
        ensures layout { OnErr result (session.new.layout ≡ session.old.layout) }
    {
        self.hand_over(session);
        let count = session.withdraw(number)?;
        keep(&mut self.ranks, None);
        self.looked = 0;
        Ok(count)
    }

    /// The sort key of a text in the table that this is kept for.
    ///
    /// It is refused with `TextTooLong` only where the text has more than 65,536 characters, and with `OutOfMemory` where memory is
    /// refused to the ranks, to the places or to the key. What is then kept is true of the table as well.
    pub(crate) fn key(
        &mut self,
        alloc: Global,
        session: &mut Session,
        text: &str,
    ) -> Result<Vec<u64>, KeyFault>
        requires { IsKeptFor self.old (table_now session.old.history) session.old.layout }
        ensures kept { IsKeptFor self.new (table_now session.new.history) session.new.layout }
        ensures session { session.new ≡ session.old }
        ensures spares { IsSome (with_look (table_now session.old.history) self.old.looked (length (chars text.now))) → self.new.ranks ≡ self.old.ranks }
        ensures looked { self.new.looked ≡ looked_after (table_now session.old.history) self.old (length (chars text.now)) }
        ensures ok { IfOk result (λ key. key.items ≡ key_of (table_now session.old.history) (chars text.now)) }
        ensures form { IfOk result (λ key. has_key_form (table_now session.old.history).rules key.items ≡ true) }
        ensures short { IfOk result (λ _. is_too_long (chars text.now) ≡ false) }
        ensures err { IfErr result (λ fault. fault ≢ OutOfMemory → is_too_long (chars text.now) ≡ true) }
    {
        self.prepare(alloc, session, characters_in(text), 0)?;
        let table = session.table();
        match &self.ranks {
            Some(ranks) => key(alloc, table, ranks, text),
            None => key_of_text(alloc, table, self.given_places(), text),
        }
    }

    /// The order of two texts in the table that this is kept for.
    ///
    /// It is refused with `TextTooLong` only where one of them has more than 65,536 characters, and with `OutOfMemory` where memory
    /// is refused to the ranks, to the places or to the comparison. What is then kept is true of the table as well.
    pub(crate) fn compare(
        &mut self,
        alloc: Global,
        session: &mut Session,
        text: &str,
        other: &str,
    ) -> Result<Ordering, KeyFault>
        requires { IsKeptFor self.old (table_now session.old.history) session.old.layout }
        ensures kept { IsKeptFor self.new (table_now session.new.history) session.new.layout }
        ensures session { session.new ≡ session.old }
        ensures spares { IsSome (with_look (table_now session.old.history) self.old.looked (length (chars text.now) + length (chars other.now)))
            → self.new.ranks ≡ self.old.ranks }
        ensures looked { self.new.looked ≡ looked_after (table_now session.old.history) self.old (length (chars text.now) + length (chars other.now)) }
        ensures ok { IfOk result (λ order. order ≡ order_of (table_now session.old.history) (chars text.now) (chars other.now)) }
        ensures short { IfOk result (λ _. (is_too_long (chars text.now) || is_too_long (chars other.now)) ≡ false) }
        ensures err { IfErr result (λ fault. fault ≢ OutOfMemory → (is_too_long (chars text.now) || is_too_long (chars other.now)) ≡ true) }
    {
        self.prepare(alloc, session, characters_in(text), characters_in(other))?;
        let table = session.table();
        match &self.ranks {
            Some(ranks) => compare(alloc, table, ranks, text, other),
            None => compare_texts(alloc, table, self.given_places(), text, other),
        }
    }

    /// Gives the entries of the table that this is kept for their places, unless these are there, and quick for so many characters.
    /// Where memory is refused there are none, and what else is kept is true of the table as well.
    pub(crate) fn give_places(
        &mut self,
        session: &mut Session,
        characters: usize,
    ) -> Result<(), AllocError>
        requires { IsKeptFor self.old (table_now session.old.history) session.old.layout }
        ensures kept { IsKeptFor self.new (table_now session.new.history) session.new.layout }
        ensures session { session.new ≡ session.old }
        ensures ranks { self.new.ranks ≡ self.old.ranks }
        ensures looked { self.new.looked ≡ self.old.looked }
        ensures ok { OnOk result (is_some self.new.places ≡ true) }
    {
        if self.has_quick_places(session.table(), characters) {
            return Ok(());
        }
        self.hand_over(session);
        let places = session.take_places(characters)?;
        self.places = Some(places);
        Ok(())
    }

    /// The places of the entries, where they are here.
    pub(crate) fn places(&self) -> Option<&EntryNumbers>
        ensures places { IfSome result (λ places. self.now.places ≡ Some places.now) }
        ensures told { is_some result ≡ is_some self.now.places }
    {
        self.places.as_ref()
    }

    // The places of the entries, which are here.
    fn given_places(&self) -> &EntryNumbers
        requires { is_some self.now.places ≡ true }
        ensures { self.now.places ≡ Some result.now }
    {
        match &self.places {
            Some(places) => places,
            None => unreachable!(),
        }
    }

    // Hands the places to the session, if they are here.
    fn hand_over(&mut self, session: &mut Session)
        requires { IsKeptFor self.old (table_now session.old.history) session.old.layout }
        ensures kept { self.new ≡ record self.old { places = None } }
        ensures session { session.new ≡ session.old }
    {
        if let Some(places) = self.places.take() {
            session.keep_places(places);
        }
    }

    // Whether the places are here, and so many characters are looked up by them at less cost than they are given anew: those that have
    // followed changes are told by way of each.
    fn has_quick_places(&self, table: &Table, characters: usize) -> bool
        ensures { result ≡ true → is_some self.now.places ≡ true }
    {
        match &self.places {
            Some(places) => places.moves() <= table.most_moves(characters),
            None => false,
        }
    }

    // Makes ready what serves a look for two texts with so many characters: the ranks where they are there, else the places for a
    // short look, else the ranks.
    fn prepare(
        &mut self,
        alloc: Global,
        session: &mut Session,
        characters: usize,
        others: usize,
    ) -> Result<(), AllocError>
        requires { IsKeptFor self.old (table_now session.old.history) session.old.layout }
        ensures kept { IsKeptFor self.new (table_now session.new.history) session.new.layout }
        ensures session { session.new ≡ session.old }
        ensures spares { IsSome (with_look (table_now session.old.history) self.old.looked (characters + others)) → self.new.ranks ≡ self.old.ranks }
        ensures looked { self.new.looked ≡ looked_after (table_now session.old.history) self.old (characters + others) }
        ensures serves { OnOk result (CanServe self.new.ranks self.new.places) }
    {
        if self.ranks.is_some() {
            return Ok(());
        }
        match self.short_look(session.table(), characters, others) {
            Some(looked) => self.prepare_short(session, looked),
            None => make_ranks(alloc, session.table(), &mut self.ranks),
        }
    }

    // Makes the places ready for a short look, with which so many characters were looked up by themselves.
    fn prepare_short(&mut self, session: &mut Session, looked: usize) -> Result<(), AllocError>
        requires { IsKeptFor self.old (table_now session.old.history) session.old.layout }
        ensures kept { IsKeptFor self.new (table_now session.new.history) session.new.layout }
        ensures session { session.new ≡ session.old }
        ensures ranks { self.new.ranks ≡ self.old.ranks }
        ensures looked { self.new.looked ≡ looked }
        ensures serves { OnOk result (CanServe self.new.ranks self.new.places) }
    {
        self.looked = looked;
        self.give_places(session, looked)
    }

    // How many characters were looked up by themselves with those of a further look for two texts, if it is to be a short one.
    fn short_look(&self, table: &Table, characters: usize, others: usize) -> Option<usize>
        ensures { result ≡ with_look (collation table.now) self.now.looked (characters + others) }
    {
        let looked = self
            .looked
            .saturating_add(characters)
            .saturating_add(others);
        if looked > FEW_CHARACTERS + table.len() / ENTRIES_A_CHARACTER {
            return None;
        }
        Some(looked)
    }
}

// How many characters a text has.
fn characters_in(text: &str) -> usize
    ensures { result ≡ length (chars text.now) }
{
    text.chars().count()
}

// Keeps ranks, or none, in place of what was kept. It alone drops what was.
fn keep(kept: &mut Option<Ranks>, ranks: Option<Ranks>)
    ensures { kept.new ≡ ranks }
{
    *kept = ranks;
}

// Makes the ranks of a table.
fn make_ranks(alloc: Global, table: &Table, ranks: &mut Option<Ranks>) -> Result<(), AllocError>
    requires { AreRanksIfAny ranks.old (collation table.now) }
    ensures kept { AreRanksIfAny ranks.new (collation table.now) }
    ensures ok { OnOk result (IsSome ranks.new) }
{
    let made = Ranks::new(alloc, table)?;
    keep(ranks, Some(made));
    Ok(())
}
