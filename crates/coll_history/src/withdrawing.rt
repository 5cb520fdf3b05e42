//! A statement is withdrawn from the middle of a history.
//!
//! The statements down to it are taken back, and those after it are put to the table anew, one after another. Their new records
//! stand on a list of their own until all are accepted: where one is refused, or memory is, they are given back, the
//! newest first, each of its nodes forgotten at once, and all statements are put up again, so that the very layout is there as
//! before, and places of entries that were handed over are still those of the table. No table is copied, and nothing on the way back
//! takes memory. A change of the way keeps to the definition,
//! `specs/Withdrawal.antt`, and to the order in which undone records are given up: the one that was taken back last comes first.

ghost use Rattle.std.specs.Prelude.{◌&&◌, nat_le, is_some, IfSome, ◌≡◌, ◌≢◌, ◌<◌, ◌≤◌, ◌+◌, ◌^◌, ◌∷◌, ◌++◌, ℕ, List, [], length};
ghost use Rattle.std.specs.Prelude.{reverse, true, false, vec_len, vec_capacity, Ok, Err, IfOk, IfErr, OnOk, OnErr};
ghost use Rattle.coll_nodes.specs.TableLayout.{TableValue, collation};
ghost use Rattle.coll_table.specs.Record.{AreLoose, Extends, Fits, KeepsLoose, added_nodes, dropped_nodes, turn, without_nodes};
ghost use Rattle.coll_table.specs.declared.refusals.Refusal.TheVariants.{OutOfMemory};
ghost use Rattle.coll_history.specs.Histories.{History};
ghost use Rattle.coll_history.specs.Kept.{Leads, LeadsOn, added_by_all, history_of, statements_of, uncounted};
ghost use Rattle.coll_history.specs.Limits.{most_remaining};
ghost use Rattle.coll_history.specs.Withdrawal.{is_numbered, withdrawn, withdrawn_from};
ghost use Rattle.coll_history.specs.Withdrawing.{AreProper, CanGiveBack, IsLowered, IsRebuilt, LastFits};
ghost use Rattle.coll_history.specs.Withdrawing.{StandsBeforeLast, TurnsLast, given_back, paired, raised, with_record};
ghost use Rattle.coll_history.specs.declared.histories.Kept.{Kept};
ghost use Rattle.coll_history.specs.declared.history_faults.BenchFault.TheVariants as bench;

use crate::following::{Standing, catch_up};
use crate::histories::{Kept, Session, give_up, give_up_one};
use crate::history_faults::BenchFault;
use coll_table::{
    Record, Refusal, Table, lemma_records_add_alike, lemma_records_fit_narrower,
    lemma_records_fit_wider, lemma_records_turn_back, lemma_undone_records_put_in,
    lemma_wider_tables_read_alike,
};

// Turns the record of the last statement of one list, which then stands last in the other.
fn turn_last(table: &mut Table, from: &mut Vec<Kept>, onto: &mut Vec<Kept>)
    requires some { 0 < vec_len from.old }
    requires room { vec_len onto.old < vec_capacity onto.old }
    requires fits { LastFits (uncounted table.old) from.old.items }
    ensures turned { TurnsLast (uncounted table.old) (uncounted table.new) from.old.items from.new.items onto.old.items onto.new.items }
    ensures from_len { vec_len from.new + 1 ≡ vec_len from.old }
    ensures onto_len { vec_len onto.new ≡ vec_len onto.old + 1 }
    ensures from_room { vec_capacity from.new ≡ vec_capacity from.old }
    ensures onto_room { vec_capacity onto.new ≡ vec_capacity onto.old }
{
    let mut kept = from.take_last();
    table.lemma_well_formed();
    lemma_records_turn_back();
    table.flip(&mut kept.change);
    onto.push_reserved(kept);
}

// Takes so many of the last statements back. Their records lead up again to the very table.
fn take_down(table: &mut Table, remaining: &mut Vec<Kept>, undone: &mut Vec<Kept>, count: usize)
    requires leads { Leads (uncounted table.old) remaining.old.items }
    requires leads_on { LeadsOn (uncounted table.old) (reverse undone.old.items) }
    requires count { count ≤ vec_len remaining.old }
    requires room { vec_len undone.old + count ≤ vec_capacity undone.old }
    ensures leads { Leads (uncounted table.new) remaining.new.items }
    ensures leads_on { LeadsOn (uncounted table.new) (reverse undone.new.items) }
    ensures lowered { IsLowered (history_of (uncounted table.old) remaining.old.items undone.old.items)
        (history_of (uncounted table.new) remaining.new.items undone.new.items) count }
    ensures up { raised count (uncounted table.new) (reverse undone.new.items) ≡ uncounted table.old }
    ensures remaining_len { vec_len remaining.new + count ≡ vec_len remaining.old }
    ensures undone_len { vec_len undone.new ≡ vec_len undone.old + count }
    ensures remaining_room { vec_capacity remaining.new ≡ vec_capacity remaining.old }
    ensures undone_room { vec_capacity undone.new ≡ vec_capacity undone.old }
{
    let mut taken = 0;
    'down: while taken < count {
        turn_last(table, remaining, undone);
        taken += 1;
    }
}

// Puts so many of the statements up again that were taken back last.
fn put_up(table: &mut Table, remaining: &mut Vec<Kept>, undone: &mut Vec<Kept>, count: usize)
    requires leads { Leads (uncounted table.old) remaining.old.items }
    requires leads_on { LeadsOn (uncounted table.old) (reverse undone.old.items) }
    requires count { count ≤ vec_len undone.old }
    requires room { vec_len remaining.old + count ≤ vec_capacity remaining.old }
    ensures leads { Leads (uncounted table.new) remaining.new.items }
    ensures leads_on { LeadsOn (uncounted table.new) (reverse undone.new.items) }
    ensures lowered { (high : History) → IsLowered high (history_of (uncounted table.old) remaining.old.items undone.old.items) count
        → history_of (uncounted table.new) remaining.new.items undone.new.items ≡ high }
    ensures up { uncounted table.new ≡ raised count (uncounted table.old) (reverse undone.old.items) }
    ensures remaining_len { vec_len remaining.new ≡ vec_len remaining.old + count }
    ensures undone_len { vec_len undone.new + count ≡ vec_len undone.old }
    ensures remaining_room { vec_capacity remaining.new ≡ vec_capacity remaining.old }
    ensures undone_room { vec_capacity undone.new ≡ vec_capacity undone.old }
{
    let mut left = count;
    'up: while left > 0 {
        turn_last(table, undone, remaining);
        left -= 1;
    }
}

// The fault of a withdrawal where the statement with a number is refused.
fn needed_fault(statement: u32, refusal: Refusal) -> BenchFault
    ensures needed { refusal ≢ OutOfMemory → result ≡ bench.StillNeeded statement refusal }
    ensures memory { refusal ≡ OutOfMemory → result ≡ bench.Table OutOfMemory }
{
    match refusal {
        Refusal::OutOfMemory => BenchFault::Table(Refusal::OutOfMemory),
        refusal => BenchFault::StillNeeded { statement, refusal },
    }
}

// Puts statements to the table, the last one first, and keeps their new records apart. Where one is refused, those before it stay.
fn put_anew(
    table: &mut Table,
    later: &[Kept],
    first: u32,
    fresh: &mut Vec<Record>,
) -> Result<(), BenchFault>
    requires proper { AreProper (reverse later.now) }
    requires numbers { first + length later.now < 2 ^ 32 }
    requires none { fresh.old.items ≡ [] }
    requires room { vec_len fresh.old + length later.now ≤ vec_capacity fresh.old }
    ensures can { CanGiveBack (uncounted table.new) (reverse fresh.new.items) }
    ensures back { given_back (uncounted table.new) (reverse fresh.new.items) ≡ uncounted table.old }
    ensures rebuilt { OnOk result (IsRebuilt (uncounted table.old) (uncounted table.new) (paired (reverse later.now) fresh.new.items)) }
    ensures count { OnOk result (vec_len fresh.new ≡ length later.now) }
    ensures accepted { OnOk result ((left_out : ℕ) → left_out < first → withdrawn_from left_out first (collation (uncounted table.old))
        (statements_of (reverse later.now)) ≡ Ok (collation (uncounted table.new))) }
    ensures refused { IfErr result (λ fault. fault ≢ bench.Table OutOfMemory → (left_out : ℕ) → left_out < first
        → withdrawn_from left_out first (collation (uncounted table.old)) (statements_of (reverse later.now)) ≡ Err fault) }
{
    lemma_records_turn_back();
    lemma_records_fit_wider();
    lemma_records_fit_narrower();
    lemma_wider_tables_read_alike();
    let mut left = later;
    let mut number = first;
    'anew: while let Some((kept, rest)) = left.split_last() {
        table.lemma_well_formed();
        let change = match table.apply(&kept.statement) {
            Ok(change) => change,
            Err(refusal) => return Err(needed_fault(number, refusal)),
        };
        table.lemma_well_formed();
        fresh.push_reserved(change);
        number += 1;
        left = rest;
    }
    Ok(())
}

// Gives a new record back: its statement is undone, and the nodes that it added are dropped.
fn give_back_one(table: &mut Table, change: Record)
    requires in_force { change.undone ≡ false }
    requires fits { Fits (uncounted table.old) change }
    ensures { uncounted table.new ≡ without_nodes (turn (uncounted table.old) change) (added_nodes change.items) }
{
    let mut turned = change;
    lemma_undone_records_put_in();
    lemma_records_add_alike();
    table.flip(&mut turned);
    table.lemma_well_formed();
    table.forget(turned);
}

// Gives new records back, the newest first.
fn give_back(table: &mut Table, fresh: &mut Vec<Record>)
    requires can { CanGiveBack (uncounted table.old) (reverse fresh.old.items) }
    ensures { uncounted table.new ≡ given_back (uncounted table.old) (reverse fresh.old.items) }
{
    'fresh: while let Some(change) = fresh.pop() {
        give_back_one(table, change);
    }
}

// Puts statements to the table, the last one first, all or none.
fn rebuild(
    table: &mut Table,
    later: &[Kept],
    first: u32,
    fresh: &mut Vec<Record>,
) -> Result<(), BenchFault>
    requires proper { AreProper (reverse later.now) }
    requires numbers { first + length later.now < 2 ^ 32 }
    requires none { fresh.old.items ≡ [] }
    requires room { vec_len fresh.old + length later.now ≤ vec_capacity fresh.old }
    ensures rebuilt { OnOk result (IsRebuilt (uncounted table.old) (uncounted table.new) (paired (reverse later.now) fresh.new.items)) }
    ensures count { OnOk result (vec_len fresh.new ≡ length later.now) }
    ensures accepted { OnOk result ((left_out : ℕ) → left_out < first → withdrawn_from left_out first (collation (uncounted table.old))
        (statements_of (reverse later.now)) ≡ Ok (collation (uncounted table.new))) }
    ensures refused { IfErr result (λ fault. fault ≢ bench.Table OutOfMemory → (left_out : ℕ) → left_out < first
        → withdrawn_from left_out first (collation (uncounted table.old)) (statements_of (reverse later.now)) ≡ Err fault) }
    ensures unchanged { OnErr result (uncounted table.new ≡ uncounted table.old) }
{
    if let Err(fault) = put_anew(table, later, first, fresh) {
        give_back(table, fresh);
        return Err(fault);
    }
    Ok(())
}

// Gives a statement its new record; the old one is given up.
fn renew(table: &mut Table, kept: Kept, change: Record) -> Kept
    requires loose { AreLoose table.old.layout (dropped_nodes kept.change) }
    ensures table { table.new ≡ without_nodes table.old (dropped_nodes kept.change) }
    ensures kept { result ≡ with_record kept change }
{
    let Kept {
        statement,
        change: old,
    } = kept;
    table.forget(old);
    Kept { statement, change }
}

// Puts the statements that were taken back to those that remain, the last one first, each with its new record, of which the last is
// the first's.
fn pair(
    table: &mut Table,
    remaining: &mut Vec<Kept>,
    undone: &mut Vec<Kept>,
    fresh: &mut Vec<Record>,
)
    requires loose { AreLoose table.old.layout (added_by_all (reverse undone.old.items)) }
    requires count { vec_len fresh.old ≤ vec_len undone.old }
    requires room { vec_len remaining.old + vec_len fresh.old ≤ vec_capacity remaining.old }
    ensures table { Extends table.old table.new }
    ensures dropped { without_nodes table.new (added_by_all (reverse undone.new.items))
        ≡ without_nodes table.old (added_by_all (reverse undone.old.items)) }
    ensures loose { AreLoose table.new.layout (added_by_all (reverse undone.new.items)) }
    ensures remaining { remaining.new.items ≡ remaining.old.items ++ paired (reverse undone.old.items) (reverse fresh.old.items) }
    ensures len { vec_len remaining.new ≡ vec_len remaining.old + vec_len fresh.old }
    ensures remaining_room { vec_capacity remaining.new ≡ vec_capacity remaining.old }
    ensures undone_room { vec_capacity undone.new ≡ vec_capacity undone.old }
{
    'pairs: while let Some(change) = fresh.pop() {
        let kept = renew(table, undone.take_last(), change);
        remaining.push_reserved(kept);
    }
}

// Gives up the statement that was taken back last, pairs those before it with their new records, and gives up the others.
fn settle(
    table: &mut Table,
    remaining: &mut Vec<Kept>,
    undone: &mut Vec<Kept>,
    fresh: &mut Vec<Record>,
)
    requires loose { AreLoose table.old.layout (added_by_all (reverse undone.old.items)) }
    requires count { vec_len fresh.old < vec_len undone.old }
    requires room { vec_len remaining.old + vec_len fresh.old ≤ vec_capacity remaining.old }
    ensures table { Extends table.old table.new }
    ensures dropped { table.new ≡ without_nodes table.old (added_by_all (reverse undone.old.items)) }
    ensures remaining { (rest : List Kept) (last : Kept) → undone.old.items ≡ rest ++ last ∷ []
        → remaining.new.items ≡ remaining.old.items ++ paired (reverse rest) fresh.old.items }
    ensures undone { undone.new.items ≡ [] }
    ensures len { vec_len remaining.new ≡ vec_len remaining.old + vec_len fresh.old }
    ensures undone_len { vec_len undone.new ≡ 0 }
    ensures remaining_room { vec_capacity remaining.new ≡ vec_capacity remaining.old }
    ensures undone_room { vec_capacity undone.new ≡ vec_capacity undone.old }
{
    give_up_one(table, undone.take_last());
    fresh.reverse();
    pair(table, remaining, undone, fresh);
    give_up(table, undone);
}

// The statements that stand before the last one of a list, so many of them.
fn before_last(kept: &[Kept], count: usize) -> &[Kept]
    requires { count < length kept.now }
    ensures parts { StandsBeforeLast kept.now result.now }
    ensures count { length result.now ≡ count }
{
    let (prefix, _) = kept.split_at(kept.len() - 1);
    let (_, later) = prefix.split_at(prefix.len() - count);
    later
}

// Withdraws a statement behind which so many others remain, in the parts of a session.
fn withdraw_from(
    table: &mut Table,
    remaining: &mut Vec<Kept>,
    undone: &mut Vec<Kept>,
    number: u32,
    later: usize,
    fresh: &mut Vec<Record>,
) -> Result<(), BenchFault>
    requires leads { Leads (uncounted table.old) remaining.old.items }
    requires leads_on { LeadsOn (uncounted table.old) (reverse undone.old.items) }
    requires number { 0 < number }
    requires later { number + later ≡ vec_len remaining.old }
    requires few { vec_len remaining.old ≤ most_remaining }
    requires undo_room { vec_len remaining.old + vec_len undone.old ≤ vec_capacity undone.old }
    requires redo_room { vec_len remaining.old + vec_len undone.old ≤ vec_capacity remaining.old }
    requires none { fresh.old.items ≡ [] }
    requires room { later ≤ vec_capacity fresh.old }
    ensures leads { Leads (uncounted table.new) remaining.new.items }
    ensures leads_on { LeadsOn (uncounted table.new) (reverse undone.new.items) }
    ensures withdrawn { OnOk result (withdrawn (history_of (uncounted table.old) remaining.old.items undone.old.items) number
        ≡ Ok (history_of (uncounted table.new) remaining.new.items undone.new.items)) }
    ensures refused { IfErr result (λ fault. fault ≢ bench.Table OutOfMemory
        → withdrawn (history_of (uncounted table.old) remaining.old.items undone.old.items) number ≡ Err fault) }
    ensures unchanged { OnErr result (history_of (uncounted table.new) remaining.new.items undone.new.items
        ≡ history_of (uncounted table.old) remaining.old.items undone.old.items) }
    ensures layout { OnErr result (table.new.layout ≡ table.old.layout) }
    ensures fewer { vec_len remaining.new + vec_len undone.new ≤ vec_len remaining.old + vec_len undone.old }
    ensures remaining_room { vec_capacity remaining.new ≡ vec_capacity remaining.old }
    ensures undone_room { vec_capacity undone.new ≡ vec_capacity undone.old }
{
    lemma_records_turn_back();
    lemma_records_fit_wider();
    lemma_records_fit_narrower();
    lemma_wider_tables_read_alike();
    lemma_undone_records_put_in();
    take_down(table, remaining, undone, later + 1);
    table.lemma_well_formed();
    if let Err(fault) = rebuild(table, before_last(undone, later), number + 1, fresh) {
        put_up(table, remaining, undone, later + 1);
        return Err(fault);
    }
    table.lemma_well_formed();
    settle(table, remaining, undone, fresh);
    table.lemma_well_formed();
    Ok(())
}

// How many statements stand behind the one with a number, if there is one.
fn later_than(number: u32, len: usize) -> Option<usize>
    ensures numbered { (nat_le 1 number && nat_le number len) ≡ is_some result }
    ensures first { IfSome result (λ _. 0 < number) }
    ensures later { IfSome result (λ later. number + later ≡ len) }
{
    if number == 0 {
        return None;
    }
    if number as usize > len {
        return None;
    }
    Some(len - number as usize)
}

impl Session {
    /// Withdraws the statement with a number, counted from 1 among those that remain, and answers how many then remain.
    ///
    /// The table is then the one at first, rewritten by all others that remain, and nothing is left to be put again. It is
    /// refused with `NoSuchStatement` exactly where no statement has the number, and takes no memory then; with `StillNeeded`
    /// where one of the later statements would be refused, of which the first is named. A refusal, lack of memory included,
    /// leaves what remains, what was taken back and the table with all its nodes as they were; the count of ring steps stays
    /// where no statement has the number, and may rise otherwise.
    pub fn withdraw(&mut self, number: u32) -> Result<u32, BenchFault>
        ensures withdrawn { IfOk result (λ _. withdrawn self.old.history number ≡ Ok self.new.history) }
        ensures count { IfOk result (λ n. n ≡ length self.new.history.remaining) }
        ensures refused { IfErr result (λ fault. fault ≢ bench.Table OutOfMemory → withdrawn self.old.history number ≡ Err fault) }
        ensures memory { IfErr result (λ fault. fault ≡ bench.Table OutOfMemory → is_numbered self.old.history number ≡ true) }
        ensures missing { withdrawn self.old.history number ≡ Err bench.NoSuchStatement → result ≡ Err bench.NoSuchStatement }
        ensures missing_changes_nothing { withdrawn self.old.history number ≡ Err bench.NoSuchStatement → self.new ≡ self.old }
        ensures unchanged { OnErr result (self.new.history ≡ self.old.history) }
        ensures layout { OnErr result (self.new.layout ≡ self.old.layout) }
    {
        let Some(later) = later_than(number, self.remaining.len()) else {
            return Err(BenchFault::NoSuchStatement);
        };
        let mut fresh = match Vec::with_capacity(*self.remaining.allocator(), later) {
            Ok(fresh) => fresh,
            Err(refused) => return Err(BenchFault::from(refused)),
        };
        self.standing = catch_up(
            &self.table,
            &self.remaining,
            &self.undone,
            self.standing,
            &mut self.numbers,
            self.table.most_moves(1),
        );
        let refused = withdraw_from(
            &mut self.table,
            &mut self.remaining,
            &mut self.undone,
            number,
            later,
            &mut fresh,
        );
        drop(fresh);
        match refused {
            Ok(()) => {
                self.standing = Standing::Unknown;
                Ok(self.remaining.len() as u32)
            }
            Err(fault) => Err(fault),
        }
    }
}
