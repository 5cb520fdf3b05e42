//! The replies of a session, written to its sink.
//!
//! Each request has one reply, which is written piece by piece, without taking memory, and flushed. Where a write or the
//! flush fails, the device has taken a prefix of the reply. A new kind of request is a new case of `answer`, and of the
//! definition of replies.

ghost use Rattle.std.specs.Prelude.{◌≡◌, ◌≤◌, Bool, true, chars, codes, IfOk, OnOk};
ghost use Rattle.std.specs.Io.KnownBytes.{Keeps};
ghost use Rattle.coll_devices.specs.Devices.{CountsErr, Sends, Writes};
ghost use Rattle.coll_nodes.specs.TableLayout.{collation};
ghost use Rattle.coll_requests.specs.ProperLines.{IsProperRequest};
ghost use Rattle.coll_nodes.specs.WalkItems.{visited_by};
ghost use Rattle.coll_bench.specs.Listing.{visited_line, rank_after};
ghost use Rattle.coll_faults.specs.declared.faults.Fault.TheVariants.{Bench};
ghost use Rattle.coll_bench.specs.Replies.{checked_line, counted_line, told_line, refused_line, still_needed_line, section_line};
ghost use Rattle.coll_bench.specs.Replies.{listed_line, listed_sections, listing, outcome_line, reply_if, history_after_if};

mod history_reply;
mod texts;

use crate::ranked_sessions::RankedSession;
use coll_devices::{Sink, WriteStop};
use coll_faults::Fault;
use coll_history::BenchFault;
use coll_nodes::{Entry, WalkItem};
use coll_requests::{Command, Request};
use coll_table::{Refusal, Table};
use coll_texts::{Piece, write_pieces};
use history_reply::write_history;
pub use history_reply::write_history_line;
use std::alloc::Global;
use texts::{answer_compare, answer_key};
pub(crate) use texts::{write_key_ended, write_order};

/// Does what a request asks for, writes its reply and flushes it.
///
/// What is refused has its reply as well, lack of memory included, and then changes nothing. Where the device fails, it has taken a
/// prefix of the reply; the history is then as if the reply was written.
pub(crate) fn answer<W: Sink>(
    alloc: Global,
    session: &mut RankedSession,
    request: Request,
    out: &mut W,
) -> Result<(), WriteStop>
    requires { IsProperRequest request }
    ensures answered { (starved : Bool) × Sends (W.taken out.old) (W.taken out.new) (reply_if starved session.old.history request) result
        × (session.new.history ≡ history_after_if starved session.old.history request) }
    ensures errors { CountsErr (W.failed out.old) (W.failed out.new) result }
    ensures flushed { OnOk result (W.flushed out.new ≡ true) }
{
    match request {
        Request::Command(command) => {
            obey(alloc, session, &command, out)?;
            flush(out)
        }
        Request::Statement(statement) => {
            let outcome = session.statement(statement);
            write_outcome(out, b"ok", outcome)?;
            flush(out)
        }
        Request::Refused(fault) => refuse(Fault::from(fault), out),
    }
}

/// Writes the reply to a fault that ends a session, and flushes it. Where the device fails, it has taken a prefix of the reply.
pub(crate) fn refuse<W: Sink>(fault: Fault, out: &mut W) -> Result<(), WriteStop>
    ensures sent { Sends (W.taken out.old) (W.taken out.new) (refused_line fault) result }
    ensures errors { CountsErr (W.failed out.old) (W.failed out.new) result }
    ensures flushed { OnOk result (W.flushed out.new ≡ true) }
{
    write_refused(out, fault)?;
    flush(out)
}

// Flushes what was written.
fn flush<W: Sink>(out: &mut W) -> Result<(), WriteStop>
    ensures sent { Keeps (W.taken out.old) (W.taken out.new) }
    ensures errors { CountsErr (W.failed out.old) (W.failed out.new) result }
    ensures flushed { OnOk result (W.flushed out.new ≡ true) }
{
    match out.flush() {
        Ok(()) => Ok(()),
        Err(_) => Err(WriteStop::WriteFault),
    }
}

// Does what a command asks for, and writes its reply. Keys, comparisons and withdrawals alone take memory.
fn obey<W: Sink>(
    alloc: Global,
    session: &mut RankedSession,
    command: &Command,
    out: &mut W,
) -> Result<(), WriteStop>
    ensures answered { (starved : Bool)
        × Sends (W.taken out.old) (W.taken out.new) (reply_if starved session.old.history (Request.Command command.now)) result
        × (session.new.history ≡ history_after_if starved session.old.history (Request.Command command.now)) }
    ensures errors { CountsErr (W.failed out.old) (W.failed out.new) result }
{
    match command {
        Command::Undo => {
            let outcome = session.undo();
            write_outcome(out, b"undone", outcome)
        }
        Command::Redo => {
            let outcome = session.redo();
            write_outcome(out, b"redone", outcome)
        }
        Command::List => write_listing(out, session.session().table()),
        Command::Print => session.session().table().print(out),
        Command::Key(text) => answer_key(alloc, session, text, out),
        Command::Compare(text, other) => answer_compare(alloc, session, text, other, out),
        Command::History => write_history(out, session.session()),
        Command::Withdraw(number) => {
            let outcome = session.withdraw(*number);
            write_outcome(out, b"withdrawn", outcome)
        }
        Command::Check => write_checked(out, session.session().table()),
    }
}

// Writes what a call of the history answered.
fn write_outcome<W: Sink>(
    out: &mut W,
    word: &[u8],
    outcome: Result<u32, BenchFault>,
) -> Result<(), WriteStop>
    ensures { Writes (W.taken out.old) (W.taken out.new) (W.failed out.old) (W.failed out.new) (outcome_line word.now outcome) result }
{
    match outcome {
        Ok(count) => write_counted(out, word, u64::from(count)),
        Err(fault) => write_refused(out, Fault::Bench(fault)),
    }
}

// Writes the sections of a table with their entries in order, and how many entries there are.
#[tactic(auto, unfolding(crate::specs::Replies::listing))]
fn write_listing<W: Sink>(out: &mut W, table: &Table) -> Result<(), WriteStop>
    ensures { Writes (W.taken out.old) (W.taken out.new) (W.failed out.old) (W.failed out.new) (listing (collation table.now)) result }
{
    write_walk(out, table)?;
    write_counted(out, b"listed", table.len() as u64)
}

/// Writes how many entries, declarations, sections and levels a table has. Where a write fails, the device has taken a prefix of it.
#[tactic(auto, unfolding(crate::specs::Replies::checked_line))]
pub(crate) fn write_checked<W: Sink>(out: &mut W, table: &Table) -> Result<(), WriteStop>
    ensures { Writes (W.taken out.old) (W.taken out.new) (W.failed out.old) (W.failed out.new) (checked_line (collation table.now)) result }
{
    write_pieces(
        out,
        &[
            Piece::Bytes(b"table entries "),
            Piece::Number(table.len() as u64),
            Piece::Bytes(b" declared "),
            Piece::Number(table.declared_len() as u64),
            Piece::Bytes(b" sections "),
            Piece::Number(table.section_len() as u64),
            Piece::Bytes(b" levels "),
            Piece::Number(table.rules().len() as u64),
            Piece::Bytes(b"\n"),
        ],
    )
}

// Writes a line for each named section and each entry that a walk visits.
fn write_walk<W: Sink>(out: &mut W, table: &Table) -> Result<(), WriteStop>
    ensures { Writes (W.taken out.old) (W.taken out.new) (W.failed out.old) (W.failed out.new)
        (listed_sections 1 (collation table.now).sections) result }
{
    table.lemma_well_formed();
    let mut rank = 1u64;
    for item in table.walk() {
        match write_visited(out, rank, &item) {
            Ok(next) => rank = next,
            Err(stop) => return Err(stop),
        }
    }
    Ok(())
}

// Writes the line of a section's name, or of an entry with its rank. The answer is the rank of the next entry.
fn write_visited<W: Sink>(out: &mut W, rank: u64, item: &WalkItem<'_>) -> Result<u64, WriteStop>
    requires { rank ≤ 4_294_967_295 }
    ensures sent { Sends (W.taken out.old) (W.taken out.new) (visited_line rank (visited_by item.now)) result }
    ensures rank { IfOk result (λ next. next ≡ rank_after rank (visited_by item.now)) }
    ensures errors { CountsErr (W.failed out.old) (W.failed out.new) result }
{
    match item {
        WalkItem::Section(name) => {
            write_section(out, name)?;
            Ok(rank)
        }
        WalkItem::Entry(entry) => {
            write_listed(out, rank, entry)?;
            Ok(rank + 1)
        }
    }
}

// Writes the line before the entries of a section.
#[tactic(auto, unfolding(crate::specs::Replies::section_line))]
fn write_section<W: Sink>(out: &mut W, name: &str) -> Result<(), WriteStop>
    ensures { Writes (W.taken out.old) (W.taken out.new) (W.failed out.old) (W.failed out.new) (section_line (chars name.now)) result }
{
    write_pieces(
        out,
        &[
            Piece::Bytes(b"section "),
            Piece::Symbol(name),
            Piece::Bytes(b"\n"),
        ],
    )
}

// Writes the line of one entry.
#[tactic(auto, unfolding(crate::specs::Replies::listed_line))]
fn write_listed<W: Sink>(out: &mut W, rank: u64, entry: &Entry) -> Result<(), WriteStop>
    ensures { Writes (W.taken out.old) (W.taken out.new) (W.failed out.old) (W.failed out.new) (listed_line rank entry.now) result }
{
    write_pieces(
        out,
        &[
            Piece::Number(rank),
            Piece::Bytes(b" "),
            Piece::Id(entry.id()),
            Piece::Bytes(b"\n"),
        ],
    )
}

// Writes the reply to what is refused.
#[tactic(auto, unfolding(crate::specs::Replies::refused_line))]
fn write_refused<W: Sink>(out: &mut W, fault: Fault) -> Result<(), WriteStop>
    ensures { Writes (W.taken out.old) (W.taken out.new) (W.failed out.old) (W.failed out.new) (refused_line fault) result }
{
    match fault {
        Fault::Bench(refused) => write_bench_refused(out, refused),
        _ => write_told_line(out, fault),
    }
}

// Writes the reply to what the history refused.
#[tactic(auto, unfolding(crate::specs::Replies::refused_line))]
fn write_bench_refused<W: Sink>(out: &mut W, refused: BenchFault) -> Result<(), WriteStop>
    ensures { Writes (W.taken out.old) (W.taken out.new) (W.failed out.old) (W.failed out.new) (refused_line (Bench refused)) result }
{
    match refused {
        BenchFault::StillNeeded { statement, refusal } => {
            write_still_needed(out, statement, refusal)
        }
        _ => write_told_line(out, Fault::Bench(refused)),
    }
}

// Writes the reply to a withdrawal for which another statement is refused: its number, and its refusal.
fn write_still_needed<W: Sink>(
    out: &mut W,
    statement: u32,
    refusal: Refusal,
) -> Result<(), WriteStop>
    ensures { Writes (W.taken out.old) (W.taken out.new) (W.failed out.old) (W.failed out.new)
        (still_needed_line statement refusal) result }
{
    write_pieces(
        out,
        &[
            Piece::Bytes(b"refused 71 StillNeeded "),
            Piece::Number(u64::from(statement)),
            Piece::Bytes(b" "),
            Piece::Number(u64::from(refusal.number())),
            Piece::Bytes(b" "),
            Piece::Bytes(refusal.name().as_bytes()),
            Piece::Bytes(b"\n"),
        ],
    )
}

/// Writes the reply to what is refused and told by its number and its name. Where it stops, the device has taken a prefix of it.
pub fn write_told_line<W: Sink>(out: &mut W, fault: Fault) -> Result<(), WriteStop>
    ensures { Writes (W.taken out.old) (W.taken out.new) (W.failed out.old) (W.failed out.new) (told_line (codes "refused ") fault) result }
{
    write_pieces(
        out,
        &[
            Piece::Bytes(b"refused "),
            Piece::Number(u64::from(fault.number())),
            Piece::Bytes(b" "),
            Piece::Bytes(fault.name().as_bytes()),
            Piece::Bytes(b"\n"),
        ],
    )
}

/// Writes a word and a number, and the line's end. Where it stops, the device has taken a prefix of it.
#[tactic(auto, unfolding(crate::specs::Replies::counted_line))]
pub fn write_counted<W: Sink>(out: &mut W, word: &[u8], count: u64) -> Result<(), WriteStop>
    ensures { Writes (W.taken out.old) (W.taken out.new) (W.failed out.old) (W.failed out.new) (counted_line word.now count) result }
{
    write_pieces(
        out,
        &[
            Piece::Bytes(word),
            Piece::Bytes(b" "),
            Piece::Number(count),
            Piece::Bytes(b"\n"),
        ],
    )
}
