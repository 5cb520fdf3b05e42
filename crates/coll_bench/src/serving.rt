//! Serving the lines of a session, one by one.
//!
//! A `RunState` is where a session stands between two lines: what the lexer was handed, what is kept of the block that is
//! open, and the history. A line is parsed, taken by the block, and the request that it completes is answered; each of these
//! is a function with an exact clause over what the state keeps. Whoever serves more than the lines of a session takes each line, and
//! has the request answered or does so in another way; what the state keeps is the session's either way.

ghost use Rattle.std.specs.Prelude.{◌≡◌, ◌+◌, ◌<◌, ◌++◌, Bool, true, is_some, length, Ok, Err};
ghost use Rattle.std.specs.Prelude.{IfOk, IfErr, IfSome, OnOk, OnErr, Option, option_to_list};
ghost use Rattle.coll_requests.specs.ProperLines.{IsProperRequest};
ghost use Rattle.coll_devices.specs.Devices.{CountsErr, Sends};
ghost use Rattle.coll_lex.specs.Faults.{ends_text};
ghost use Rattle.coll_lex.specs.LogicalLines.{pending, number_of};
ghost use Rattle.coll_lex.specs.Limits.{most_lines};
ghost use Rattle.coll_syntax.specs.Proper.{IsProper};
ghost use Rattle.coll_nodes.specs.NodeNumbers.{AreNumbersOf};
ghost use Rattle.coll_nodes.specs.TableLayout.{collation};
ghost use Rattle.coll_history.specs.Histories.{RefusesStatement, judged, put_again, taken_back};
ghost use Rattle.coll_requests.specs.OpenBlocks.{kept_end_faults, kept_dropped_faults, kept_last_faults};
ghost use Rattle.coll_bench.specs.Replies.{refused_line, refused_lines};
ghost use Rattle.coll_requests.specs.Requests.{dangling as dangling_faults};
ghost use Rattle.coll_bench.specs.Serving.{EndsSession, EndsWith, FinishesWith, IsCutOff, CountsEnd, CountsWrites, CountsStop};
ghost use Rattle.coll_bench.specs.Serving.{IsFlushedAt, IsFlushedAfter, ReadsNone, write_failed as failed_write, too_long};

use crate::ranked_sessions::RankedSession;
use crate::replies::{answer, refuse};
use coll_devices::{ReadStop, Sink, WriteStop};
use coll_faults::{Fault, RunFault};
use coll_history::{BenchFault, Session};
use coll_lex::LexFault;
use coll_lookups::EntryNumbers;
use coll_requests::{FaultAt, LineParser, OpenBlock, RequestAt, RequestFault};
use coll_syntax::Statement;
use coll_table::Table;
use std::alloc::{AllocError, Global};

/// Where a session stands between two lines.
pub struct RunState {
    parser: LineParser,
    block: Option<OpenBlock>,
    session: RankedSession,
}

// Written out, so that each place that drops one is one call, with no step for each part.
impl Drop for RunState {
    fn drop(self) {
        let RunState {
            parser,
            block,
            session,
        } = self;
        drop(parser);
        drop(block);
        drop(session);
    }
}

impl RunState {
    ghost use Rattle.coll_bench.specs.Serving.{IsBegun, ServesLine, TakesLine, replies_to, history_after_all};
    ghost use Rattle.coll_bench.specs.Serving.{lexer_of, block_of, session_of, history_of};

    /// A session at the beginning of a text.
    pub fn new(alloc: Global, table: Table) -> Result<RunState, AllocError>
        ensures { IfOk result (λ state. IsBegun state (collation table)) }
    {
        match LineParser::new(alloc) {
            Ok(parser) => Ok(RunState {
                parser,
                block: None,
                session: RankedSession::new(alloc, table),
            }),
            Err(refused) => {
                drop(table);
                Err(refused)
            }
        }
    }

    /// Serves one physical line.
    pub(crate) fn serve<W: Sink>(
        &mut self,
        alloc: Global,
        line: &[u8],
        output: &mut W,
    ) -> Result<(), RunFault>
        ensures served { ServesLine self.old self.new line.now (W.taken output.old) (W.taken output.new) result }
        ensures counts { OnOk result (self.new.parser.count ≡ self.old.parser.count + 1) }
        ensures room { OnOk result (self.old.parser.count < most_lines) }
        ensures input { IfErr result (λ ended. ended.input ≡ 0) }
        ensures ends { IfErr result (λ ended. EndsSession ended.fault) }
        ensures reads { IfErr result (λ ended. ReadsNone ended) }
        ensures errors { CountsWrites (W.failed output.old) (W.failed output.new) result }
        ensures flushed { W.flushed output.old ≡ true → IsFlushedAfter (W.flushed output.new) result }
    {
        match self.take(alloc, line, output) {
            Err(ended) => Err(ended),
            Ok(request) => match self.answer_if(alloc, request, output) {
                Ok(()) => Ok(()),
                Err(stop) => Err(write_failed(stop)),
            },
        }
    }

    /// Takes one physical line, without its line feed, and answers the request that it completes, if it completes one, which is still
    /// to be answered; nothing is then written, and the history stays. Where the session ends at this line, since it is too long or
    /// one too many, its last replies are written, and the fault is the answer.
    pub fn take<W: Sink>(
        &mut self,
        alloc: Global,
        line: &[u8],
        output: &mut W,
    ) -> Result<Option<RequestAt>, RunFault>
        ensures taken { TakesLine self.old self.new line.now (W.taken output.old) (W.taken output.new) result }
        ensures proper { IfOk result (λ request. IfSome request (λ completed. IsProperRequest completed.request)) }
        ensures quiet { OnOk result (output.new ≡ output.old) }
        ensures counts { OnOk result ((lexer_of self.new).count ≡ (lexer_of self.old).count + 1) }
        ensures room { OnOk result ((lexer_of self.old).count < most_lines) }
        ensures input { IfErr result (λ ended. ended.input ≡ 0) }
        ensures ends { IfErr result (λ ended. EndsSession ended.fault) }
        ensures reads { IfErr result (λ ended. ReadsNone ended) }
        ensures errors { IfErr result (λ ended. CountsEnd (W.failed output.old) (W.failed output.new) ended) }
        ensures flushed { W.flushed output.old ≡ true → IfErr result (λ ended. IsFlushedAt (W.flushed output.new) ended) }
    {
        let number = self.parser.next_number();
        match self.parser.take(alloc, &mut self.block, line) {
            Err(fault) => Err(self.stop(number, fault, output)),
            Ok(request) => Ok(request),
        }
    }

    /// Answers the request that a line completes, if it completes one, and flushes the reply.
    pub fn answer_if<W: Sink>(
        &mut self,
        alloc: Global,
        request: Option<RequestAt>,
        output: &mut W,
    ) -> Result<(), WriteStop>
        requires { IfSome request (λ completed. IsProperRequest completed.request) }
        ensures answered { (starved : Bool)
            × Sends (W.taken output.old) (W.taken output.new) (replies_to starved (history_of self.old) (option_to_list request)) result
            × (history_of self.new ≡ history_after_all starved (history_of self.old) (option_to_list request)) }
        ensures block { block_of self.new ≡ block_of self.old }
        ensures parser { lexer_of self.new ≡ lexer_of self.old }
        ensures errors { CountsErr (W.failed output.old) (W.failed output.new) result }
        ensures flushed { W.flushed output.old ≡ true → OnOk result (W.flushed output.new ≡ true) }
    {
        match request {
            Some(request) => answer(alloc, &mut self.session, request.request, output),
            None => Ok(()),
        }
    }

    /// The table now, with the history that led to it.
    pub fn session(&self) -> &Session
        ensures { result.now ≡ session_of self.now }
    {
        self.session.session()
    }

    /// Gives the entries of the table now their places, for `places`, unless these are there, and quick for a look at so many
    /// characters. Where memory is refused there are none.
    pub fn give_places(&mut self, characters: usize) -> Result<(), AllocError>
        ensures { self.new ≡ self.old }
    {
        self.session.give_places(characters)
    }

    /// The places of the entries of the table now, where they are kept: after `give_places`, until the next change.
    pub fn places(&self) -> Option<&EntryNumbers>
        ensures { IfSome result (λ places. AreNumbersOf places.now (session_of self.now).layout) }
    {
        self.session.places()
    }

    /// Whether a block is open.
    pub fn is_open(&self) -> bool
        ensures { result ≡ is_some (block_of self.now) }
    {
        self.block.is_some()
    }

    /// Judges a statement without a reply, and answers how many statements then remain. A refusal, lack of memory included, changes
    /// nothing.
    pub fn statement(&mut self, statement: Statement) -> Result<u32, BenchFault>
        requires proper { IsProper statement }
        ensures accepted { IfOk result (λ _. judged (history_of self.old) statement ≡ Ok (history_of self.new)) }
        ensures count { IfOk result (λ n. n ≡ length (history_of self.new).remaining) }
        ensures refused { IfErr result (λ fault. RefusesStatement (history_of self.old) statement fault) }
        ensures unchanged { OnErr result (self.new ≡ self.old) }
        ensures block { block_of self.new ≡ block_of self.old }
        ensures parser { lexer_of self.new ≡ lexer_of self.old }
    {
        self.session.statement(statement)
    }

    /// Takes the last remaining statement back without a reply, and answers how many then remain. It is refused with `NothingToUndo`
    /// exactly where no statement remains, and then changes nothing. It takes no memory.
    pub fn undo(&mut self) -> Result<u32, BenchFault>
        ensures undone { IfOk result (λ _. taken_back (history_of self.old) ≡ Ok (history_of self.new)) }
        ensures count { IfOk result (λ count. count ≡ length (history_of self.new).remaining) }
        ensures refused { IfErr result (λ fault. taken_back (history_of self.old) ≡ Err fault) }
        ensures unchanged { OnErr result (self.new ≡ self.old) }
        ensures block { block_of self.new ≡ block_of self.old }
        ensures parser { lexer_of self.new ≡ lexer_of self.old }
    {
        self.session.undo()
    }

    /// Puts the statement that was taken back last again without a reply, and answers how many then remain. It is refused with
    /// `NothingToRedo` exactly where nothing was taken back, and then changes nothing. It takes no memory.
    pub fn redo(&mut self) -> Result<u32, BenchFault>
        ensures redone { IfOk result (λ _. put_again (history_of self.old) ≡ Ok (history_of self.new)) }
        ensures count { IfOk result (λ count. count ≡ length (history_of self.new).remaining) }
        ensures refused { IfErr result (λ fault. put_again (history_of self.old) ≡ Err fault) }
        ensures unchanged { OnErr result (self.new ≡ self.old) }
        ensures block { block_of self.new ≡ block_of self.old }
        ensures parser { lexer_of self.new ≡ lexer_of self.old }
    {
        self.session.redo()
    }

    // Ends the session at a fault of the lexer, with its last replies.
    #[tactic(auto, using(crate::proofs::ServingLemmas::text_ends))]
    fn stop<W: Sink>(&self, number: u32, fault: LexFault, output: &mut W) -> RunFault
        requires { ends_text fault ≡ true }
        ensures ended { EndsWith number fault (W.taken output.old) (W.taken output.new)
            (refused_lines (kept_last_faults self.now.block number fault)) result }
        ensures input { result.input ≡ 0 }
        ensures ends { EndsSession result.fault }
        ensures reads { ReadsNone result }
        ensures errors { CountsEnd (W.failed output.old) (W.failed output.new) result }
        ensures flushed { W.flushed output.old ≡ true → IsFlushedAt (W.flushed output.new) result }
    {
        match write_last(&self.block, number, fault, output) {
            Ok(()) => RunFault {
                input: 0,
                line: number,
                fault: Fault::Lex(fault),
            },
            Err(stop) => write_failed(stop),
        }
    }

    /// Ends the session with its text.
    pub fn finish<W: Sink>(&mut self, output: &mut W) -> Result<(), RunFault>
        ensures ended { FinishesWith (W.taken output.old) (W.taken output.new)
            (refused_lines (kept_end_faults self.old.block (pending self.old.parser))) result }
        ensures input { IfErr result (λ ended. ended.input ≡ 0) }
        ensures ends { IfErr result (λ ended. EndsSession ended.fault) }
        ensures reads { IfErr result (λ ended. ReadsNone ended) }
        ensures errors { CountsWrites (W.failed output.old) (W.failed output.new) result }
        ensures flushed { W.flushed output.old ≡ true → IsFlushedAfter (W.flushed output.new) result }
    {
        let continued = self.parser.finish();
        match write_end(&self.block, continued, output) {
            Ok(()) => Ok(()),
            Err(stop) => Err(write_failed(stop)),
        }
    }

    /// Ends the session where no further line could be read.
    pub fn cut_off<W: Sink>(&self, stop: ReadStop, output: &mut W) -> RunFault
        ensures ended { IsCutOff stop (number_of self.now.parser) (W.taken output.old) (W.taken output.new)
            (refused_lines (kept_last_faults self.now.block (number_of self.now.parser) too_long)) result }
        ensures input { result.input ≡ 0 }
        ensures ends { EndsSession result.fault }
        ensures reads { CountsStop stop result }
        ensures errors { CountsEnd (W.failed output.old) (W.failed output.new) result }
        ensures flushed { W.flushed output.old ≡ true → IsFlushedAt (W.flushed output.new) result }
    {
        match stop {
            ReadStop::LineTooLong => {
                let number = self.parser.next_number();
                self.stop(number, LexFault::LineTooLong, output)
            }
            ReadStop::ReadFault => RunFault {
                input: 0,
                line: 0,
                fault: Fault::Read(ReadStop::ReadFault),
            },
        }
    }
}

/// The fault of a run of which a write failed.
pub fn write_failed(stop: WriteStop) -> RunFault
    ensures fault { result ≡ failed_write }
    ensures ends { EndsSession result.fault }
{
    RunFault {
        input: 0,
        line: 0,
        fault: Fault::Write(stop),
    }
}

// Writes the replies with which a session ends at a fault of the lexer.
fn write_last<W: Sink>(
    block: &Option<OpenBlock>,
    number: u32,
    fault: LexFault,
    output: &mut W,
) -> Result<(), WriteStop>
    ensures sent { Sends (W.taken output.old) (W.taken output.new) (refused_lines (kept_last_faults block.now number fault)) result }
    ensures errors { CountsErr (W.failed output.old) (W.failed output.new) result }
    ensures flushed { W.flushed output.old ≡ true → OnOk result (W.flushed output.new ≡ true) }
{
    match fault {
        LexFault::DanglingEscape => write_end(block, Some(number), output),
        _ => write_dropped(block, fault, output),
    }
}

// Writes the replies with which a session ends at a line too long or too many, where a block that is open is dropped.
fn write_dropped<W: Sink>(
    block: &Option<OpenBlock>,
    fault: LexFault,
    output: &mut W,
) -> Result<(), WriteStop>
    ensures sent { Sends (W.taken output.old) (W.taken output.new)
        (refused_lines (kept_dropped_faults block.now) ++ refused_line (Fault.Lex fault)) result }
    ensures errors { CountsErr (W.failed output.old) (W.failed output.new) result }
    ensures flushed { W.flushed output.old ≡ true → OnOk result (W.flushed output.new ≡ true) }
{
    refuse_if(dropped_fault(block), output)?;
    refuse(Fault::Lex(fault), output)
}

// Writes the replies with which a session ends where its text does.
fn write_end<W: Sink>(
    block: &Option<OpenBlock>,
    continued: Option<u32>,
    output: &mut W,
) -> Result<(), WriteStop>
    ensures sent { Sends (W.taken output.old) (W.taken output.new) (refused_lines (kept_end_faults block.now continued)) result }
    ensures errors { CountsErr (W.failed output.old) (W.failed output.new) result }
    ensures flushed { W.flushed output.old ≡ true → OnOk result (W.flushed output.new ≡ true) }
{
    refuse_if(end_fault(block, continued), output)
}

// Writes the reply to a fault, if there is one.
fn refuse_if<W: Sink>(at: Option<FaultAt>, output: &mut W) -> Result<(), WriteStop>
    ensures sent { Sends (W.taken output.old) (W.taken output.new) (refused_lines (option_to_list at)) result }
    ensures errors { CountsErr (W.failed output.old) (W.failed output.new) result }
    ensures flushed { W.flushed output.old ≡ true → OnOk result (W.flushed output.new ≡ true) }
{
    match at {
        Some(at) => refuse(Fault::from(at.fault), output),
        None => Ok(()),
    }
}

// The fault of a block that is dropped, if it has one.
fn dropped_fault(block: &Option<OpenBlock>) -> Option<FaultAt>
    ensures { option_to_list result ≡ kept_dropped_faults block.now }
{
    match block {
        Some(block) => block.dropped(),
        None => None,
    }
}

// The fault with which a text ends: that of the block that is open, or of the line, by its number, that is continued.
fn end_fault(block: &Option<OpenBlock>, continued: Option<u32>) -> Option<FaultAt>
    ensures { option_to_list result ≡ kept_end_faults block.now continued }
{
    match block {
        Some(block) => Some(block.left_open()),
        None => dangling(continued),
    }
}

// The fault of a line, by its number, that is continued where the text ends.
fn dangling(continued: Option<u32>) -> Option<FaultAt>
    ensures { option_to_list result ≡ dangling_faults continued }
{
    match continued {
        Some(line) => Some(FaultAt {
            line,
            fault: RequestFault::Lex(LexFault::DanglingEscape),
        }),
        None => None,
    }
}
