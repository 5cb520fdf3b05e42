//! Where an edit stands between two lines, and how it goes on by one.
//!
//! An `Editor` is a session, and beside it what was typed and whether a line of `edit` was answered. Delta files put their statements
//! before the first line. The session takes each line; the request that it completes is answered by the session, or, where that refuses
//! it and the line is one of `edit`, by that line.

ghost use Rattle.std.specs.Prelude.{◌≡◌, ◌≢◌, ◌+◌, ◌<◌, ℕ, Bool, true, IfErr, IfOk, IfSome, List, Ok, OnOk, Option, Some, option_to_list};
ghost use Rattle.coll_devices.specs.Devices.{Sends};
ghost use Rattle.coll_lex.specs.Limits.{most_lines};
ghost use Rattle.coll_lex.specs.LogicalLines.{number_of, pending};
ghost use Rattle.coll_nodes.specs.TableLayout.{collation};
ghost use Rattle.coll_requests.specs.OpenBlocks.{kept_end_faults, kept_last_faults};
ghost use Rattle.coll_requests.specs.ProperLines.{IsProperRequest};
ghost use Rattle.coll_syntax.specs.Proper.{IsProper};
ghost use Rattle.coll_bench.specs.Replies.{refused_lines};
ghost use Rattle.coll_bench.specs.Serving.{FinishesWith, IsCutOff, history_after_all, replies_to, too_long};
ghost use Rattle.coll_bench.specs.Serving.{block_of, history_of, lexer_of};
ghost use Rattle.coll_history.specs.Histories.{begun, judged, table_now};
ghost use Rattle.coll_history.specs.declared.history_faults.BenchFault.TheVariants.{HistoryFull};
ghost use Rattle.coll_table.specs.Delta.{delta as delta_of};
ghost use Rattle.coll_lex.specs.declared.faults.LexFault.TheVariants.{OutOfMemory};
ghost use Rattle.coll_bench.specs.BatchOutcome.{after_delta, fault_in, judged_at, statements_of};
ghost use Rattle.coll_bench.specs.BatchReading.{DeltaFails, FailsAs};
ghost use Rattle.coll_bench.specs.BatchRuns.{ending_of};
ghost use Rattle.coll_faults.specs.declared.faults.Fault.TheVariants as lex_fault;
ghost use Rattle.coll_edit.specs.Editing.{AnswersRequest, EditsLine, IsLeft, PutsBehind, has_answered as answered_by, run_of};
ghost use Rattle.coll_edit.specs.EditRuns.{IsUnserved};
ghost use Rattle.coll_edit.specs.Watching.{device_of};

mod own_answers;

use crate::devices::OpensFiles;
use crate::own_lines::{OwnLine, own_line};
use crate::stored::Stored;
use crate::watched::Watched;
use coll_advice::{Found, faults_of};
use coll_bench::{
    BenchFault, Fault, RunFault, RunState, TakesStatements, read_delta, write_failed,
};
use coll_devices::{ReadStop, Sink, Source, WriteStop};
use coll_edit_messages::{
    Asked, Change, Hint, Note, Origin, Told, TypedLines, asked_of, copied_statement, hint_for,
    tell_note, tell_notes, tell_refusal, tell_statement, tell_unwritten, tell_words, told_of,
};
use coll_findings::changes_nothing;
use coll_lex::LexFault;
use coll_requests::{Request, RequestAt, RequestFault, StatementAt};
use coll_syntax::{Statement, SyntaxFault};
use coll_table::Table;
use std::alloc::{AllocError, Global};

/// Where an edit stands between two lines.
pub struct Editor {
    run: RunState,
    typed: TypedLines,
    // How many physical lines were taken.
    lines: u32,
    // Whether a line of `edit` was answered.
    answered: bool,
    // Whether a statement of a delta file had no room in the history.
    full: bool,
    // Which statements stand in a file; before the first request all that remain, since they are those of delta files.
    stored: Option<Stored>,
    // The line of the last `:quit` that told of statements which stand in no file.
    warned: Option<u32>,
    alloc: Global,
}

// Written out, so that each place that drops one is one call, with no step for each part.
impl Drop for Editor {
    fn drop(self) {
        let Editor {
            run,
            typed,
            lines: _,
            answered: _,
            full: _,
            stored: _,
            warned: _,
            alloc: _,
        } = self;
        drop(run);
        drop(typed);
    }
}

// What there is to tell of a request, by what it finds before it is answered.
#[derive(Drop)]
struct Remarks {
    // What is wrong with its statement; nothing where that can't be told.
    found: Option<Vec<Found>>,
    // Whether it is a statement.
    states: bool,
    // Whether it is one that leaves the table as it is.
    is_idle: bool,
    // The line of a request that is refused by itself.
    line: Option<u32>,
}

impl Remarks {
    // The first thing found that is refused with this number.
    fn first_with(&self, number: u8) -> Option<&Found> {
        for found in self.found.as_ref()? {
            if found.refusal.number() == number {
                return Some(found);
            }
        }
        None
    }
}

/// What comes next.
#[derive(Clone, Copy)]
pub(crate) enum Next {
    /// A further line.
    Line,
    /// The end, which was asked for.
    End,
}

impl Editor {
    /// An edit of a table, in which nothing has happened yet.
    pub fn new(alloc: Global, table: Table) -> Result<Editor, AllocError>
        ensures unserved { IfOk result (λ editor. IsUnserved editor) }
        ensures history { IfOk result (λ editor. history_of (run_of editor) ≡ begun (collation table)) }
    {
        let run = RunState::new(alloc, table)?;
        match TypedLines::new(alloc) {
            Ok(typed) => Ok(Editor {
                run,
                typed,
                lines: 0,
                answered: false,
                full: false,
                stored: None,
                warned: None,
                alloc,
            }),
            Err(refused) => {
                drop(run);
                Err(refused)
            }
        }
    }

    /// Puts the statements of a delta file, the input with this number, behind those that remain.
    ///
    /// The first fault met is the answer, with its line, and then the statements before it remain. Where 65,535 remain, the next one is
    /// refused with `HistoryFull`.
    pub fn put_delta<R: Source>(&mut self, input: usize, delta: &mut R) -> Result<(), RunFault>
        ensures put { OnOk result ((text : List ℕ) → R.left delta.old ≡ Some text
            → PutsBehind (history_of (run_of self.old)) (statements_of text) (history_of (run_of self.new))) }
        ensures unserved { OnOk result ((text : List ℕ) → R.left delta.old ≡ Some text → IsUnserved self.old → IsUnserved self.new) }
        ensures file { OnOk result ((text : List ℕ) → R.left delta.old ≡ Some text
            → after_delta input (table_now (history_of (run_of self.old))) text ≡ Ok (table_now (history_of (run_of self.new)))) }
        ensures fault { IfErr result (λ ended. ended.fault ≢ lex_fault.Bench HistoryFull → (text : List ℕ) → R.left delta.old ≡ Some text
            → DeltaFails (ending_of ended) input (table_now (history_of (run_of self.old))) text (R.left delta.new) ended) }
        ensures input { IfErr result (λ ended. ended.input ≡ input) }
    {
        match read_delta(self.alloc, input, self, delta) {
            Ok(()) => Ok(()),
            Err(ended) if self.full => Err(RunFault {
                input,
                line: ended.line,
                fault: Fault::Bench(BenchFault::HistoryFull),
            }),
            Err(ended) => Err(ended),
        }
    }

    /// Whether a line of `edit` was answered.
    pub fn has_answered(&self) -> bool
        ensures { result ≡ answered_by self.now }
    {
        self.answered
    }

    // Puts a statement behind those that remain. One that has no room is refused as if memory was.
    fn put_copy(&mut self, input: usize, line: u32, statement: Statement) -> Result<(), RunFault>
        requires { IsProper statement }
        ensures ok { OnOk result (judged (history_of (run_of self.old)) statement ≡ Ok (history_of (run_of self.new))) }
        ensures err { IfErr result (λ ended. FailsAs (ending_of ended)
            (judged_at input line (delta_of (table_now (history_of (run_of self.old))) statement)) ended) }
        ensures number { IfErr result (λ ended. ended.line ≡ line) }
        ensures input { IfErr result (λ ended. ended.input ≡ input) }
        ensures unserved { IsUnserved self.old → IsUnserved self.new }
    {
        match self.run.statement(statement) {
            Ok(_) => Ok(()),
            Err(BenchFault::Table(refusal)) => Err(RunFault {
                input,
                line,
                fault: Fault::Table(refusal),
            }),
            Err(_) => {
                self.full = true;
                Err(no_memory_at(input, line))
            }
        }
    }

    /// Asks a person for a line, or for one of the block that is open.
    pub(crate) fn ask<M: Sink>(&self, messages: &mut M, prompts: bool) {
        if prompts {
            let prompt: &[u8] = if self.run.is_open() {
                b"block> "
            } else {
                b"> "
            };
            tell_words(messages, prompt);
        }
    }

    /// Serves one physical line. Where a person is asked for lines, what is taken back, and what was never written, is told.
    pub(crate) fn serve<W: Sink, M: Sink, F: OpensFiles>(
        &mut self,
        line: &[u8],
        output: &mut Watched<W>,
        messages: &mut M,
        files: &mut F,
        prompts: bool,
    ) -> Result<Next, RunFault>
        ensures ends { IfOk result (λ next. next ≡ Next.End → answered_by self.new ≡ true) }
        ensures served { EditsLine self.old self.new line.now (W.taken (device_of output.old)) (W.taken (device_of output.new)) result }
        ensures counts { OnOk result ((lexer_of (run_of self.new)).count ≡ (lexer_of (run_of self.old)).count + 1) }
        ensures room { OnOk result ((lexer_of (run_of self.old)).count < most_lines) }
        ensures input { IfErr result (λ ended. ended.input ≡ 0) }
    {
        output.forget();
        let was_open = self.run.is_open();
        self.typed
            .read(self.alloc, self.run.session().table(), line, prompts);
        match self.run.take(self.alloc, line, output) {
            Ok(request) => {
                self.lines = self.lines.saturating_add(1);
                let completes = request.is_some();
                let served = self.serve_request(line, request, output, messages, files, prompts);
                let is_refused = output.refusal().is_some();
                self.tell_block(was_open, completes, is_refused, messages, prompts);
                self.tell_line(was_open, completes, is_refused, messages);
                served
            }
            Err(ended) => {
                self.tell_told(output, messages, Origin::Here);
                Err(ended)
            }
        }
    }

    // Serves the request that a physical line completes, if it completes one, or the line of `edit` that it is.
    fn serve_request<W: Sink, M: Sink, F: OpensFiles>(
        &mut self,
        line: &[u8],
        request: Option<RequestAt>,
        output: &mut Watched<W>,
        messages: &mut M,
        files: &mut F,
        prompts: bool,
    ) -> Result<Next, RunFault>
        requires { IfSome request (λ completed. IsProperRequest completed.request) }
        ensures ends { IfOk result (λ next. next ≡ Next.End → answered_by self.new ≡ true) }
        ensures served { AnswersRequest self.old self.new request (W.taken (device_of output.old)) (W.taken (device_of output.new)) result }
        ensures block { block_of (run_of self.new) ≡ block_of (run_of self.old) }
        ensures parser { lexer_of (run_of self.new) ≡ lexer_of (run_of self.old) }
        ensures input { IfErr result (λ ended. ended.input ≡ 0) }
    {
        match self.own_request(&request, line) {
            Some(own) => {
                drop(request);
                self.answered = true;
                let next = self.next_behind(&own, messages, prompts);
                match self.answer_own(own, output, messages, files) {
                    Ok(()) => Ok(next),
                    Err(stop) => Err(write_failed(stop)),
                }
            }
            None => match self.answer_asked(request, output, messages, prompts) {
                Ok(()) => Ok(Next::Line),
                Err(stop) => Err(write_failed(stop)),
            },
        }
    }

    // The line of `edit` that a physical line is: one that the session refuses as an unknown command or for an operand of the wrong
    // kind, and that continues no other.
    fn own_request(&self, request: &Option<RequestAt>, line: &[u8]) -> Option<OwnLine>
        ensures left { IfSome result (λ _. IsLeft request.now) }
    {
        match request {
            Some(request) if request.line == self.lines => match &request.request {
                Request::Refused(RequestFault::UnknownCommand)
                | Request::Refused(RequestFault::Syntax(SyntaxFault::BadOperand)) => {
                    own_line(self.alloc, line)
                }
                _ => None,
            },
            _ => None,
        }
    }

    // Answers a request as the session does, and tells what its refusal says, and a person what was taken back or put again.
    fn answer_asked<W: Sink, M: Sink>(
        &mut self,
        request: Option<RequestAt>,
        output: &mut Watched<W>,
        messages: &mut M,
        prompts: bool,
    ) -> Result<(), WriteStop>
        requires { IfSome request (λ completed. IsProperRequest completed.request) }
        ensures answered { (starved : Bool)
            × Sends (W.taken (device_of output.old)) (W.taken (device_of output.new))
            (replies_to starved (history_of (run_of self.old)) (option_to_list request)) result
            × (history_of (run_of self.new) ≡ history_after_all starved (history_of (run_of self.old)) (option_to_list request)) }
        ensures block { block_of (run_of self.new) ≡ block_of (run_of self.old) }
        ensures parser { lexer_of (run_of self.new) ≡ lexer_of (run_of self.old) }
        ensures unanswered { answered_by self.new ≡ answered_by self.old }
    {
        let asked = asked_of(&request);
        let before = self.run.session().remaining_len();
        // What is taken back is no longer lent behind the answer.
        let back = match asked {
            Asked::Undo if prompts => self.told_at(before),
            Asked::Withdrawal(number) if prompts => self.told_at(number),
            _ => None,
        };
        let answered = self.answer_request(request, output, messages);
        let now = self.run.session().remaining_len();
        let stored = Stored::noted(self.stored, before);
        self.stored = Some(stored.behind_request(asked, before, now));
        self.tell_change(asked, before, &back, messages, prompts);
        drop(back);
        answered
    }

    // Tells a person what a request took back or put again, before which so many remained.
    fn tell_change<M: Sink>(
        &self,
        asked: Asked,
        before: u32,
        back: &Option<Told>,
        messages: &mut M,
        prompts: bool,
    ) {
        if !prompts {
            return;
        }
        let now = self.run.session().remaining_len();
        match (asked, back) {
            (Asked::Undo, Some(told)) if now < before => tell_statement(
                messages,
                Change::TakenBack,
                told,
            ),
            (Asked::Withdrawal(_), Some(told)) if now < before => {
                tell_statement(messages, Change::Withdrawn, told)
            }
            (Asked::Redo, _) if now > before => {
                if let Some(told) = self.told_at(now) {
                    tell_statement(messages, Change::PutAgain, &told);
                    drop(told);
                }
            }
            _ => {}
        }
    }

    // What is told of the statement with a number, if one has it.
    fn told_at(&self, number: u32) -> Option<Told> {
        told_of(self.alloc, self.run.session().remaining(number)?)
    }

    // Answers a request as the session does, and tells what its refusal says.
    fn answer_request<W: Sink, M: Sink>(
        &mut self,
        request: Option<RequestAt>,
        output: &mut Watched<W>,
        messages: &mut M,
    ) -> Result<(), WriteStop>
        requires { IfSome request (λ completed. IsProperRequest completed.request) }
        ensures answered { (starved : Bool)
            × Sends (W.taken (device_of output.old)) (W.taken (device_of output.new))
            (replies_to starved (history_of (run_of self.old)) (option_to_list request)) result
            × (history_of (run_of self.new) ≡ history_after_all starved (history_of (run_of self.old)) (option_to_list request)) }
        ensures block { block_of (run_of self.new) ≡ block_of (run_of self.old) }
        ensures parser { lexer_of (run_of self.new) ≡ lexer_of (run_of self.old) }
        ensures unanswered { answered_by self.new ≡ answered_by self.old }
    {
        let remarks = self.remarks_on(&request);
        let answered = self.run.answer_if(self.alloc, request, output);
        self.tell_remarks(&remarks, output, messages);
        drop(remarks);
        answered
    }

    // What there is to tell of a request, over the table as it stands before it is answered.
    fn remarks_on(&self, request: &Option<RequestAt>) -> Remarks
        requires { IfSome request.now (λ completed. IsProperRequest completed.request) }
    {
        match request {
            Some(
                RequestAt {
                    request: Request::Statement(statement),
                    ..
                },
            ) => {
                let table = self.run.session().table();
                Remarks {
                    found: faults_of(self.alloc, table, statement).ok(),
                    states: true,
                    is_idle: changes_nothing(table, statement),
                    line: None,
                }
            }
            Some(
                RequestAt {
                    request: Request::Refused(_),
                    line,
                },
            ) => Remarks {
                found: None,
                states: false,
                is_idle: false,
                line: Some(*line),
            },
            _ => Remarks {
                found: None,
                states: false,
                is_idle: false,
                line: None,
            },
        }
    }

    // Tells of a block that the line which was taken ended that it had no `reorder-end`, if another one begins, and a person that it was
    // refused.
    fn tell_block<M: Sink>(
        &self,
        was_open: bool,
        completes: bool,
        is_refused: bool,
        messages: &mut M,
        prompts: bool,
    ) {
        if !was_open || !completes || !self.typed.may_end_block() {
            return;
        }
        if self.run.is_open() {
            tell_note(messages, Note::Unended);
        }
        if is_refused && prompts {
            tell_note(messages, Note::Refused);
        }
    }

    // Tells the fault of the line that was taken where no reply tells it there, and what there is to note of it: that it begins with `%`,
    // or has no effect, or what the reply to its block will say of it.
    fn tell_line<M: Sink>(
        &mut self,
        was_open: bool,
        completes: bool,
        is_refused: bool,
        messages: &mut M,
    )
        ensures run { run_of self.new ≡ run_of self.old }
        ensures answered { answered_by self.new ≡ answered_by self.old }
    {
        let is_open = self.run.is_open();
        if let Some(fault) = self.typed.untold(was_open, is_open, completes) {
            let hint = hint_for(&self.typed, fault.number);
            let table = self.run.session().table();
            let origin = match fault.line {
                Some(line) => Origin::Block(line),
                None => Origin::Here,
            };
            tell_refusal(messages, table, fault.number, origin, hint);
        }
        if !is_refused && self.typed.is_with_sign() {
            tell_note(messages, Note::PercentSign);
        }
        if !was_open && self.typed.is_idle() {
            tell_note(messages, Note::Idle);
        }
        // Where it ended another block, what that one did to the table wasn't known when this was looked at.
        if is_open && !completes {
            self.tell_doubt(messages);
        }
    }

    // Tells what the reply to the block that is open will say of the line that was taken.
    fn tell_doubt<M: Sink>(&self, messages: &mut M) {
        if let Some(doubt) = self.typed.doubt() {
            let table = self.run.session().table();
            tell_words(messages, b"note: ");
            tell_refusal(
                messages,
                table,
                doubt.number,
                Origin::Id(&doubt.id),
                Hint::Nothing,
            );
        }
    }

    // Tells what the refusal says that was told, if one was, with the first thing found that is refused so. That of an earlier line
    // was told with that line. Of a statement that was accepted its notes are told.
    fn tell_remarks<W: Sink, M: Sink>(
        &self,
        remarks: &Remarks,
        output: &Watched<W>,
        messages: &mut M,
    ) {
        let table = self.run.session().table();
        let Some(number) = output.refusal() else {
            if remarks.is_idle {
                tell_note(messages, Note::Unchanged);
            } else if remarks.states {
                self.tell_accepted(messages);
            }
            return;
        };
        let is_earlier = match remarks.line {
            Some(line) => line < self.lines,
            None => false,
        };
        if is_earlier && self.typed.has_told(number) {
            return;
        }
        let hint = match output.needed_by() {
            Some(statement) => Hint::NeededBy(statement),
            None => hint_for(&self.typed, number),
        };
        let origin = match remarks.first_with(number) {
            Some(found) => Origin::Found(found),
            None => Origin::Here,
        };
        tell_refusal(messages, table, number, origin, hint);
    }

    // Tells what there is to note of the last statement that remains.
    fn tell_accepted<M: Sink>(&self, messages: &mut M) {
        let session = self.run.session();
        match session.remaining(session.remaining_len()) {
            Some(Statement::Reweight(_)) if self.typed.is_unopened() => {
                tell_note(messages, Note::Unopened)
            }
            Some(statement) => tell_notes(messages, session.table(), statement),
            None => {}
        }
    }

    // Tells what the refusal says that was told, if one was.
    fn tell_told<W: Sink, M: Sink>(
        &self,
        output: &Watched<W>,
        messages: &mut M,
        origin: Origin<'_>,
    ) {
        if let Some(number) = output.refusal() {
            let table = self.run.session().table();
            tell_refusal(messages, table, number, origin, Hint::Nothing);
        }
    }

    // Tells what the refusal of a line of `edit` says that was told, if one was.
    fn tell_own<W: Sink, M: Sink>(&self, own: &OwnLine, output: &Watched<W>, messages: &mut M) {
        let Some(number) = output.refusal() else {
            return;
        };
        let (origin, hint) = match own {
            OwnLine::Show(id) => (Origin::Id(id), Hint::Nothing),
            OwnLine::HelpNumber(text) if is_number(text.get()) => (Origin::Here, Hint::NoFault),
            OwnLine::HelpNumber(_) => (Origin::Here, Hint::NoNumber),
            OwnLine::Wrong(_) => (Origin::Here, hint_for(&self.typed, number)),
            _ => (Origin::Here, Hint::Nothing),
        };
        let table = self.run.session().table();
        tell_refusal(messages, table, number, origin, hint);
    }

    /// Ends the edit with its text.
    pub(crate) fn finish<W: Sink, M: Sink>(
        &mut self,
        output: &mut Watched<W>,
        messages: &mut M,
        prompts: bool,
    ) -> Result<(), RunFault>
        ensures ended { FinishesWith (W.taken (device_of output.old)) (W.taken (device_of output.new))
            (refused_lines (kept_end_faults (block_of (run_of self.old)) (pending (lexer_of (run_of self.old))))) result }
        ensures answered { answered_by self.new ≡ answered_by self.old }
        ensures input { IfErr result (λ ended. ended.input ≡ 0) }
    {
        if prompts {
            // The line of the prompt that was not answered ends.
            tell_words(messages, b"\n");
        }
        output.forget();
        let ended = self.run.finish(output);
        self.tell_told(output, messages, Origin::Here);
        let unwritten = self.unwritten();
        if prompts {
            tell_unwritten(messages, unwritten, true);
        }
        ended
    }

    /// Ends the edit where no further line could be read.
    pub(crate) fn cut_off<W: Sink, M: Sink>(
        &self,
        stop: ReadStop,
        output: &mut Watched<W>,
        messages: &mut M,
    ) -> RunFault
        ensures ended { IsCutOff stop (number_of (lexer_of (run_of self.now))) (W.taken (device_of output.old))
            (W.taken (device_of output.new))
            (refused_lines (kept_last_faults (block_of (run_of self.now)) (number_of (lexer_of (run_of self.now))) too_long)) result }
        ensures input { result.input ≡ 0 }
    {
        output.forget();
        let ended = self.run.cut_off(stop, output);
        self.tell_told(output, messages, Origin::Here);
        ended
    }
}

impl TakesStatements for Editor {
    ghost use Rattle.coll_history.specs.Histories.{table_now};
    ghost use Rattle.coll_bench.specs.Serving.{history_of};
    ghost use Rattle.coll_edit.specs.EditRuns.{Leads};
    ghost use Rattle.coll_edit.specs.Editing.{run_of};

    ghost table = { λ editor. table_now (history_of (run_of editor)) };

    ghost Reaches = { λ start given now. Leads start given now };

    fn put(&mut self, input: usize, at: &StatementAt) -> Result<(), RunFault> {
        match copied_statement(self.alloc, &at.statement) {
            Ok(statement) => self.put_copy(input, at.line, statement),
            Err(_) => Err(no_memory_at(input, at.line)),
        }
    }

    ghost stays = { λ editor. record {
      puts = record { start = refl; remaining = sym (append-nil (history_of (run_of editor)).remaining); undone = λ none. none };
      unserved = λ kept. kept;
    } };

    ghost use Rattle.std.proofs.Common.{refl, sym, append-nil};
}

// Whether a text is a number.
fn is_number(text: &str) -> bool {
    text.parse::<u32>().is_ok()
}

// Lack of memory at a line of an input.
fn no_memory_at(input: usize, line: u32) -> RunFault
    ensures { result ≡ fault_in input line (lex_fault.Lex OutOfMemory) }
{
    RunFault {
        input,
        line,
        fault: Fault::Lex(LexFault::OutOfMemory),
    }
}
