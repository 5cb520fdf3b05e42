//! What the lines of `edit` are answered that stand beside those of a session.
//!
//! They look at the table and the history, and at files, and change neither history nor block (`OwnReplies`). What is refused is told
//! on standard error, as of all lines.

ghost use Rattle.std.specs.Prelude.{◌≡◌, ◌<◌, [], chars, true, Ok, OnOk, Some};
ghost use Rattle.coll_devices.specs.Devices.{Sends};
ghost use Rattle.coll_bench.specs.Serving.{block_of, history_of, lexer_of};
ghost use Rattle.coll_history.specs.Histories.{table_now};
ghost use Rattle.coll_edit.specs.Editing.{IsLook, has_answered as answered_by, run_of};
ghost use Rattle.coll_delta_texts.specs.DeltaText.{delta_text};
ghost use Rattle.coll_explanations.specs.Explaining.{Explains};
ghost use Rattle.coll_edit.specs.OwnReplies.{SendsAnswer, SendsExplained};
ghost use Rattle.coll_edit.specs.Watching.{device_of};

use crate::devices::OpensFiles;
use crate::editors::{Editor, Next};
use crate::own_lines::OwnLine;
use crate::stored::Stored;
use crate::watched::Watched;
use coll_bench::{Fault, RunFault};
use coll_devices::{ReadStop, Sink, WriteStop};
use coll_edit_messages::{Origin, Unwritten, tell_unwritten};
use coll_edit_replies::{
    are_few, flush, write_count, write_help, write_number_help, write_refusal, write_shown,
    write_statements, write_words,
};
use coll_explanations::{explain, explain_by_places};
use coll_lex::TextBuf;
use coll_requests::{Command, Request, RequestAt};

impl Editor {
    /// What comes behind a line of `edit`: the end, behind `:quit`, unless a person is told at first of what stands in no file.
    pub(crate) fn next_behind<M: Sink>(
        &mut self,
        own: &OwnLine,
        messages: &mut M,
        prompts: bool,
    ) -> Next
        ensures run { run_of self.new ≡ run_of self.old }
        ensures answered { answered_by self.new ≡ answered_by self.old }
    {
        let OwnLine::Quit = own else {
            return Next::Line;
        };
        let unwritten = self.unwritten();
        if !prompts || unwritten.is_nothing() || self.warned == Some(self.lines.saturating_sub(1)) {
            return Next::End;
        }
        self.warned = Some(self.lines);
        tell_unwritten(messages, unwritten, false);
        Next::Line
    }

    /// Answers a line of `edit`.
    pub(crate) fn answer_own<W: Sink, M: Sink, F: OpensFiles>(
        &mut self,
        own: OwnLine,
        output: &mut Watched<W>,
        messages: &mut M,
        files: &mut F,
    ) -> Result<(), WriteStop>
        ensures history { history_of (run_of self.new) ≡ history_of (run_of self.old) }
        ensures block { block_of (run_of self.new) ≡ block_of (run_of self.old) }
        ensures parser { lexer_of (run_of self.new) ≡ lexer_of (run_of self.old) }
        ensures answered { answered_by self.new ≡ answered_by self.old }
    {
        match own {
            OwnLine::Key(text) => self.answer_command(Command::Key(text), output, messages),
            OwnLine::Compare(text, other) => {
                self.answer_command(Command::Compare(text, other), output, messages)
            }
            own => {
                let answered = self.answer_lent(&own, output, messages, files);
                drop(own);
                answered
            }
        }
    }

    // Answers a line of `edit` that is no command of the session.
    fn answer_lent<W: Sink, M: Sink, F: OpensFiles>(
        &mut self,
        own: &OwnLine,
        output: &mut Watched<W>,
        messages: &mut M,
        files: &mut F,
    ) -> Result<(), WriteStop>
        ensures history { history_of (run_of self.new) ≡ history_of (run_of self.old) }
        ensures block { block_of (run_of self.new) ≡ block_of (run_of self.old) }
        ensures parser { lexer_of (run_of self.new) ≡ lexer_of (run_of self.old) }
        ensures answered { answered_by self.new ≡ answered_by self.old }
    {
        match own {
            OwnLine::Words(name) => self.answer_words(name.get(), output, messages, files),
            OwnLine::Write(name) => self.answer_write(name.get(), output, messages, files),
            _ => {
                self.give_places(own);
                let wrote = self.write_answer(own, output);
                self.tell_own(own, output, messages);
                wrote
            }
        }
    }

    // Answers a command of the session.
    fn answer_command<W: Sink, M: Sink>(
        &mut self,
        command: Command,
        output: &mut Watched<W>,
        messages: &mut M,
    ) -> Result<(), WriteStop>
        requires { IsLook command }
        ensures history { history_of (run_of self.new) ≡ history_of (run_of self.old) }
        ensures block { block_of (run_of self.new) ≡ block_of (run_of self.old) }
        ensures parser { lexer_of (run_of self.new) ≡ lexer_of (run_of self.old) }
        ensures answered { answered_by self.new ≡ answered_by self.old }
    {
        let request = RequestAt {
            line: self.lines,
            request: Request::Command(command),
        };
        self.answer_request(Some(request), output, messages)
    }

    // Gives the entries their places, where a line of `edit` looks something up by them. Where memory is refused there are none, and
    // it goes without.
    fn give_places(&mut self, own: &OwnLine)
        ensures { self.new ≡ self.old }
    {
        match own {
            OwnLine::Show(_) => {
                let _ = self.run.give_places(1);
            }
            OwnLine::Explain(text, other) => {
                let count = text.get().chars().count();
                let looks = count.saturating_add(other.get().chars().count());
                if are_few(self.run.session().table(), looks) {
                    let _ = self.run.give_places(looks);
                }
            }
            _ => {}
        }
    }

    // Writes the answer to a line of `edit` that asks for nothing but the table and the history.
    fn write_answer<W: Sink>(&self, own: &OwnLine, output: &mut Watched<W>) -> Result<(), WriteStop>
        ensures { SendsAnswer (history_of (run_of self.now)) own.now (W.taken (device_of output.old)) (W.taken (device_of output.new)) result }
    {
        match own {
            OwnLine::Show(id) => {
                write_shown(output, self.run.session().table(), self.run.places(), id)
            }
            OwnLine::Explain(text, other) => self.write_explained(text, other, output),
            OwnLine::Delta => self.write_delta(output),
            OwnLine::Help => write_help(output),
            OwnLine::HelpNumber(number) => write_number_help(output, number.get()),
            OwnLine::Wrong(fault) => write_refusal(output, Fault::Syntax(*fault)),
            _ => Ok(()),
        }
    }

    // Writes the statements that remain, and flushes them.
    fn write_delta<O: Sink>(&self, output: &mut O) -> Result<(), WriteStop>
        ensures sent { Sends (O.taken output.old) (O.taken output.new)
            (delta_text [] (history_of (run_of self.now)).remaining) result }
        ensures flushed { OnOk result (O.flushed output.new ≡ true) }
    {
        write_statements(output, self.run.session())?;
        flush(output)
    }

    // Writes why two texts compare as they do, and flushes it.
    fn write_explained<W: Sink>(
        &self,
        text: &TextBuf,
        other: &TextBuf,
        output: &mut Watched<W>,
    ) -> Result<(), WriteStop>
        ensures sent { SendsExplained (table_now (history_of (run_of self.now))) text.now other.now (W.taken (device_of output.old))
            (W.taken (device_of output.new)) result }
        ensures flushed { OnOk result (W.flushed (device_of output.new) ≡ true) }
    {
        match self.explained(text.get(), other.get(), output) {
            Ok(()) => flush(output),
            Err(ended) => match ended.fault {
                Fault::Write(stop) => Err(stop),
                fault => write_refusal(output, fault),
            },
        }
    }

    // Writes an explanation, by the places of the entries where these are known.
    fn explained<W: Sink>(
        &self,
        text: &str,
        other: &str,
        output: &mut Watched<W>,
    ) -> Result<(), RunFault>
        ensures { Explains (table_now (history_of (run_of self.now))) (chars text.now) (chars other.now) (W.taken (device_of output.old))
            (W.taken (device_of output.new)) result }
    {
        let table = self.run.session().table();
        match self.run.places() {
            Some(places) => explain_by_places(self.alloc, table, places, text, other, output),
            None => explain(self.alloc, table, text, other, output),
        }
    }

    /// What of the statements that remain stands in no file.
    pub(crate) fn unwritten(&self) -> Unwritten {
        let remaining = self.run.session().remaining_len();
        let stored = Stored::noted(self.stored, remaining);
        match stored.missing(remaining) {
            0 if stored.is_last(remaining) => Unwritten::Nothing,
            0 => Unwritten::TakenBack,
            missing => Unwritten::Statements(missing),
        }
    }

    // Answers `:write`: the statements that remain go into a new file.
    fn answer_write<W: Sink, M: Sink, F: OpensFiles>(
        &mut self,
        name: &str,
        output: &mut Watched<W>,
        messages: &mut M,
        files: &mut F,
    ) -> Result<(), WriteStop>
        ensures run { run_of self.new ≡ run_of self.old }
        ensures answered { answered_by self.new ≡ answered_by self.old }
    {
        match files.create(name) {
            Ok(mut file) => {
                let wrote = self.write_delta(&mut file);
                drop(file);
                let remaining = self.run.session().remaining_len();
                let stored = Stored::noted(self.stored, remaining);
                let stored = if wrote.is_ok() {
                    stored.behind_write(remaining)
                } else {
                    stored
                };
                self.stored = Some(stored);
                let replied = match wrote {
                    Ok(()) => write_count(output, b"written", u64::from(remaining)),
                    Err(stop) => write_refusal(output, Fault::Write(stop)),
                };
                self.tell_told(output, messages, Origin::Here);
                replied
            }
            Err(reason) => {
                let fault = Fault::Write(WriteStop::WriteFault);
                self.reply_fault(fault, Origin::Unopened(name, reason), output, messages)
            }
        }
    }

    // Answers `:words`: the words of a file in the order now.
    fn answer_words<W: Sink, M: Sink, F: OpensFiles>(
        &mut self,
        name: &str,
        output: &mut Watched<W>,
        messages: &mut M,
        files: &mut F,
    ) -> Result<(), WriteStop>
        ensures history { history_of (run_of self.new) ≡ history_of (run_of self.old) }
        ensures block { block_of (run_of self.new) ≡ block_of (run_of self.old) }
        ensures parser { lexer_of (run_of self.new) ≡ lexer_of (run_of self.old) }
        ensures answered { answered_by self.new ≡ answered_by self.old }
    {
        match files.open(name) {
            Ok(mut file) => {
                let wrote = write_words(self.alloc, &mut self.run, &mut file, output);
                drop(file);
                self.reply_words(name, wrote, output, messages)
            }
            Err(reason) => {
                let fault = Fault::Read(ReadStop::ReadFault);
                self.reply_fault(fault, Origin::Unopened(name, reason), output, messages)
            }
        }
    }

    // Replies to `:words` where a line is at fault, a read fails or memory is refused.
    fn reply_words<W: Sink, M: Sink>(
        &self,
        name: &str,
        wrote: Result<(), RunFault>,
        output: &mut Watched<W>,
        messages: &mut M,
    ) -> Result<(), WriteStop> {
        match wrote {
            Ok(()) => Ok(()),
            Err(ended) => match ended.fault {
                Fault::Write(stop) => Err(stop),
                fault => {
                    let origin = Origin::File(name, ended.line);
                    self.reply_fault(fault, origin, output, messages)
                }
            },
        }
    }

    // Replies that something is refused.
    fn reply_fault<W: Sink, M: Sink>(
        &self,
        fault: Fault,
        origin: Origin<'_>,
        output: &mut Watched<W>,
        messages: &mut M,
    ) -> Result<(), WriteStop> {
        let replied = write_refusal(output, fault);
        self.tell_told(output, messages, origin);
        replied
    }
}
