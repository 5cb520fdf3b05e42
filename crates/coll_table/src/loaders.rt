//! A table text, handed in line by line.
//!
//! A `Loader` stores what the next line is judged by (`LoaderState` of coll_texts, `specs/Loading.antt`), and each call is the
//! definition applied to what is stored and the line handed in. It joins a lexer and a builder: what a line is belongs to the
//! first, and what it means to the second; here lines are passed on, and faults get the number of their line. A fault is stored
//! where it is met, in `line` alone.

ghost use Rattle.std.specs.Prelude.{◌≡◌, ◌≢◌, true, false, None, Ok, Err, Some, IsTrue, IfOk, IfErr, IfSome, IfNone, OnOk, OnErr};
ghost use Rattle.coll_lex.specs.LogicalLines.{number_of, fed, outside, takes_memory};
ghost use Rattle.coll_lex.specs.Names.{AreTokens};
ghost use Rattle.coll_syntax.specs.KeptLines.{kept_line};
ghost use Rattle.coll_syntax.specs.Proper.{IsProperTableLine};
ghost use Rattle.coll_syntax.specs.TableLines.{table_line};
ghost use Rattle.coll_texts.specs.BuilderStates.{table_of};
ghost use Rattle.coll_texts.specs.Loading.{LinesAreRead};
ghost use Rattle.coll_table.specs.SoundLoaders.{IsLineCause, MayTake};
ghost use Rattle.coll_texts.specs.declared.load_faults.LoadFault.{LoadFault};
ghost use Rattle.coll_nodes.specs.TableLayout.{collation};
ghost use Rattle.coll_nodes.specs.WellFormed.{IsWellFormed};
ghost use Rattle.coll_texts.specs.declared.load_faults.LoadCause.TheVariants.{OutOfMemory};

use crate::Table;
use coll_lex::{Lexer, Line};
use coll_lookups::HashKeys;
use coll_syntax::{TableLine, parse_kept_line, parse_plain_line};
use coll_texts::{LoadCause, LoadFault, TableBuilder};
use std::alloc::{AllocError, Global};
use std::marker::Model;

/// A table text that is handed in line by line.
///
/// What is answered to the lines of a text, handed in one after another, and then to its end, is what `load` answers to the
/// text (`lines_are_read`).
#[derive(Drop)]
pub struct Loader {
    lexer: Lexer,
    // Whether the category has begun.
    begun: bool,
    // Whether the category has ended.
    ended: bool,
    builder: TableBuilder,
    // The first fault, which each later call answers.
    fault: Option<LoadFault>,
    alloc: Global,
}

impl Model for Loader {
    ghost use Rattle.coll_texts.specs.Loading.{LoaderState};
    ghost use Rattle.coll_table.specs.SoundLoaders.{IsSoundLoader};

    ghost Value = { LoaderState };

    ghost view = { λ l. record { lexer = l.lexer; begun = l.begun; ended = l.ended; builder = l.builder; fault = l.fault } };

    ghost invariant = { λ l. IsSoundLoader
        (record { lexer = l.lexer; begun = l.begun; ended = l.ended; builder = l.builder; fault = l.fault }) };
}

impl Loader {
    ghost use Rattle.coll_texts.specs.Loading.{LoaderState, first_loader, loaded_line, loaded, by_where};
    ghost use Rattle.coll_texts.specs.Loading.{by_outside, by_fed, by_read, early_end};

    /// A loader before the first line, for a text that one trusts: its names are looked up under keys that anyone knows.
    pub fn new(alloc: Global) -> Result<Loader, AllocError>
        ensures { IfOk result (λ loader. loader ≡ first_loader) }
    {
        Loader::keyed(alloc, HashKeys::zeros())
    }

    /// A loader before the first line. What the text names is looked up under these keys, by the table and its ranks too.
    pub fn keyed(alloc: Global, keys: HashKeys) -> Result<Loader, AllocError>
        ensures { IfOk result (λ loader. loader ≡ first_loader) }
    {
        let lexer = Lexer::new(alloc)?;
        let builder = TableBuilder::new(alloc, keys)?;
        Ok(Loader {
            lexer,
            begun: false,
            ended: false,
            builder,
            fault: None,
            alloc,
        })
    }

    /// Hands in the next physical line, without its line feed.
    ///
    /// The first fault is stored, lack of memory as any other, and each later call answers it again. Behind the end of the
    /// category nothing is looked at. Memory is taken in the category alone, and there where the lexer takes it or a line has
    /// tokens. A line that is refused doesn't end the category.
    #[tactic(auto, unfolding(coll_texts::specs::Loading::loaded_line))]
    pub fn line(&mut self, line: &[u8]) -> Result<(), LoadFault>
        ensures ok { OnOk result (loaded_line self.old line.now ≡ Ok self.new) }
        ensures err { IfErr result (λ fault. fault.cause ≢ OutOfMemory → loaded_line self.old line.now ≡ Err fault) }
        ensures again { IfErr result (λ fault. (first : LoadFault) → self.old.fault ≡ Some first → fault ≡ first) }
        ensures memory { IfErr result (λ fault. fault.cause ≡ OutOfMemory → self.old.fault ≡ None → MayTake self.old line.now) }
        ensures starved_at { IfErr result (λ fault. fault.cause ≡ OutOfMemory → self.old.fault ≡ None
            → fault.line ≡ number_of self.old.lexer) }
        ensures cause { IfErr result (λ fault. IsLineCause fault.cause) }
        ensures stays { IfErr result (λ fault. self.new.fault ≡ Some fault) }
        ensures ended { OnErr result (self.new.ended ≡ self.old.ended) }
    {
        if let Some(fault) = self.fault {
            return Err(fault);
        }
        let answer = self.judge(line);
        if let Err(fault) = answer {
            self.fault = Some(fault);
        }
        answer
    }

    /// The number that a fault of the next line carries: that of the logical line that is left open, or else one more
    /// than the lines handed in.
    pub fn next_number(&self) -> u32
        ensures { result ≡ number_of self.now.lexer }
    {
        self.lexer.next_number()
    }

    /// Whether the category has ended.
    pub fn finished(&self) -> bool
        ensures { result ≡ self.now.ended }
    {
        self.ended
    }

    /// The table, where the category has ended; otherwise the fault that is stored, or that of a text that ends here. It takes
    /// no memory.
    #[tactic(auto, unfolding(coll_texts::specs::Loading::loaded))]
    pub fn finish(self) -> Result<Table, LoadFault>
        ensures ok { IfOk result (λ table. loaded self ≡ Ok (collation table)) }
        ensures err { IfErr result (λ fault. loaded self ≡ Err fault) }
        ensures cause { IfErr result (λ fault. IsLineCause fault.cause) }
        ensures spared { IfErr result (λ fault. self.fault ≡ None → fault.cause ≢ OutOfMemory) }
        ensures well_formed { IfOk result (λ table. IsWellFormed (collation table)) }
    {
        if let Some(fault) = self.end_fault() {
            drop(self);
            return Err(fault);
        }
        let Loader { lexer, builder, .. } = self;
        drop(lexer);
        Ok(Table::built(builder))
    }

    // The fault that is stored, or that of a text that ends here; none where the category has ended.
    #[tactic(auto, unfolding(coll_texts::specs::Loading::loaded))]
    fn end_fault(&self) -> Option<LoadFault>
        ensures fault { IfSome result (λ fault. loaded self.now ≡ Err fault) }
        ensures none { IfNone result (loaded self.now ≡ Ok (table_of self.now.builder)) }
        ensures ended { IfNone result (self.now.ended ≡ true) }
        ensures cause { IfSome result (λ fault. IsLineCause fault.cause) }
        ensures spared { IfSome result (λ fault. self.now.fault ≡ None → fault.cause ≢ OutOfMemory) }
    {
        if let Some(fault) = self.fault {
            return Some(fault);
        }
        if self.ended {
            return None;
        }
        Some(self.early_end())
    }

    // The fault of a text that ends here, before its category does.
    fn early_end(&self) -> LoadFault
        ensures fault { result ≡ early_end self.now self.now.lexer.line }
        ensures cause { IsLineCause result.cause }
        ensures spared { result.cause ≢ OutOfMemory }
    {
        LoadFault::from(self.lexer.early_end(self.begun))
    }

    // Judges a line by where it stands: behind the category, in it, or before it.
    fn judge(&mut self, line: &[u8]) -> Result<(), LoadFault>
        ensures ok { OnOk result (by_where self.old line.now ≡ Ok self.new) }
        ensures err { IfErr result (λ fault. fault.cause ≢ OutOfMemory → by_where self.old line.now ≡ Err fault) }
        ensures memory { IfErr result (λ fault. fault.cause ≡ OutOfMemory → MayTake self.old line.now) }
        ensures starved_at { IfErr result (λ fault. fault.cause ≡ OutOfMemory → fault.line ≡ number_of self.old.lexer) }
        ensures cause { IfErr result (λ fault. IsLineCause fault.cause) }
        ensures ended { OnErr result (self.new.ended ≡ self.old.ended) }
    {
        if self.ended {
            return Ok(());
        }
        if self.begun {
            return self.take_physical(line);
        }
        self.skip_physical(line)
    }

    // Takes a line before the category, which may begin with it.
    fn skip_physical(&mut self, line: &[u8]) -> Result<(), LoadFault>
        ensures ok { OnOk result (by_outside self.old (outside self.old.lexer line.now) ≡ Ok self.new) }
        ensures err { IfErr result (λ fault. by_outside self.old (outside self.old.lexer line.now) ≡ Err fault) }
        ensures memory { IfErr result (λ fault. fault.cause ≢ OutOfMemory) }
        ensures cause { IfErr result (λ fault. IsLineCause fault.cause) }
        ensures ended { OnErr result (self.new.ended ≡ self.old.ended) }
    {
        let number = self.lexer.next_number();
        match self.lexer.outside(line) {
            Ok(begins) => {
                self.begun = begins;
                Ok(())
            }
            Err(fault) => Err(LoadFault {
                line: number,
                cause: LoadCause::from(fault),
            }),
        }
    }

    // Takes a line of the category. Nearly all lines declare a symbol, place one, or give a character weights: such a line is read from
    // its text, and no token is made of it.
    fn take_physical(&mut self, line: &[u8]) -> Result<(), LoadFault>
        requires { self.old.ended ≡ false }
        ensures ok { OnOk result (by_fed self.old (fed self.old.lexer line.now) ≡ Ok self.new) }
        ensures err { IfErr result (λ fault. fault.cause ≢ OutOfMemory → by_fed self.old (fed self.old.lexer line.now) ≡ Err fault) }
        ensures memory { IfErr result (λ fault. fault.cause ≡ OutOfMemory → IsTrue (takes_memory self.old.lexer line.now)) }
        ensures starved_at { IfErr result (λ fault. fault.cause ≡ OutOfMemory → fault.line ≡ number_of self.old.lexer) }
        ensures cause { IfErr result (λ fault. IsLineCause fault.cause) }
        ensures ended { OnErr result (self.new.ended ≡ self.old.ended) }
    {
        let number = self.lexer.next_number();
        let Some(text) = self.lexer.plain_text(line) else {
            return self.take_fed(number, line);
        };
        match parse_plain_line(self.alloc, &self.lexer, text) {
            Ok(Some(read)) => {
                self.lexer.pass_line();
                self.take_read(number, read)
            }
            Ok(None) => self.take_fed(number, line),
            Err(_) => {
                self.lexer.pass_line();
                Err(starved(number))
            }
        }
    }

    // Takes a line of the category, which has this number, token by token.
    fn take_fed(&mut self, number: u32, line: &[u8]) -> Result<(), LoadFault>
        requires number { number ≡ number_of self.old.lexer }
        requires going { self.old.ended ≡ false }
        ensures ok { OnOk result (by_fed self.old (fed self.old.lexer line.now) ≡ Ok self.new) }
        ensures err { IfErr result (λ fault. fault.cause ≢ OutOfMemory → by_fed self.old (fed self.old.lexer line.now) ≡ Err fault) }
        ensures memory { IfErr result (λ fault. fault.cause ≡ OutOfMemory → IsTrue (takes_memory self.old.lexer line.now)) }
        ensures starved_at { IfErr result (λ fault. fault.cause ≡ OutOfMemory → fault.line ≡ number_of self.old.lexer) }
        ensures cause { IfErr result (λ fault. IsLineCause fault.cause) }
        ensures ended { OnErr result (self.new.ended ≡ self.old.ended) }
    {
        match self.lexer.feed(line) {
            Ok(Some(whole)) => self.take_logical(&whole),
            Ok(None) => Ok(()),
            Err(fault) => Err(LoadFault {
                line: number,
                cause: LoadCause::from(fault),
            }),
        }
    }

    // Takes a logical line of the category. What its entry keeps of it is read from it at once.
    fn take_logical(&mut self, line: &Line) -> Result<(), LoadFault>
        requires tokens { AreTokens line.now.tokens }
        requires going { self.old.ended ≡ false }
        ensures ok { OnOk result (by_read self.old line.now.number (table_line line.now.tokens) ≡ Ok self.new) }
        ensures err { IfErr result (λ fault. fault.cause ≢ OutOfMemory → by_read self.old line.now.number (table_line line.now.tokens)
            ≡ Err fault) }
        ensures starved_at { IfErr result (λ fault. fault.cause ≡ OutOfMemory → fault.line ≡ line.now.number) }
        ensures cause { IfErr result (λ fault. IsLineCause fault.cause) }
        ensures ended { OnErr result (self.new.ended ≡ self.old.ended) }
    {
        self.take_kept(line)
    }

    // Takes a logical line of the category, as it is kept.
    fn take_kept(&mut self, line: &Line) -> Result<(), LoadFault>
        requires tokens { AreTokens line.now.tokens }
        requires going { self.old.ended ≡ false }
        ensures ok { OnOk result (by_read self.old line.now.number (kept_line line.now.tokens) ≡ Ok self.new) }
        ensures err { IfErr result (λ fault. fault.cause ≢ OutOfMemory → by_read self.old line.now.number (kept_line line.now.tokens)
            ≡ Err fault) }
        ensures starved_at { IfErr result (λ fault. fault.cause ≡ OutOfMemory → fault.line ≡ line.now.number) }
        ensures cause { IfErr result (λ fault. IsLineCause fault.cause) }
        ensures ended { OnErr result (self.new.ended ≡ self.old.ended) }
    {
        match parse_kept_line(self.alloc, line) {
            Ok(read) => self.take_read(line.number, read),
            Err(fault) => Err(LoadFault {
                line: line.number,
                cause: LoadCause::from(fault),
            }),
        }
    }

    // Takes what a line of the category says, which has this number.
    fn take_read(&mut self, number: u32, read: TableLine) -> Result<(), LoadFault>
        requires proper { IsProperTableLine read }
        requires going { self.old.ended ≡ false }
        ensures ok { OnOk result (by_read self.old number (Ok read) ≡ Ok self.new) }
        ensures err { IfErr result (λ fault. fault.cause ≢ OutOfMemory → by_read self.old number (Ok read) ≡ Err fault) }
        ensures starved_at { IfErr result (λ fault. fault.cause ≡ OutOfMemory → fault.line ≡ number) }
        ensures cause { IfErr result (λ fault. IsLineCause fault.cause) }
        ensures ended { OnErr result (self.new.ended ≡ self.old.ended) }
    {
        self.ended = self.builder.take(number, read)?;
        Ok(())
    }
}

// The fault of a line with this number to which memory was refused.
fn starved(number: u32) -> LoadFault
    ensures line { result.line ≡ number }
    ensures cause { result.cause ≡ OutOfMemory }
{
    LoadFault {
        line: number,
        cause: LoadCause::OutOfMemory,
    }
}

/// The law of loaders: handing in the lines of a text one after another answers what the text is.
///
/// It does nothing; its contract is the law.
pub fn lines_are_read()
    ensures { LinesAreRead }
{}
