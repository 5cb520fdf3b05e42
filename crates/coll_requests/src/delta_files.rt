//! A delta file, handed in line by line.
//!
//! A `DeltaReader` stores what the next line is judged by (`DeltaState` of `specs/DeltaReading.antt`), and each call is the
//! definition applied to what is stored and the line handed in. Lines before the category are looked at by the lexer alone;
//! those of the category are parsed, and taken by blocks, as the lines of a session are, but none is a command, and the first fault
//! ends the file. What a whole file says is defined in `specs/DeltaFiles.antt`.
//!
//! A new kind of line needs its fault here, in `fault_outside` and `fault_inside`, and in the definitions of the same names;
//! what it does otherwise is left to `open_blocks`. Lack of memory is a fault at once, also where a block would give its
//! statement first.

ghost use Rattle.std.specs.Prelude.{◌≡◌, false, Ok, true, Err, None, Some, IsTrue, IfSome, IfOk, IfErr, OnOk, OnErr, option_to_list};
ghost use Rattle.coll_lex.specs.LogicalLines.{number_of, outside, takes_memory};
ghost use Rattle.coll_syntax.specs.Proper.{IsProper};
ghost use Rattle.coll_requests.specs.DeltaFaults.{lacks_memory};
ghost use Rattle.coll_requests.specs.DeltaFiles.{file_fault as fault_in_file, fault_outside as fault_of_outside};
ghost use Rattle.coll_requests.specs.DeltaFiles.{statements_in, ends_category as ends_the_category};
ghost use Rattle.coll_requests.specs.DeltaReading.{DeltaLinesAreRead, DeltaLinesAreTaken, MayTakeDelta, MayLackMemory};
ghost use Rattle.coll_requests.specs.DeltaReading.{kept_fault_under, kept_fault_inside, kept_ended_before, is_lack};
ghost use Rattle.coll_requests.specs.DeltaReading.{is_order as is_order_line, leaves_lack as lack_is_left};
ghost use Rattle.coll_requests.specs.ProperLines.{IsProperParsed, IsProperRequest};
ghost use Rattle.coll_requests.specs.declared.delta_faults.DeltaFault.{DeltaFault};

use crate::delta_faults::{DeltaCause, DeltaFault};
use crate::open_blocks::{OpenBlock, take_line};
use crate::parsing::{LineParser, Parsing};
use crate::request_faults::RequestFault;
use crate::requests::{FaultAt, Request, RequestAt};
use crate::session_lines::{Opening, Parsed, ParsedLine, StandaloneLine};
use coll_lex::LexFault;
use coll_syntax::{Statement, SyntaxFault};
use std::alloc::{AllocError, Global};
use std::marker::Model;

/// A statement of a delta file, and the line that it begins at.
#[derive(Debug, Drop)]
pub struct StatementAt {
    /// The number of its line, from 1; of a block that of its `reorder-after`.
    pub line: u32,
    /// The statement.
    pub statement: Statement,
}

/// A delta file that is handed in line by line.
///
/// What is answered to the lines of a file, handed in one after another, and then to its end, is what the file says
/// (`delta_lines_are_read`).
#[derive(Drop)]
pub struct DeltaReader {
    parser: LineParser,
    // Whether the category has begun.
    begun: bool,
    // Whether the category has ended.
    ended: bool,
    // The block that is open. No line has spoiled it.
    block: Option<OpenBlock>,
    // The first fault, which each later call answers.
    fault: Option<DeltaFault>,
    alloc: Global,
}

impl Model for DeltaReader {
    ghost use Rattle.coll_requests.specs.DeltaReading.{DeltaState, IsSoundDelta};

    ghost Value = { DeltaState };

    ghost view = { λ r. record { lexer = r.parser; begun = r.begun; ended = r.ended; block = r.block; fault = r.fault } };

    ghost invariant = { λ r. IsSoundDelta
        (record { lexer = r.parser; begun = r.begun; ended = r.ended; block = r.block; fault = r.fault }) };
}

impl DeltaReader {
    ghost use Rattle.coll_requests.specs.DeltaReading.{first_delta, delta_line, delta_end, by_where};
    ghost use Rattle.coll_requests.specs.DeltaReading.{by_outside, by_physical, by_parsed, judged, faulty};

    /// A reader before the first line.
    pub fn new(alloc: Global) -> Result<DeltaReader, AllocError>
        ensures { IfOk result (λ reader. reader ≡ first_delta) }
    {
        let parser = LineParser::new(alloc)?;
        Ok(DeltaReader {
            parser,
            begun: false,
            ended: false,
            block: None,
            fault: None,
            alloc,
        })
    }

    /// Hands in the next physical line, without its line feed, and answers the statement that it completes, if it completes
    /// one.
    ///
    /// The first fault is stored, lack of memory as any other, and each later call answers it again. A line that completes a
    /// statement and is at fault itself, as a refused line that begins with `reorder-after` in an open block, answers the
    /// statement; its fault is then the answer to the next call. Behind the end of the category nothing is looked at. Memory
    /// is taken in the category alone. A fault has the number of the logical line that was handed in.
    #[tactic(auto, unfolding(crate::specs::DeltaReading::delta_line))]
    pub fn line(&mut self, line: &[u8]) -> Result<Option<StatementAt>, DeltaFault>
        ensures ok { IfOk result (λ given. delta_line self.old line.now ≡ Ok (option_to_list given, self.new)) }
        ensures err { IfErr result (λ fault. lacks_memory fault.cause ≡ false → delta_line self.old line.now ≡ Err fault) }
        ensures again { (first : DeltaFault) → self.old.fault ≡ Some first → result ≡ Err first }
        ensures behind { self.old.fault ≡ None → self.old.ended ≡ true → result ≡ Ok None }
        ensures behind_end { self.old.fault ≡ None → self.old.ended ≡ true → self.new ≡ self.old }
        ensures memory { IfErr result (λ fault. lacks_memory fault.cause ≡ true → self.old.fault ≡ None → MayTakeDelta self.old line.now) }
        ensures line { IfErr result (λ fault. self.old.fault ≡ None → fault.line ≡ number_of self.old.lexer) }
        ensures stays { IfErr result (λ fault. self.new.fault ≡ Some fault) }
        ensures ended { OnErr result (self.new.ended ≡ self.old.ended) }
        ensures proper { IfOk result (λ given. IfSome given (λ at. IsProper at.statement)) }
    {
        if let Some(fault) = self.fault {
            return Err(fault);
        }
        let answer = self.judge(line);
        if let Err(fault) = &answer {
            self.fault = Some(*fault);
        }
        answer
    }

    /// The number that a fault of the next line carries: that of the logical line that is left open, or else one more than
    /// the lines handed in.
    pub fn next_number(&self) -> u32
        ensures { result ≡ number_of self.now.lexer }
    {
        self.parser.next_number()
    }

    /// The fault that is stored, which the next call answers.
    pub fn fault(&self) -> Option<DeltaFault>
        ensures { result ≡ self.now.fault }
    {
        self.fault
    }

    /// Whether the category has ended.
    pub fn finished(&self) -> bool
        ensures { result ≡ self.now.ended }
    {
        self.ended
    }

    /// Ends the file: the fault that is stored, or that of a file that ends here, if its category hasn't ended. It takes no
    /// memory.
    pub fn finish(self) -> Result<(), DeltaFault>
        ensures ok { OnOk result (delta_end self ≡ None) }
        ensures err { IfErr result (λ fault. delta_end self ≡ Some fault) }
    {
        let answer = self.at_end();
        drop(self);
        answer
    }

    // What is answered where the file ends here.
    #[tactic(auto, unfolding(crate::specs::DeltaReading::delta_end))]
    fn at_end(&self) -> Result<(), DeltaFault>
        ensures ok { OnOk result (delta_end self.now ≡ None) }
        ensures err { IfErr result (λ fault. delta_end self.now ≡ Some fault) }
    {
        if let Some(fault) = self.fault {
            return Err(fault);
        }
        if self.ended {
            return Ok(());
        }
        Err(DeltaFault::from(self.parser.early_end(self.begun)))
    }

    // Judges a line by where it stands: behind the category, in it, or before it.
    fn judge(&mut self, line: &[u8]) -> Result<Option<StatementAt>, DeltaFault>
        ensures ok { IfOk result (λ given. by_where self.old line.now ≡ Ok (option_to_list given, self.new)) }
        ensures err { IfErr result (λ fault. lacks_memory fault.cause ≡ false → by_where self.old line.now ≡ Err fault) }
        ensures memory { IfErr result (λ fault. lacks_memory fault.cause ≡ true → MayTakeDelta self.old line.now) }
        ensures behind { self.old.ended ≡ true → result ≡ Ok None }
        ensures behind_end { self.old.ended ≡ true → self.new ≡ self.old }
        ensures line { IfErr result (λ fault. fault.line ≡ number_of self.old.lexer) }
        ensures ended { OnErr result (self.new.ended ≡ self.old.ended) }
        ensures proper { IfOk result (λ given. IfSome given (λ at. IsProper at.statement)) }
    {
        if self.ended {
            return Ok(None);
        }
        if self.begun {
            return self.take_physical(line);
        }
        self.skip_physical(line)
    }

    // Takes a line before the category, which may begin with it.
    fn skip_physical(&mut self, line: &[u8]) -> Result<Option<StatementAt>, DeltaFault>
        ensures ok { IfOk result (λ given. by_outside self.old (outside self.old.lexer line.now) ≡ Ok (option_to_list given, self.new)) }
        ensures err { IfErr result (λ fault. by_outside self.old (outside self.old.lexer line.now) ≡ Err fault) }
        ensures memory { IfErr result (λ fault. lacks_memory fault.cause ≡ false) }
        ensures line { IfErr result (λ fault. fault.line ≡ number_of self.old.lexer) }
        ensures ended { OnErr result (self.new.ended ≡ self.old.ended) }
        ensures proper { IfOk result (λ given. IfSome given (λ at. IsProper at.statement)) }
    {
        let line_number = self.parser.next_number();
        match self.parser.outside(line) {
            Ok(begins) => {
                self.begun = begins;
                Ok(None)
            }
            Err(fault) => Err(file_fault(FaultAt {
                line: line_number,
                fault: RequestFault::Lex(fault),
            })),
        }
    }

    // Takes a physical line of the category.
    fn take_physical(&mut self, line: &[u8]) -> Result<Option<StatementAt>, DeltaFault>
        requires { self.old.ended ≡ false }
        ensures ok { IfOk result (λ given. by_physical self.old line.now ≡ Ok (option_to_list given, self.new)) }
        ensures err { IfErr result (λ fault. lacks_memory fault.cause ≡ false → by_physical self.old line.now ≡ Err fault) }
        ensures memory { IfErr result (λ fault. lacks_memory fault.cause ≡ true → IsTrue (takes_memory self.old.lexer line.now)) }
        ensures line { IfErr result (λ fault. fault.line ≡ number_of self.old.lexer) }
        ensures ended { OnErr result (self.new.ended ≡ self.old.ended) }
        ensures proper { IfOk result (λ given. IfSome given (λ at. IsProper at.statement)) }
    {
        match self.parser.parse(self.alloc, false, line) {
            None => Ok(None),
            Some(parsing) => self.take_logical(parsing),
        }
    }

    // Takes a logical line of the category. Lack of memory is a fault at once.
    fn take_logical(&mut self, parsing: Parsing) -> Result<Option<StatementAt>, DeltaFault>
        requires proper { IsProperParsed parsing.line.parsed }
        requires going { self.old.ended ≡ false }
        ensures ok { IfOk result (λ given. by_parsed self.old (Some parsing.line) ≡ Ok (option_to_list given, self.new)) }
        ensures served { OnOk result (is_lack (kept_fault_under self.old.block parsing.line) ≡ false) }
        ensures err { IfErr result (λ fault. lacks_memory fault.cause ≡ false → by_parsed self.old (Some parsing.line) ≡ Err fault) }
        ensures refused { IfErr result (λ fault. lacks_memory fault.cause ≡ false → is_lack (kept_fault_under self.old.block parsing.line)
            ≡ false) }
        ensures memory { IfErr result (λ fault. lacks_memory fault.cause ≡ true → MayLackMemory self.old.block parsing.line) }
        ensures line { IfErr result (λ fault. fault.line ≡ parsing.line.number) }
        ensures ended { OnErr result (self.new.ended ≡ self.old.ended) }
        ensures proper { IfOk result (λ given. IfSome given (λ at. IsProper at.statement)) }
    {
        match self.fault_of(&parsing.line) {
            None => self.take_accepted(parsing),
            Some(at) => {
                if at.fault.is_lack_of_memory() {
                    drop(parsing);
                    return Err(file_fault(at));
                }
                let answer = self.take_fault(&parsing.line.parsed, at);
                drop(parsing);
                answer
            }
        }
    }

    // The fault of a line, by the block that is open before it.
    fn fault_of(&self, line: &ParsedLine) -> Option<FaultAt>
        ensures fault { result ≡ kept_fault_under self.now.block line.now }
        ensures line { IfSome result (λ at. at.line ≡ line.now.number) }
    {
        match &self.block {
            None => fault_outside(line.number, &line.parsed),
            Some(block) => fault_inside(block, line.number, &line.parsed),
        }
    }

    // Takes a line at fault: the statement of the block that it ends, if it ends one, comes before the fault, which the next
    // call answers.
    fn take_fault(
        &mut self,
        parsed: &Parsed,
        at: FaultAt,
    ) -> Result<Option<StatementAt>, DeltaFault>
        ensures ok { IfOk result (λ given. faulty self.old (fault_in_file at) (statements_in (kept_ended_before self.old.block parsed.now))
            ≡ Ok (option_to_list given, self.new)) }
        ensures err { IfErr result (λ fault.
            faulty self.old (fault_in_file at) (statements_in (kept_ended_before self.old.block parsed.now)) ≡ Err fault) }
        ensures own { IfErr result (λ fault. fault ≡ fault_in_file at) }
        ensures ended { OnErr result (self.new.ended ≡ self.old.ended) }
        ensures proper { IfOk result (λ given. IfSome given (λ at. IsProper at.statement)) }
    {
        let fault = file_fault(at);
        match statement_of(ended_before(self.block.take(), parsed)) {
            None => Err(fault),
            Some(given) => {
                self.fault = Some(fault);
                Ok(Some(given))
            }
        }
    }

    // Takes a line without a fault. Memory may be refused to an order line yet, for its room in the block.
    fn take_accepted(&mut self, parsing: Parsing) -> Result<Option<StatementAt>, DeltaFault>
        requires proper { IsProperParsed parsing.line.parsed }
        requires faultless { kept_fault_under self.old.block parsing.line ≡ None }
        ensures ok { IfOk result (λ given. judged self.old parsing.line None ≡ Ok (option_to_list given, self.new)) }
        ensures memory { IfErr result (λ fault. lacks_memory fault.cause ≡ true) }
        ensures order { OnErr result (is_order_line parsing.line.parsed ≡ true) }
        ensures line { IfErr result (λ fault. fault.line ≡ parsing.line.number) }
        ensures ended { OnErr result (self.new.ended ≡ self.old.ended) }
        ensures proper { IfOk result (λ given. IfSome given (λ at. IsProper at.statement)) }
    {
        let number = parsing.line.number;
        let order = is_order(&parsing.line.parsed);
        let ends = ends_category(&parsing.line.parsed);
        let request = take_line(self.alloc, &mut self.block, parsing);
        if leaves_lack(order, &self.block, &request) {
            drop((self.block.take(), request));
            return Err(file_fault(FaultAt {
                line: number,
                fault: RequestFault::Lex(LexFault::OutOfMemory),
            }));
        }
        self.ended = ends;
        Ok(statement_of(request))
    }
}

// A fault of a line or of a block, in a delta file.
fn file_fault(at: FaultAt) -> DeltaFault
    ensures { result ≡ fault_in_file at }
{
    DeltaFault {
        line: at.line,
        cause: DeltaCause::Request(at.fault),
    }
}

// The fault of a line where no block is open.
fn fault_outside(line: u32, parsed: &Parsed) -> Option<FaultAt>
    ensures fault { result ≡ fault_of_outside line parsed.now }
    ensures line { IfSome result (λ at. at.line ≡ line) }
{
    let fault = match parsed {
        Parsed::Stops(fault) => RequestFault::Lex(*fault),
        Parsed::Refused(_, fault) => *fault,
        Parsed::BlockEnd => RequestFault::NoBlock,
        _ => return None,
    };
    Some(FaultAt { line, fault })
}

// The fault of a line in an open block: one that no block takes, or any other that spoils the block.
fn fault_inside(block: &OpenBlock, line: u32, parsed: &Parsed) -> Option<FaultAt>
    ensures fault { result ≡ kept_fault_inside block.now line parsed.now }
    ensures line { IfSome result (λ at. at.line ≡ line) }
{
    let fault = match parsed {
        Parsed::Stops(fault) => RequestFault::Lex(*fault),
        Parsed::Refused(_, fault) => *fault,
        Parsed::OrderLine(_) => {
            if !block.is_full() {
                return None;
            }
            RequestFault::Syntax(SyntaxFault::BlockTooLong)
        }
        Parsed::Standalone(StandaloneLine::EndsCategory) => RequestFault::BlockNotEnded,
        Parsed::Standalone(_) => RequestFault::BlockOpen,
        _ => return None,
    };
    Some(FaultAt { line, fault })
}

// The request of the block that a line at fault ends, if it ends one.
fn ended_before(block: Option<OpenBlock>, parsed: &Parsed) -> Option<RequestAt>
    ensures request { option_to_list result ≡ kept_ended_before block parsed.now }
    ensures proper { IfSome result (λ request. IsProperRequest request.request) }
{
    match (parsed, block) {
        (Parsed::Refused(Opening::ReorderAfter, _), Some(block)) => Some(block.request()),
        _ => None,
    }
}

// The statement of a request, if it has one.
fn statement_of(request: Option<RequestAt>) -> Option<StatementAt>
    requires { IfSome request (λ completed. IsProperRequest completed.request) }
    ensures statement { option_to_list result ≡ statements_in (option_to_list request) }
    ensures proper { IfSome result (λ at. IsProper at.statement) }
{
    match request {
        Some(
            RequestAt {
                line,
                request: Request::Statement(statement),
            },
        ) => Some(StatementAt { line, statement }),
        _ => None,
    }
}

// Whether a line is an order line.
fn is_order(parsed: &Parsed) -> bool
    ensures { result ≡ is_order_line parsed.now }
{
    matches!(parsed, Parsed::OrderLine(_))
}

// Whether a line ends the category.
fn ends_category(parsed: &Parsed) -> bool
    ensures { result ≡ ends_the_category parsed.now }
{
    matches!(parsed, Parsed::Standalone(StandaloneLine::EndsCategory))
}

// Whether memory was refused to a line, an order line or not, that leaves this block and completes this request.
fn leaves_lack(order: bool, block: &Option<OpenBlock>, request: &Option<RequestAt>) -> bool
    ensures { result ≡ lack_is_left order block.now request.now }
{
    let in_block = match block {
        Some(block) => block.dropped().is_some(),
        None => false,
    };
    let in_request = match request {
        Some(request) => matches!(request.request, Request::Refused(_)),
        None => false,
    };
    order && (in_block || in_request)
}

/// The law of delta files: handing in the lines of a file one after another, and then its end, answers what the file says; and
/// without its end, what its lines up to there say.
///
/// It does nothing; its contract is the law.
pub fn delta_lines_are_read()
    ensures whole { DeltaLinesAreRead }
    ensures taken { DeltaLinesAreTaken }
{}
