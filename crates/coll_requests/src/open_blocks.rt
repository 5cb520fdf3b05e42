//! The block that a session, or a delta file, has open.
//!
//! A block opens at `reorder-after` and has its one answer where it ends. Until then it keeps its order lines, or, once a line has
//! spoiled it, that line's fault alone. Each line is taken by `take_line`, with the block that is open, if one is. A growth that is
//! refused makes the line that needed it a refused one. A new kind of line that a block doesn't take needs no change here: it is one
//! of `StandaloneLine`.

ghost use Rattle.std.specs.Prelude.{◌≡◌, [], Bool, Some, None, IsSome, IfSome, OnOk, OnErr, option_to_list};
ghost use Rattle.coll_syntax.specs.Proper.{IsId, IsProperLine, IsProper};
ghost use Rattle.coll_requests.specs.ProperLines.{IsProperParsed, IsProperRequest};
ghost use Rattle.coll_requests.specs.Parsing.{no_memory};
ghost use Rattle.coll_requests.specs.Taking.{TakesParsing};
ghost use Rattle.coll_requests.specs.Requests.{asked_at, fault_at, refused_at, order_by, standalone_requests, starved_at as line_starved};
ghost use Rattle.coll_requests.specs.OpenBlocks.{is_full as is_full_status, open_at, begun_at, spoiled_by as kept_of_fault};
ghost use Rattle.coll_requests.specs.OpenBlocks.{after_fault as kept_after_fault, after_order as kept_after_order, spoiled as kept_spoiled};
ghost use Rattle.coll_requests.specs.OpenBlocks.{joined as kept_joined, kept_request, kept_left_open, dropped_by_status, kept_by};
ghost use Rattle.coll_requests.specs.OpenBlocks.{kept_requests_by};

use crate::block_builder::BlockBuilder;
use crate::parsing::Parsing;
use crate::request_faults::RequestFault;
use crate::requests::{FaultAt, Request, RequestAt};
use crate::session_lines::{Opening, Parsed, ParsedLine, StandaloneLine};
use coll_lex::LexFault;
use coll_syntax::{Id, OrderLine, Statement, SyntaxFault};
use std::alloc::{AllocError, Global};

/// Whether a block is being built, is spoiled, or lacks memory, by its lines so far.
#[derive(Drop)]
pub enum BlockStatus {
    /// It is being built: nothing is wrong with it.
    Building(BlockBuilder),
    /// A line has spoiled it: the first such line.
    Spoiled(FaultAt),
    /// A line was refused for lack of memory, which comes before any other fault: the number of the first such line.
    Starved(u32),
}

impl BlockStatus {
    // What is kept after a line of the block was refused.
    fn after_fault(self, at: FaultAt) -> BlockStatus
        ensures { result ≡ kept_after_fault self at }
    {
        match self {
            BlockStatus::Building(_) => spoiled_by(at),
            BlockStatus::Spoiled(first) => starved_or(first, at),
            BlockStatus::Starved(first) => BlockStatus::Starved(first),
        }
    }

    // Takes a further order line, or a line too many. A growth that is refused leaves what is kept as it was.
    fn take_order(&mut self, number: u32, order: OrderLine) -> Result<(), AllocError>
        requires { IsProperLine order }
        ensures ok { OnOk result (self.new ≡ kept_after_order self.old number order) }
        ensures err { OnErr result (self.new ≡ self.old) }
    {
        match self {
            BlockStatus::Building(block) => {
                if block.is_full() {
                    *self = BlockStatus::Spoiled(too_long(number));
                    return Ok(());
                }
                block.push(order)
            }
            _ => Ok(()),
        }
    }
}

/// A block that is open.
pub struct OpenBlock {
    // The number of the line that opened it.
    line: u32,
    // What its lines amount to so far.
    status: BlockStatus,
}

// Written out, so that each place that drops one is one call, with no step for each part.
impl Drop for OpenBlock {
    fn drop(self) {
        let OpenBlock { line: _, status } = self;
        drop(status);
    }
}

impl OpenBlock {
    // The block that a line opens.
    fn begin(alloc: Global, line: u32, target: Id) -> OpenBlock
        requires { IsId target }
        ensures { result ≡ begun_at line target }
    {
        let status = BlockStatus::Building(BlockBuilder::begin(alloc, target));
        OpenBlock { line, status }
    }

    // A block whose first line was refused.
    fn begin_spoiled(at: FaultAt) -> OpenBlock
        ensures { result ≡ open_at at.line (kept_of_fault at) }
    {
        OpenBlock {
            line: at.line,
            status: spoiled_by(at),
        }
    }

    // The block after a line of it was refused.
    fn spoil(self, at: FaultAt) -> OpenBlock
        ensures { result ≡ kept_spoiled self at }
    {
        let OpenBlock { line, status } = self;
        let status = status.after_fault(at);
        OpenBlock { line, status }
    }

    // Takes a further order line, or is spoiled by a line too many. A growth that is refused leaves the block as it was.
    fn join(&mut self, number: u32, order: OrderLine) -> Result<(), AllocError>
        requires { IsProperLine order }
        ensures ok { OnOk result (self.new ≡ kept_joined self.old number order) }
        ensures err { OnErr result (self.new ≡ self.old) }
    {
        self.status.take_order(number, order)
    }

    /// Whether the block has all the lines that it may have, and no line has spoiled it.
    pub(crate) fn is_full(&self) -> bool
        ensures { result ≡ is_full_status self.now.status }
    {
        match &self.status {
            BlockStatus::Building(block) => block.is_full(),
            _ => false,
        }
    }

    /// The request of the block, at its end.
    pub(crate) fn request(self) -> RequestAt
        ensures request { result ≡ kept_request self }
        ensures proper { IsProperRequest result.request }
    {
        let OpenBlock { line, status } = self;
        match status {
            BlockStatus::Building(block) => asked(line, Request::Statement(block.statement())),
            BlockStatus::Spoiled(first) => refused(first.line, first.fault),
            BlockStatus::Starved(first) => refused(first, RequestFault::Lex(LexFault::OutOfMemory)),
        }
    }

    /// The fault of the block where the text ends.
    pub fn left_open(&self) -> FaultAt
        ensures { result ≡ kept_left_open self.now }
    {
        match &self.status {
            BlockStatus::Starved(first) => starved_at(*first),
            _ => FaultAt {
                line: self.line,
                fault: RequestFault::BlockNotEnded,
            },
        }
    }

    /// The fault of the block where it is dropped: none, unless memory was refused for a line of it.
    pub fn dropped(&self) -> Option<FaultAt>
        ensures { result ≡ dropped_by_status self.now.status }
    {
        match &self.status {
            BlockStatus::Starved(first) => Some(starved_at(*first)),
            _ => None,
        }
    }
}

// What is kept of the first fault of a block.
fn spoiled_by(at: FaultAt) -> BlockStatus
    ensures { result ≡ kept_of_fault at }
{
    if at.fault.is_lack_of_memory() {
        BlockStatus::Starved(at.line)
    } else {
        BlockStatus::Spoiled(at)
    }
}

// What is kept of the first fault of a block and a later one.
fn starved_or(first: FaultAt, at: FaultAt) -> BlockStatus
    ensures { result ≡ kept_after_fault (BlockStatus.Spoiled first) at }
{
    if at.fault.is_lack_of_memory() {
        BlockStatus::Starved(at.line)
    } else {
        BlockStatus::Spoiled(first)
    }
}

// The fault of a line for which memory was refused.
fn starved_at(line: u32) -> FaultAt
    ensures { result ≡ line_starved line }
{
    FaultAt {
        line,
        fault: RequestFault::Lex(LexFault::OutOfMemory),
    }
}

// The fault of an order line too many.
fn too_long(line: u32) -> FaultAt
    ensures { result ≡ fault_at line (RequestFault.Syntax SyntaxFault.BlockTooLong) }
{
    FaultAt {
        line,
        fault: RequestFault::Syntax(SyntaxFault::BlockTooLong),
    }
}

// A request of a line.
fn asked(line: u32, request: Request) -> RequestAt
    ensures { result ≡ asked_at line request }
{
    RequestAt { line, request }
}

// The request of what is refused.
fn refused(line: u32, fault: RequestFault) -> RequestAt
    ensures { result ≡ refused_at (fault_at line fault) }
{
    asked(line, Request::Refused(fault))
}

// What a line leaves: the block that is open after it, and the request that it completes.
type AfterLine = (Option<OpenBlock>, Option<RequestAt>);

/// Takes a line, with the block that is open, and answers the request that it completes. Memory is taken for the room of an order
/// line in a block; where it is refused, the line is a refused one. An order line joins the block where that stands.
pub(crate) fn take_line(
    alloc: Global,
    block: &mut Option<OpenBlock>,
    parsing: Parsing,
) -> Option<RequestAt>
    requires { IsProperParsed parsing.line.parsed }
    ensures taken { (starved : Bool) × TakesParsing starved block.old parsing block.new result }
    ensures proper { IfSome result (λ request. IsProperRequest request.request) }
{
    let Parsing { line, opening } = parsing;
    let ParsedLine { number, parsed } = line;
    match parsed {
        Parsed::OrderLine(order) => take_order(block, opening, number, order),
        parsed => take_other(alloc, block, number, parsed),
    }
}

// Takes an order line. Where memory for it is refused, it is a refused line.
fn take_order(
    block: &mut Option<OpenBlock>,
    opening: Opening,
    number: u32,
    order: OrderLine,
) -> Option<RequestAt>
    requires { IsProperLine order }
    ensures taken { (starved : Bool) × TakesParsing starved block.old
        (record { line = record { number = number; parsed = Parsed.OrderLine order }; opening = opening }) block.new result }
    ensures proper { IfSome result (λ request. IsProperRequest request.request) }
{
    let Some(open) = block else {
        return Some(stated(number, Statement::Reweight(order)));
    };
    match open.join(number, order) {
        Ok(()) => None,
        Err(_) => take_starved(block, opening, number),
    }
}

// Takes a line of a block to which memory was refused.
fn take_starved(block: &mut Option<OpenBlock>, opening: Opening, number: u32) -> Option<RequestAt>
    requires { IsSome block.old }
    ensures block { block.new ≡ kept_by block.old number (no_memory opening) }
    ensures request { option_to_list result ≡ kept_requests_by block.old number (no_memory opening) }
    ensures proper { IfSome result (λ request. IsProperRequest request.request) }
{
    let Some(open) = block.take() else {
        unreachable!();
    };
    let (next, request) = refused_inside(open, opening, starved_at(number));
    *block = next;
    request
}

// Takes a line that is no order line.
fn take_other(
    alloc: Global,
    block: &mut Option<OpenBlock>,
    number: u32,
    parsed: Parsed,
) -> Option<RequestAt>
    requires proper { IsProperParsed parsed }
    requires no_order { order_by parsed ≡ [] }
    ensures block { block.new ≡ kept_by block.old number parsed }
    ensures request { option_to_list result ≡ kept_requests_by block.old number parsed }
    ensures proper { IfSome result (λ request. IsProperRequest request.request) }
{
    match block.take() {
        None => {
            let (next, request) = outside(alloc, number, parsed);
            *block = next;
            request
        }
        Some(open) => {
            let (next, request) = inside(alloc, open, number, parsed);
            *block = next;
            request
        }
    }
}

// Takes a line where no block is open, which is no order line.
fn outside(alloc: Global, number: u32, parsed: Parsed) -> AfterLine
    requires proper { IsProperParsed parsed }
    requires no_order { order_by parsed ≡ [] }
    ensures block { result.0 ≡ kept_by None number parsed }
    ensures request { option_to_list result.1 ≡ kept_requests_by None number parsed }
    ensures proper { IfSome result.1 (λ request. IsProperRequest request.request) }
{
    match parsed {
        Parsed::Stops(_) => (None, None),
        Parsed::Refused(opening, fault) => refused_outside(
            opening,
            FaultAt {
                line: number,
                fault,
            },
        ),
        Parsed::Command(command) => (None, Some(asked(number, Request::Command(command)))),
        Parsed::BadCommand(fault) => (None, Some(refused(number, fault))),
        Parsed::BlockStart(target) => (Some(OpenBlock::begin(alloc, number, target)), None),
        Parsed::BlockEnd => (None, Some(refused(number, RequestFault::NoBlock))),
        Parsed::OrderLine(_) => unreachable!(),
        Parsed::Standalone(line) => (None, standalone_request(number, line)),
    }
}

// The request of a statement.
fn stated(line: u32, statement: Statement) -> RequestAt
    requires { IsProper statement }
    ensures request { result ≡ asked_at line (Request.Statement statement) }
    ensures proper { IsProperRequest result.request }
{
    asked(line, Request::Statement(statement))
}

// The request of a line that no block takes, if it has one.
fn standalone_request(number: u32, line: StandaloneLine) -> Option<RequestAt>
    requires { IsProperParsed (Parsed.Standalone line) }
    ensures request { option_to_list result ≡ standalone_requests number line }
    ensures proper { IfSome result (λ request. IsProperRequest request.request) }
{
    match line {
        StandaloneLine::Statement(statement) => Some(stated(number, statement)),
        StandaloneLine::NoEffect => None,
        StandaloneLine::EndsCategory => None,
    }
}

// Takes a refused line where no block is open.
fn refused_outside(opening: Opening, at: FaultAt) -> AfterLine
    ensures block { result.0 ≡ kept_by None at.line (Parsed.Refused opening at.fault) }
    ensures request { option_to_list result.1 ≡ kept_requests_by None at.line (Parsed.Refused opening at.fault) }
    ensures proper { IfSome result.1 (λ request. IsProperRequest request.request) }
{
    match opening {
        Opening::ReorderAfter => (Some(OpenBlock::begin_spoiled(at)), None),
        Opening::ReorderEnd => (None, Some(refused(at.line, at.fault))),
        Opening::Neither => (None, Some(refused(at.line, at.fault))),
    }
}

// Takes a line where a block is open, which is no order line.
fn inside(alloc: Global, block: OpenBlock, number: u32, parsed: Parsed) -> AfterLine
    requires proper { IsProperParsed parsed }
    requires no_order { order_by parsed ≡ [] }
    ensures block { result.0 ≡ kept_by (Some block) number parsed }
    ensures request { option_to_list result.1 ≡ kept_requests_by (Some block) number parsed }
    ensures proper { IfSome result.1 (λ request. IsProperRequest request.request) }
{
    match parsed {
        Parsed::Stops(_) => {
            drop(block);
            (None, None)
        }
        Parsed::Refused(opening, fault) => {
            let at = FaultAt {
                line: number,
                fault,
            };
            refused_inside(block, opening, at)
        }
        Parsed::Command(command) => {
            drop(command);
            (Some(block), Some(refused(number, RequestFault::BlockOpen)))
        }
        Parsed::BadCommand(_) => (Some(block), Some(refused(number, RequestFault::BlockOpen))),
        Parsed::BlockStart(target) => {
            let next = OpenBlock::begin(alloc, number, target);
            (Some(next), Some(block.request()))
        }
        Parsed::BlockEnd => (None, Some(block.request())),
        Parsed::OrderLine(_) => unreachable!(),
        Parsed::Standalone(line) => {
            drop(line);
            let at = FaultAt {
                line: number,
                fault: RequestFault::BlockOpen,
            };
            (Some(block.spoil(at)), None)
        }
    }
}

// Takes a refused line where a block is open.
fn refused_inside(block: OpenBlock, opening: Opening, at: FaultAt) -> AfterLine
    ensures block { result.0 ≡ kept_by (Some block) at.line (Parsed.Refused opening at.fault) }
    ensures request { option_to_list result.1 ≡ kept_requests_by (Some block) at.line (Parsed.Refused opening at.fault) }
    ensures proper { IfSome result.1 (λ request. IsProperRequest request.request) }
{
    match opening {
        Opening::ReorderAfter => { (Some(OpenBlock::begin_spoiled(at)), Some(block.request())) }
        Opening::ReorderEnd => (None, Some(block.spoil(at).request())),
        Opening::Neither => (Some(block.spoil(at)), None),
    }
}
