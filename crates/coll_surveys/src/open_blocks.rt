//! A block of a delta file that is surveyed: its lines are gathered, and judged where it ends.

ghost use Rattle.std.specs.Prelude.{◌≡◌, None, Some, IfSome, if◌then◌else◌, nat_le, length, option_map, OnOk};
ghost use Rattle.std.specs.List.{list_any};
ghost use Rattle.coll_requests.specs.Limits.{most_block_lines};
ghost use Rattle.coll_surveys.specs.DeltaSurveys.{block_state, ended_block, ended_state, first_block, is_of_no_line};
ghost use Rattle.coll_surveys.specs.DeltaSurveys.{is_of_weights, line_of as stated_line, mended, with_order, without_fault, without_faults};
ghost use Rattle.coll_surveys.specs.DeltaSurveys.{without_lines};

use coll_advice::Found;
use coll_lex::ListBuf;
use coll_syntax::{Id, MOST_BLOCK_LINES, OrderLine, Statement};
use coll_table::Refusal;
use std::alloc::{AllocError, Global};

/// A block that is open.
pub(crate) struct OpenBlock {
    // The number of its first line.
    begins: u32,
    // What its lines are placed behind; none where its first line was refused.
    target: Option<Id>,
    // Its order lines, and the number of each.
    lines: Vec<OrderLine>,
    numbers: Vec<u32>,
    /// Whether it had a line too many.
    pub overfull: bool,
    /// Whether it had a line that was refused.
    pub spoiled: bool,
}

// Written out, so that each place that drops a block is one call.
impl Drop for OpenBlock {
    fn drop(self) {
        let OpenBlock {
            begins: _,
            target,
            lines,
            numbers,
            overfull: _,
            spoiled: _,
        } = self;
        drop(target);
        drop(lines);
        drop(numbers);
    }
}

/// A block that has ended: its statement, and the numbers of its lines.
pub(crate) struct EndedBlock {
    /// The number of its first line.
    pub begins: u32,
    /// What it says.
    pub statement: Statement,
    /// The number of each of its order lines.
    pub numbers: Vec<u32>,
    /// Whether it had a line that was refused.
    pub spoiled: bool,
}

// Written out, as that of a block that is open.
impl Drop for EndedBlock {
    fn drop(self) {
        let EndedBlock {
            begins: _,
            statement,
            numbers,
            spoiled: _,
        } = self;
        drop(statement);
        drop(numbers);
    }
}

impl OpenBlock {
    /// A block that begins at a line, behind this target.
    pub fn new(alloc: Global, begins: u32, target: Option<Id>) -> OpenBlock
        ensures { block_state result ≡ first_block begins target }
    {
        OpenBlock {
            begins,
            target,
            lines: Vec::new(alloc),
            numbers: Vec::new(alloc),
            overfull: false,
            spoiled: false,
        }
    }

    /// Whether it has all the lines that it may have.
    pub fn is_full(&self) -> bool
        ensures { result ≡ nat_le most_block_lines (length self.now.lines.items) }
    {
        self.lines.len() >= MOST_BLOCK_LINES
    }

    /// Puts an order line behind the others.
    pub fn push(&mut self, number: u32, line: OrderLine) -> Result<(), AllocError>
        ensures { OnOk result (block_state self.new ≡ with_order (block_state self.old) number line) }
    {
        self.lines.push(line)?;
        self.numbers.push(number)?;
        Ok(())
    }

    /// What it says, where its first line wasn't refused.
    pub fn end(self) -> Option<EndedBlock>
        ensures ended { option_map ended_state result ≡ ended_block (block_state self) }
        ensures spoiled { IfSome result (λ ended. ended.spoiled ≡ self.spoiled) }
    {
        let OpenBlock {
            begins,
            target,
            lines,
            numbers,
            overfull: _,
            spoiled,
        } = self;
        match target {
            Some(target) => Some(EndedBlock {
                begins,
                statement: Statement::Block {
                    target,
                    lines: ListBuf::new(lines),
                },
                numbers,
                spoiled,
            }),
            None => {
                drop(lines);
                drop(numbers);
                None
            }
        }
    }
}

impl EndedBlock {
    /// Takes out what was found to be at fault, and answers whether something is left: of a block with a good target the lines without
    /// fault, and those of which the weights alone are at fault, without these.
    pub fn mend(&mut self, alloc: Global, found: &[Found]) -> bool
        ensures begins { self.new.begins ≡ self.old.begins }
        ensures numbers { self.new.numbers ≡ self.old.numbers }
        ensures left { (if result then Some self.new.statement else None) ≡ mended self.old.statement found.now }
    {
        if is_whole_at_fault(found) {
            return false;
        }
        mend_statement(alloc, &mut self.statement, found)
    }
}

/// The number of the line at which a fault of a statement stands that begins at a line.
pub(crate) fn line_of(begins: u32, numbers: &[u32], found: &Found) -> u32
    ensures { result ≡ stated_line begins numbers.now found.now.line }
{
    match found.line {
        Some(place) => match numbers.get(place) {
            Some(number) => *number,
            None => begins,
        },
        None => begins,
    }
}

// Whether something is wrong that is no line's.
fn is_whole_at_fault(found: &[Found]) -> bool
    ensures { result ≡ list_any is_of_no_line found.now }
{
    found.iter().any(is_of_no_line)
}

// Whether a fault is no line's.
fn is_of_no_line(found: &Found) -> bool
    ensures { result ≡ is_of_no_line found.now }
{
    found.line.is_none()
}

// Leaves of a block the lines without fault, as `mend_lines` does, and answers whether it is a block.
fn mend_statement(alloc: Global, statement: &mut Statement, found: &[Found]) -> bool
    ensures { (if result then Some statement.new else None) ≡ without_lines statement.old found.now }
{
    match statement {
        Statement::Block { target: _, lines } => {
            mend_lines(alloc, lines, found);
            true
        }
        _ => false,
    }
}

// Leaves the lines without fault, and those without their weights of which these are at fault. It begins with the last fault, so that
// the lines at fault before stay where they are.
fn mend_lines(alloc: Global, lines: &mut ListBuf<OrderLine>, found: &[Found])
    ensures { lines.new ≡ without_faults lines.old found.now }
{
    let given = std::mem::replace(lines, ListBuf::new(Vec::new(alloc)));
    let mut left = given.into_items();
    for fault in found.iter().rev() {
        mend_line(&mut left, fault);
    }
    drop(std::mem::replace(lines, ListBuf::new(left)));
}

// Takes a line at fault out of others, or its weights alone, where these are at fault.
fn mend_line(lines: &mut Vec<OrderLine>, fault: &Found)
    ensures { lines.new.items ≡ without_fault lines.old.items fault.now }
{
    let Some(place) = fault.line else {
        return;
    };
    if place >= lines.len() {
        return;
    }
    if are_weights_at_fault(&lines[place].id, fault) {
        drop(lines[place].weights.take());
    } else {
        drop(lines.remove(place));
    }
}

// Whether the weights alone are at fault of a line with this identifier.
fn are_weights_at_fault(id: &Id, fault: &Found) -> bool
    ensures { result ≡ is_of_weights fault.now.refusal fault.now.id id.now }
{
    match fault.refusal {
        Refusal::SymbolWithWeights | Refusal::TooManyWeights | Refusal::WeightNotPlaced => true,
        Refusal::NotDeclared => match &fault.id {
            Some(undeclared) => !undeclared.is_same(id),
            None => false,
        },
        _ => false,
    }
}
