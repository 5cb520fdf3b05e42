//! Step after step, into statements.
//!
//! A block is gathered line by line, cut where a statement can't go on, and made a statement where it ends. It is known at each step
//! what is placed by then, so each statement is one that the table accepts, in its turn: what it would refuse is left out, and told.
//! The table itself says what it places, so only what the statements place beside it is kept.
//! A rule on what may stand in a block is a case of `in_block`; one on weights belongs to `TailoredLookUp`.

use crate::later_weights::{LaterWeights, LineAt};
use crate::steps::{Step, StepAt};
use coll_lex::ListBuf;
use coll_lookups::HashKeys;
use coll_meanings::{SourceIds, TableMeanings, TailoredLookUp, without_weights_of_symbol};
use coll_source_lines::{Adjustment, Lost, Report, SourceFault, SourcePlace};
use coll_source_names::{SourceStatement, proper_line};
use coll_syntax::{Id, MOST_BLOCK_LINES, OrderLine, Statement, Weight};
use std::alloc::{AllocError, Global};

// A block that is open.
#[derive(Drop)]
struct Block {
    // Where it begins.
    place: SourcePlace,
    target: Id,
    lines: Vec<LineAt>,
    // Whether it is left out, since its target is placed nowhere.
    is_left_out: bool,
}

// What a block is made into a statement of.
#[derive(Drop)]
struct BlockParts {
    place: SourcePlace,
    target: Id,
    lines: Vec<LineAt>,
}

/// What is known of the table and of the tailoring as a whole.
#[derive(Drop)]
pub(crate) struct Known<'t> {
    /// What names mean.
    pub(crate) meanings: TableMeanings<'t>,
    /// What all blocks place.
    pub(crate) expected: SourceIds,
    /// How many weights an entry may have.
    pub(crate) levels: usize,
}

/// Statements that are being made of steps.
#[derive(Drop)]
pub(crate) struct Blocks<'t> {
    known: Known<'t>,
    // What is placed by the statements made so far.
    placed: SourceIds,
    block: Option<Block>,
    // The identifiers of the lines of the block that is open.
    in_block: SourceIds,
    later: LaterWeights,
    made: Vec<SourceStatement>,
    alloc: Global,
}

impl<'t> Blocks<'t> {
    /// No step has been taken. This is known, and these statements have been made.
    pub(crate) fn new(
        alloc: Global,
        keys: HashKeys,
        known: Known<'t>,
        made: Vec<SourceStatement>,
    ) -> Blocks<'t> {
        Blocks {
            known,
            placed: SourceIds::new(alloc, keys),
            block: None,
            in_block: SourceIds::new(alloc, keys),
            later: LaterWeights::new(alloc, keys),
            made,
            alloc,
        }
    }

    /// The statements that are made of these steps. In the end a block that is open is ended, and the weights that wait are given.
    pub(crate) fn made_of(
        mut self,
        steps: Vec<StepAt>,
        report: &mut Report,
    ) -> Result<Vec<SourceStatement>, SourceFault> {
        match self.take_all(steps, report) {
            Ok(()) => Ok(self.into_made()),
            Err(fault) => {
                drop(self);
                Err(fault)
            }
        }
    }

    // Takes all steps.
    fn take_all(&mut self, steps: Vec<StepAt>, report: &mut Report) -> Result<(), SourceFault> {
        for step in steps {
            self.take(step, report)?;
        }
        self.finish(report)
    }

    // Takes a step.
    fn take(&mut self, step: StepAt, report: &mut Report) -> Result<(), SourceFault> {
        let StepAt { place, step } = step;
        match step {
            Step::After(target) => self.after(place, target, report),
            Step::Order(line) => self.order(place, line, report),
            Step::End => self.close(report),
            Step::SectionAfter { moved, after } => {
                self.make(place, Statement::SectionAfter { moved, after })
            }
        }
    }

    // The statements that have been made.
    fn into_made(self) -> Vec<SourceStatement> {
        let Blocks {
            known,
            placed,
            block,
            in_block,
            later,
            made,
            alloc: _,
        } = self;
        drop(known);
        drop(placed);
        drop(block);
        drop(in_block);
        drop(later);
        made
    }

    // Ends a block that is open, and gives the weights that wait.
    fn finish(&mut self, report: &mut Report) -> Result<(), SourceFault> {
        self.count_open(report)?;
        self.close(report)?;
        for line in self.later.take_lines() {
            if let Some(line) = line {
                self.give(line, report)?;
            }
        }
        Ok(())
    }

    // Counts a block that is open where the source ends.
    fn count_open(&self, report: &mut Report) -> Result<(), AllocError> {
        match &self.block {
            Some(block) if !block.is_left_out => {
                report.count(Adjustment::BlockClosed, block.place)
            }
            _ => Ok(()),
        }
    }

    // Gives weights that waited, by what is placed in the end.
    fn give(&mut self, line: LineAt, report: &mut Report) -> Result<(), SourceFault> {
        let LineAt { place, line } = line;
        let line = self.look_up(&self.placed).line(place, line, report)?;
        self.make(place, Statement::Reweight(line))
    }

    // Takes an order line. One of a block that is left out is passed over.
    fn order(
        &mut self,
        place: SourcePlace,
        line: OrderLine,
        report: &mut Report,
    ) -> Result<(), SourceFault> {
        match &self.block {
            Some(block) if block.is_left_out => {
                drop(line);
                Ok(())
            }
            Some(_) => self.in_block(place, line, report),
            None => self.outside(place, line, report),
        }
    }

    // Puts a statement behind all others.
    fn make(&mut self, place: SourcePlace, statement: Statement) -> Result<(), SourceFault> {
        Ok(self.made.push(SourceStatement { place, statement })?)
    }

    // Weights are looked up in this, and in what the table places.
    fn look_up<'a>(&'a self, placed: &'a SourceIds) -> TailoredLookUp<'a, 't> {
        TailoredLookUp {
            meanings: &self.known.meanings,
            placed,
            levels: self.known.levels,
            alloc: self.alloc,
        }
    }

    // Whether an identifier is placed by the table, or by the statements made so far.
    fn is_placed(&self, id: &Id) -> bool {
        self.look_up(&self.placed).is_placed(id)
    }

    // A block begins, and one that is open ends.
    fn after(
        &mut self,
        place: SourcePlace,
        target: Id,
        report: &mut Report,
    ) -> Result<(), SourceFault> {
        match self.close_before(place, &target, report) {
            Ok(is_left_out) => {
                self.open(place, target, is_left_out);
                Ok(())
            }
            Err(fault) => {
                drop(target);
                Err(fault)
            }
        }
    }

    // Ends a block that is open, and answers whether the next one is left out, since its target is placed nowhere.
    fn close_before(
        &mut self,
        place: SourcePlace,
        target: &Id,
        report: &mut Report,
    ) -> Result<bool, SourceFault> {
        self.close(report)?;
        if self.is_placed(target) {
            return Ok(false);
        }
        report.lose(Adjustment::TargetUnplaced, place, Lost::Id(target.clone()?))?;
        Ok(true)
    }

    // Opens a block.
    fn open(&mut self, place: SourcePlace, target: Id, is_left_out: bool) {
        let block = Block {
            place,
            target,
            lines: Vec::new(self.alloc),
            is_left_out,
        };
        drop(self.block.replace(block));
    }

    // Ends the block that is open, if one is, and makes a statement of it, if it has a line.
    fn close(&mut self, report: &mut Report) -> Result<(), SourceFault> {
        match self.block.take() {
            Some(block) => self.put_block(block, report),
            None => Ok(()),
        }
    }

    // Makes a statement of a block, if it has a line.
    fn put_block(&mut self, block: Block, report: &mut Report) -> Result<(), SourceFault> {
        if block.lines.is_empty() {
            drop(block);
            return Ok(());
        }
        let BlockParts {
            place,
            target,
            lines,
        } = block.into_parts();
        match self.given_lines(lines, report) {
            Ok(lines) => self.make(place, Statement::Block { target, lines }),
            Err(fault) => {
                drop(target);
                Err(fault)
            }
        }
    }

    // The lines of a block, which are placed from now on, with the weights that can be given now.
    fn given_lines(
        &mut self,
        lines: Vec<LineAt>,
        report: &mut Report,
    ) -> Result<ListBuf<OrderLine>, SourceFault> {
        match self.place_all(lines.as_slice()) {
            Ok(()) => self.all_for_now(lines, report),
            Err(error) => {
                drop(lines);
                Err(SourceFault::from(error))
            }
        }
    }

    // Notes what these lines place, which stand in no block that is open any more.
    fn place_all(&mut self, lines: &[LineAt]) -> Result<(), AllocError> {
        for line in lines {
            self.placed.put(&line.line.id)?;
            self.in_block.take_out(&line.line.id);
        }
        Ok(())
    }

    // The lines of a block, with the weights that can be given now.
    fn all_for_now(
        &mut self,
        lines: Vec<LineAt>,
        report: &mut Report,
    ) -> Result<ListBuf<OrderLine>, SourceFault> {
        let mut given = Vec::with_capacity(self.alloc, lines.len())?;
        for LineAt { place, line } in lines {
            given.push(self.for_now(place, line, report)?)?;
        }
        Ok(ListBuf::new(given))
    }

    // An order line, with the weights that can be given now: where some name what isn't placed yet, all follow at the end.
    fn for_now(
        &mut self,
        place: SourcePlace,
        line: OrderLine,
        report: &mut Report,
    ) -> Result<OrderLine, SourceFault> {
        match self.keep_later(place, &line, report) {
            Ok(true) => self.said_for_now(place, line),
            Ok(false) => Ok(line),
            Err(fault) => {
                drop(line);
                Err(fault)
            }
        }
    }

    // An order line without what isn't placed yet. That is told at the end, where it is left out then.
    fn said_for_now(&self, place: SourcePlace, line: OrderLine) -> Result<OrderLine, SourceFault> {
        let mut untold = Report::new(self.alloc);
        let said = self.look_up(&self.placed).line(place, line, &mut untold);
        drop(untold);
        said
    }

    // Keeps the weights of a line for the end, where some name what isn't placed yet, and answers whether that is so. Others take back
    // what was kept of a line of the same identifier.
    fn keep_later(
        &mut self,
        place: SourcePlace,
        line: &OrderLine,
        report: &mut Report,
    ) -> Result<bool, SourceFault> {
        let Some(weights) = &line.weights else {
            return Ok(false);
        };
        if self.look_up(&self.placed).all_stay(weights.get()) {
            self.later.take_back(&line.id)?;
            return Ok(false);
        }
        report.count(Adjustment::WeightsLater, place)?;
        self.later.keep(place, copied(&line.id, weights)?)?;
        Ok(true)
    }

    // An order line of the block that is open.
    fn in_block(
        &mut self,
        place: SourcePlace,
        line: OrderLine,
        report: &mut Report,
    ) -> Result<(), SourceFault> {
        match self.mended(place, line, report) {
            Ok(Some(line)) => self.put_line(place, line, report),
            Ok(None) => Ok(()),
            Err(fault) => Err(fault),
        }
    }

    // An order line of the block that is open, as a statement may have it.
    fn put_line(
        &mut self,
        place: SourcePlace,
        line: OrderLine,
        report: &mut Report,
    ) -> Result<(), SourceFault> {
        match self.cut_before(place, &line.id, report) {
            Ok(()) => self.put_behind(place, line, report),
            Err(fault) => {
                drop(line);
                Err(fault)
            }
        }
    }

    // Cuts the block that is open, if it can't go on with a line of this identifier.
    fn cut_before(
        &mut self,
        place: SourcePlace,
        id: &Id,
        report: &mut Report,
    ) -> Result<(), SourceFault> {
        match &self.block {
            Some(block) if block.must_end_before(id, &self.in_block) => {
                report.count(Adjustment::BlockCut, place)?;
                self.cut(place, report)
            }
            _ => Ok(()),
        }
    }

    // Ends the block that is open, and goes on behind its last line.
    fn cut(&mut self, place: SourcePlace, report: &mut Report) -> Result<(), SourceFault> {
        match self.last_id()? {
            Some(last) => self.after(place, last, report),
            None => Ok(()),
        }
    }

    // Puts an order line behind the others of the block, unless it is the target.
    fn put_behind(
        &mut self,
        place: SourcePlace,
        line: OrderLine,
        report: &mut Report,
    ) -> Result<(), SourceFault> {
        match &self.block {
            Some(block) if block.target.is_same(&line.id) => self.own_target(place, line, report),
            _ => {
                let line = self.with_own_weights(place, line, report)?;
                self.put_last(place, line)
            }
        }
    }

    // Puts an order line behind the others of the block.
    fn put_last(&mut self, place: SourcePlace, line: OrderLine) -> Result<(), SourceFault> {
        match &mut self.block {
            Some(block) => Ok(block.put(place, line, &mut self.in_block)?),
            None => {
                drop(line);
                Ok(())
            }
        }
    }

    // The identifier of the last line of the block that is open.
    fn last_id(&self) -> Result<Option<Id>, AllocError> {
        let Some(block) = &self.block else {
            return Ok(None);
        };
        match block.lines.last() {
            Some(last) => Ok(Some(last.line.id.clone()?)),
            None => Ok(None),
        }
    }

    // The target of a block as its first line: it stays, and gets its weights, if there are any.
    fn own_target(
        &mut self,
        place: SourcePlace,
        line: OrderLine,
        report: &mut Report,
    ) -> Result<(), SourceFault> {
        match report.count(Adjustment::OwnTarget, place) {
            Ok(()) if line.weights.is_some() => self.reweight(place, line, report),
            counted => {
                drop(line);
                Ok(counted?)
            }
        }
    }

    // An order line outside a block: what is placed gets its weights.
    fn outside(
        &mut self,
        place: SourcePlace,
        line: OrderLine,
        report: &mut Report,
    ) -> Result<(), SourceFault> {
        if !self.is_reweight(&line) {
            let OrderLine { id, weights } = line;
            drop(weights);
            return report.lose(Adjustment::Dropped, place, Lost::Id(id));
        }
        match self.mended(place, line, report) {
            Ok(Some(line)) => self.reweight(place, line, report),
            Ok(None) => Ok(()),
            Err(fault) => Err(fault),
        }
    }

    // Whether an order line gives weights to what is placed.
    fn is_reweight(&self, line: &OrderLine) -> bool {
        line.weights.is_some()
            && self.is_placed(&line.id)
            && !self.known.meanings.is_symbol(&line.id)
    }

    // Gives what is placed its weights, where it stands.
    fn reweight(
        &mut self,
        place: SourcePlace,
        line: OrderLine,
        report: &mut Report,
    ) -> Result<(), SourceFault> {
        let line = self.for_now(place, line, report)?;
        self.make(place, Statement::Reweight(line))
    }

    // An order line as a statement may have it, if it is within the limits: weights are what they mean, and name what is placed in the
    // end.
    fn mended(
        &self,
        place: SourcePlace,
        line: OrderLine,
        report: &mut Report,
    ) -> Result<Option<OrderLine>, SourceFault> {
        let line = without_weights_of_symbol(&self.known.meanings, place, line, report)?;
        let line = self
            .look_up(&self.known.expected)
            .line(place, line, report)?;
        let line = self.with_own_spelled(line)?;
        proper_line(place, line, report)
    }

    // An order line without a weight that is its own and alone: that can't be written, so the identifier stands in its place.
    fn with_own_spelled(&self, line: OrderLine) -> Result<OrderLine, AllocError> {
        let is_own = match &line.weights {
            Some(weights) => matches!(weights.get(), [Weight::Own]),
            None => false,
        };
        if is_own {
            self.weighing_itself(line)
        } else {
            Ok(line)
        }
    }

    // An order line in a block: a character or an element without weights weighs itself.
    fn with_own_weights(
        &self,
        place: SourcePlace,
        line: OrderLine,
        report: &mut Report,
    ) -> Result<OrderLine, SourceFault> {
        let keeps = line.weights.is_some()
            || matches!(line.id, Id::Undefined)
            || self.known.meanings.is_symbol(&line.id);
        if keeps {
            return Ok(line);
        }
        match report.count(Adjustment::OwnWeights, place) {
            Ok(()) => Ok(self.weighing_itself(line)?),
            Err(error) => {
                drop(line);
                Err(SourceFault::from(error))
            }
        }
    }

    // An order line that gives its identifier as the only weight.
    fn weighing_itself(&self, line: OrderLine) -> Result<OrderLine, AllocError> {
        let OrderLine { id, weights } = line;
        drop(weights);
        match only_weight(self.alloc, &id) {
            Ok(weights) => Ok(OrderLine {
                id,
                weights: Some(weights),
            }),
            Err(error) => {
                drop(id);
                Err(error)
            }
        }
    }
}

impl Block {
    // What a statement is made of.
    fn into_parts(self) -> BlockParts {
        let Block {
            place,
            target,
            lines,
            is_left_out: _,
        } = self;
        BlockParts {
            place,
            target,
            lines,
        }
    }

    // Puts a line behind all others, and its identifier among theirs.
    fn put(
        &mut self,
        place: SourcePlace,
        line: OrderLine,
        ids: &mut SourceIds,
    ) -> Result<(), AllocError> {
        match ids.put(&line.id) {
            Ok(()) => Ok(self.lines.push(LineAt { place, line })?),
            Err(error) => {
                drop(line);
                Err(error)
            }
        }
    }

    // Whether it can't go on with a line of this identifier. These are the identifiers of its lines.
    fn must_end_before(&self, id: &Id, ids: &SourceIds) -> bool {
        if self.lines.is_empty() {
            return false;
        }
        self.lines.len() >= MOST_BLOCK_LINES || self.target.is_same(id) || ids.contains(id)
    }
}

// An order line of this identifier and with these weights, in new memory.
fn copied(id: &Id, weights: &ListBuf<Weight>) -> Result<OrderLine, AllocError> {
    Ok(OrderLine {
        id: id.clone()?,
        weights: Some(weights.clone()?),
    })
}

// Weights of which this identifier is the only one.
fn only_weight(alloc: Global, id: &Id) -> Result<ListBuf<Weight>, AllocError> {
    let mut weights = Vec::with_capacity(alloc, 1)?;
    weights.push(Weight::Names(only_id(alloc, id)?))?;
    Ok(ListBuf::new(weights))
}

// A list of this identifier alone.
fn only_id(alloc: Global, id: &Id) -> Result<ListBuf<Id>, AllocError> {
    let mut ids = Vec::with_capacity(alloc, 1)?;
    ids.push(id.clone()?)?;
    Ok(ListBuf::new(ids))
}
