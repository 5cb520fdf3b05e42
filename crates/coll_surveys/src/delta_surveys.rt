//! A delta file is surveyed: each of its statements is judged over the table that those before it give, and what is at fault is told.
//!
//! The lines of a block are gathered, and judged where it ends, each with its own number. A statement without fault is put to the table,
//! and a block with faults without the lines at fault, so that what comes behind is judged by as much as possible. A line of the wrong
//! kind in a block is told, and taken as outside of one. What each line leaves is stated (`left_by` of `specs/DeltaSurveys.antt`), so what
//! is told of a text is stated as a whole.
//!
//! Of a statement without fault it warns where it changes nothing, and of lines whose entries don't sort where they
//! stand; of lines without effect; and of what is declared and never placed. Where the line is refused that was to open a block, it is
//! said of the faults of the lines behind it that they follow from that; and so it is where a weight names a
//! symbol that a refused line or block was to place.

ghost use Rattle.std.specs.Prelude.{◌≡◌, ◌∷◌, [], map, Some, IfOk, IfSome, OnOk, option_map};
ghost use Rattle.coll_nodes.specs.TableLayout.{collation};
ghost use Rattle.coll_requests.specs.DeltaFaults.{early_fault};
ghost use Rattle.coll_faults.specs.declared.faults.Fault.TheVariants as refused;
ghost use Rattle.coll_findings.specs.ToldFaults.{AreAmong, AreOnce, Tells, at_line, told_fault};
ghost use Rattle.coll_surveys.specs.DeltaSurveys.{TellsDeltaLine, alone_faults, block_faults, block_left, block_state, category_faults, closed};
ghost use Rattle.coll_surveys.specs.DeltaSurveys.{delta_faults, delta_left, delta_state, early_faults, end_faults};
ghost use Rattle.coll_surveys.specs.DeltaSurveys.{ended_faults, ended_left};
ghost use Rattle.coll_surveys.specs.DeltaSurveys.{ended_state, ends_delta, faults_told, found_fault, is_delta_end};
ghost use Rattle.coll_surveys.specs.DeltaSurveys.{left_alone, left_by_bare, left_by_line, left_by_order, left_passed};
ghost use Rattle.coll_surveys.specs.DeltaSurveys.{line_faults, mended};
ghost use Rattle.coll_surveys.specs.DeltaSurveys.{open_faults, opened, order_faults, passed_faults, refused_faults, statement_faults};
ghost use Rattle.coll_surveys.specs.DeltaSurveys.{table_behind, table_behind_block, table_behind_left, table_left, text_faults, text_left};

use crate::open_blocks::{EndedBlock, OpenBlock, line_of};
use coll_advice::{Found, faults_of};
use coll_faults::Fault;
use coll_findings::{
    About, Collected, Declarations, DeclaredName, FOLLOWS_OPENING, Opening, Surveyed, TakesLines,
    Warning, about_found, advice_on_operands, changed_nothing, is_misplaced, lacks_weights,
    refused_subject, survey_lines,
};
use coll_lex::{EarlyEnd, LexFault, Line, Piece, TextBuf, Token};
use coll_lookups::HashKeys;
use coll_requests::DeltaFault;
use coll_syntax::{DeltaLine, Id, OrderLine, Statement, SyntaxFault, is_word, parse_delta_line};
use coll_table::{Refusal, Table};
use std::alloc::{AllocError, Global};

// A delta file that is surveyed.
struct DeltaSurvey {
    alloc: Global,
    table: Table,
    told: Collected,
    declarations: Declarations,
    // The block that is open.
    block: Option<OpenBlock>,
    // Whether a line was refused that was to open a block, and none was opened or ended since, nor was to be ended.
    unopened: bool,
}

// The name by which published tailorings copy the table of ISO/IEC 14651.
const COMMON_TABLE: &str = "iso14651_t1";

// What is said where a weight names what stood on an order line and has no entry, so that the line or its block was refused.
const FOLLOWS_PLACING: &str =
    "it follows from the line or the block that was to place it and is refused: mend that one first";

/// Surveys a delta file, which is input 1, over a table.
///
/// Each fault that is told is one that a line gives, as it is judged over the table and with the block that the lines before it left, or
/// that the text ends early. They come in the order in which the lines give them; those of a block come where it ends. The table is the
/// one that all lines leave: with each statement without fault, and of a block with faults the lines without.
pub fn survey_delta(
    alloc: Global,
    keys: HashKeys,
    table: Table,
    text: &[u8],
) -> Result<Surveyed, AllocError>
    ensures once { IfOk result (λ surveyed. AreOnce surveyed.told.faults.items) }
    ensures told { IfOk result (λ surveyed. AreAmong (map told_fault surveyed.told.faults.items)
        (delta_faults (collation table) text.now)) }
    ensures table { IfOk result (λ surveyed. IfSome surveyed.table (λ left. collation left ≡ delta_left (collation table) text.now)) }
{
    let mut survey = DeltaSurvey {
        alloc,
        table,
        told: Collected::new(alloc, keys, 1),
        declarations: Declarations::new(alloc, keys),
        block: None,
        unopened: false,
    };
    let taken = survey.take_all(text);
    survey.end().if_done(taken)
}

impl DeltaSurvey {
    // Takes all lines of a text, tells how it ends where its category doesn't, and warns of what is never placed.
    fn take_all(&mut self, text: &[u8]) -> Result<(), AllocError>
        ensures told { OnOk result (Tells (faults_told self.old) (faults_told self.new) (text_faults (delta_state self.old) text.now)) }
        ensures left { OnOk result (delta_state self.new ≡ text_left (delta_state self.old) text.now) }
    {
        self.take_lines(text)?;
        self.declarations
            .warn_of_unplaced(&self.table, &mut self.told)
    }

    // Takes all lines of a text, and tells how it ends where its category doesn't. A block that is open at an end like that is judged
    // before.
    fn take_lines(&mut self, text: &[u8]) -> Result<(), AllocError>
        ensures told { OnOk result (Tells (faults_told self.old) (faults_told self.new) (text_faults (delta_state self.old) text.now)) }
        ensures left { OnOk result (delta_state self.new ≡ text_left (delta_state self.old) text.now) }
    {
        let alloc = self.alloc;
        match survey_lines(alloc, text, self)? {
            Some(end) => self.tell_end(end),
            None => Ok(()),
        }
    }

    // Judges the block that is open, if one is, and tells how a text ends of which the category doesn't.
    fn tell_end(&mut self, end: EarlyEnd) -> Result<(), AllocError>
        ensures told { OnOk result (Tells (faults_told self.old) (faults_told self.new)
            (early_faults (table_left self.old) (block_left self.old) (early_fault end))) }
        ensures left { OnOk result (delta_state self.new ≡ closed (delta_state self.old)) }
    {
        self.end_block()?;
        let fault = DeltaFault::from(end);
        tell(
            fault.line,
            Fault::from(fault),
            About::Nothing,
            &mut self.told,
        )
    }

    // What a survey gives.
    fn end(self) -> Surveyed
        ensures once { AreOnce result.told.faults.items }
        ensures told { result.told.faults.items ≡ faults_told self }
        ensures table { result.table ≡ Some self.table }
    {
        let DeltaSurvey {
            alloc: _,
            table,
            told,
            declarations,
            block,
            unopened: _,
        } = self;
        drop(declarations);
        drop(block);
        Surveyed {
            told: told.into_told(),
            table: Some(table),
        }
    }

    // Takes a line at fault by what it begins with: it may end a block, and open one of which the target isn't known. Else a block that
    // is open has a line that was refused.
    fn pass_over(&mut self, number: u32, opening: Opening) -> Result<(), AllocError>
        ensures told { OnOk result (Tells (faults_told self.old) (faults_told self.new)
            (passed_faults (table_left self.old) (block_left self.old) opening)) }
        ensures left { OnOk result (delta_state self.new ≡ left_passed (delta_state self.old) number opening) }
    {
        match opening {
            Opening::Block => self.open_block(number, None),
            Opening::BlockEnd => {
                self.unopened = false;
                self.end_block()
            }
            Opening::Other => match &mut self.block {
                Some(block) => {
                    block.spoiled = true;
                    Ok(())
                }
                None => Ok(()),
            },
        }
    }

    // Tells a line that the grammar refuses, and passes it over.
    fn refuse_line(
        &mut self,
        line: &Line,
        fault: SyntaxFault,
        opening: Opening,
    ) -> Result<(), AllocError>
        ensures told { OnOk result (Tells (faults_told self.old) (faults_told self.new) (at_line line.now.number (refused.Syntax fault)
            ∷ passed_faults (table_left self.old) (block_left self.old) opening)) }
        ensures left { OnOk result (delta_state self.new ≡ left_passed (delta_state self.old) line.now.number opening) }
    {
        let about = refused_subject(self.alloc, line, fault)?;
        self.unopened = is_unopened_behind(self.unopened, &about);
        tell_refused(line, fault, about, &mut self.told)?;
        self.pass_over(line.number, opening)
    }

    // Takes a line that the grammar accepts.
    fn take_read(&mut self, number: u32, line: DeltaLine) -> Result<(), AllocError>
        ensures told { OnOk result (Tells (faults_told self.old) (faults_told self.new)
            (line_faults (table_left self.old) (block_left self.old) number line)) }
        ensures left { OnOk result (delta_state self.new ≡ left_by_line (delta_state self.old) number line) }
    {
        match line {
            DeltaLine::Symbol(name) => self.take_alone(number, Statement::Symbol(name)),
            DeltaLine::Element { name, text } => {
                self.take_alone(number, Statement::Element { name, text })
            }
            DeltaLine::Equivalence { name, symbol } => {
                self.take_alone(number, Statement::Equivalence { name, symbol })
            }
            DeltaLine::SectionAfter { moved, after } => {
                self.take_alone(number, Statement::SectionAfter { moved, after })
            }
            DeltaLine::ReorderAfter(target) => self.open_block(number, Some(target)),
            DeltaLine::Order(order) => self.take_order(number, order),
            bare => {
                let taken = self.take_bare(number, &bare);
                drop(bare);
                taken
            }
        }
    }

    // Takes a line that is a keyword alone, or of which the rest has no effect.
    fn take_bare(&mut self, number: u32, line: &DeltaLine) -> Result<(), AllocError>
        ensures told { OnOk result (Tells (faults_told self.old) (faults_told self.new)
            (line_faults (table_left self.old) (block_left self.old) number line.now)) }
        ensures left { OnOk result (delta_state self.new ≡ left_by_bare (delta_state self.old) line.now) }
    {
        match line {
            DeltaLine::Script => self.take_idle(number, Some(Warning::ScriptWithoutEffect)),
            DeltaLine::Copy | DeltaLine::Category => self.take_idle(number, None),
            DeltaLine::EndCategory => self.end_category(number),
            DeltaLine::ReorderEnd => self.take_end(number),
            _ => Ok(()),
        }
    }

    // Takes a line that has no effect, and warns of it.
    fn take_idle(&mut self, number: u32, warning: Option<Warning>) -> Result<(), AllocError>
        ensures told { OnOk result (Tells (faults_told self.old) (faults_told self.new) (open_faults (block_left self.old) number)) }
        ensures left { delta_state self.new ≡ delta_state self.old }
    {
        tell_open(number, &self.block, &mut self.told)?;
        match warning {
            Some(warning) => self.told.warn(warning, number, None),
            None => Ok(()),
        }
    }

    // Takes `END LC_COLLATE`.
    fn end_category(&mut self, number: u32) -> Result<(), AllocError>
        ensures told { OnOk result (Tells (faults_told self.old) (faults_told self.new)
            (category_faults (table_left self.old) (block_left self.old) number)) }
        ensures left { OnOk result (delta_state self.new ≡ closed (delta_state self.old)) }
    {
        match self.block {
            Some(_) => {
                self.end_block()?;
                tell(number, Fault::BlockNotEnded, About::Nothing, &mut self.told)
            }
            None => Ok(()),
        }
    }

    // Takes `reorder-end`.
    fn take_end(&mut self, number: u32) -> Result<(), AllocError>
        ensures told { OnOk result (Tells (faults_told self.old) (faults_told self.new)
            (end_faults (table_left self.old) (block_left self.old) number)) }
        ensures left { OnOk result (delta_state self.new ≡ closed (delta_state self.old)) }
    {
        let said = said_behind(self.unopened);
        self.unopened = false;
        match self.block {
            Some(_) => self.end_block(),
            None => {
                self.told
                    .tell_saying(number, number, Fault::NoBlock, About::Nothing, said)
            }
        }
    }

    // Opens a block behind a target, or of which the target isn't known. It ends the one that is open.
    fn open_block(&mut self, number: u32, target: Option<Id>) -> Result<(), AllocError>
        ensures told { OnOk result (Tells (faults_told self.old) (faults_told self.new)
            (block_faults (table_left self.old) (block_left self.old))) }
        ensures left { OnOk result (delta_state self.new ≡ opened (delta_state self.old) number target) }
    {
        self.end_block()?;
        self.unopened = false;
        drop(
            self.block
                .replace(OpenBlock::new(self.alloc, number, target)),
        );
        Ok(())
    }

    // Takes a statement that is a line of its own.
    fn take_alone(&mut self, number: u32, statement: Statement) -> Result<(), AllocError>
        ensures told { OnOk result (Tells (faults_told self.old) (faults_told self.new)
            (alone_faults (table_left self.old) (block_left self.old) number statement)) }
        ensures left { OnOk result (delta_state self.new ≡ left_alone (delta_state self.old) statement) }
    {
        let taken = self.judge_alone(number, &statement);
        drop(statement);
        taken
    }

    // Judges a statement that is a line of its own, and notes what it declares where the table takes it.
    fn judge_alone(&mut self, number: u32, statement: &Statement) -> Result<(), AllocError>
        ensures told { OnOk result (Tells (faults_told self.old) (faults_told self.new)
            (alone_faults (table_left self.old) (block_left self.old) number statement.now)) }
        ensures left { OnOk result (delta_state self.new ≡ left_alone (delta_state self.old) statement.now) }
    {
        tell_open(number, &self.block, &mut self.told)?;
        if self.judge(number, statement)? {
            return note(number, statement, &mut self.declarations);
        }
        Ok(())
    }

    // Puts an order line into the block that is open, and tells the first one that is too many; where none is, it is judged.
    fn take_order(&mut self, number: u32, order: OrderLine) -> Result<(), AllocError>
        ensures told { OnOk result (Tells (faults_told self.old) (faults_told self.new)
            (order_faults (table_left self.old) (block_left self.old) number order)) }
        ensures left { OnOk result (delta_state self.new ≡ left_by_order (table_left self.old) (block_left self.old) number order) }
    {
        if let Err(error) = mention(self.alloc, &self.table, &order.id, &mut self.declarations) {
            drop(order);
            return Err(error);
        }
        match &mut self.block {
            Some(block) if !block.is_full() => block.push(number, order),
            Some(block) => {
                drop(order);
                if block.overfull {
                    return Ok(());
                }
                block.overfull = true;
                let fault = Fault::Syntax(SyntaxFault::BlockTooLong);
                tell(number, fault, About::Nothing, &mut self.told)
            }
            None => self.take_alone(number, Statement::Reweight(order)),
        }
    }

    // Ends the block that is open, if one is, and judges it.
    fn end_block(&mut self) -> Result<(), AllocError>
        ensures told { OnOk result (Tells (faults_told self.old) (faults_told self.new)
            (block_faults (table_left self.old) (block_left self.old))) }
        ensures left { OnOk result (delta_state self.new ≡ closed (delta_state self.old)) }
    {
        match self.block.take() {
            Some(block) => self.judge_ended(block.end()),
            None => Ok(()),
        }
    }

    // Judges a block that has ended, where its first line wasn't refused.
    fn judge_ended(&mut self, ended: Option<EndedBlock>) -> Result<(), AllocError>
        ensures told { OnOk result (Tells (faults_told self.old) (faults_told self.new)
            (ended_faults (table_left self.old) (option_map ended_state ended))) }
        ensures left { OnOk result (table_left self.new ≡ ended_left (table_left self.old) (option_map ended_state ended)) }
        ensures block { self.new.block ≡ self.old.block }
    {
        match ended {
            Some(mut block) => {
                let judged = self.judge_block(&mut block);
                drop(block);
                judged
            }
            None => Ok(()),
        }
    }

    // Judges a block, and puts it to the table, without the lines that are at fault.
    fn judge_block(&mut self, block: &mut EndedBlock) -> Result<(), AllocError>
        ensures told { OnOk result (Tells (faults_told self.old) (faults_told self.new)
            (statement_faults (table_left self.old) block.old.begins block.old.numbers.items block.old.statement)) }
        ensures left { OnOk result (table_left self.new ≡ table_behind_block (table_left self.old) block.old.statement) }
        ensures block { self.new.block ≡ self.old.block }
    {
        if !block.statement.is_proper() {
            return Ok(());
        }
        let found = faults_of(self.alloc, &self.table, &block.statement)?;
        if found.is_empty() {
            drop(found);
            let numbers = block.numbers.as_slice();
            return self.put(block.begins, &block.statement, numbers, block.spoiled);
        }
        let judged = self.judge_at_fault(block, found.as_slice());
        drop(found);
        judged
    }

    // Tells the faults of a block, and puts what is left of it to the table.
    fn judge_at_fault(&mut self, block: &mut EndedBlock, found: &[Found]) -> Result<(), AllocError>
        ensures told { OnOk result (Tells (faults_told self.old) (faults_told self.new)
            (map (found_fault block.old.begins block.old.numbers.items) found.now)) }
        ensures left { OnOk result (table_left self.new
            ≡ table_behind_left (table_left self.old) (mended block.old.statement found.now)) }
        ensures block { self.new.block ≡ self.old.block }
    {
        let left = block.mend(self.alloc, found);
        tell_found(
            block.begins,
            block.numbers.as_slice(),
            found,
            false,
            &self.declarations,
            &mut self.told,
        )?;
        if left {
            return put_mended(&block.statement, &mut self.table);
        }
        Ok(())
    }

    // Judges a statement that is no block, and puts it to the table where it has no fault. The answer is whether it has none. In a block
    // that is open it is at fault itself, and no warning is told of it, so that those of blocks and of statements come line by line.
    fn judge(&mut self, number: u32, statement: &Statement) -> Result<bool, AllocError>
        ensures told { OnOk result (Tells (faults_told self.old) (faults_told self.new)
            (statement_faults (table_left self.old) number [] statement.now)) }
        ensures left { OnOk result (table_left self.new ≡ table_behind (table_left self.old) statement.now) }
        ensures block { self.new.block ≡ self.old.block }
    {
        if !statement.is_proper() {
            return Ok(false);
        }
        let found = faults_of(self.alloc, &self.table, statement)?;
        if found.is_empty() {
            let in_block = self.block.is_some();
            self.put(number, statement, &[], in_block)?;
            return Ok(true);
        }
        let told = tell_found(
            number,
            &[],
            found.as_slice(),
            self.unopened,
            &self.declarations,
            &mut self.told,
        );
        drop(found);
        told?;
        Ok(false)
    }

    // Puts a statement without fault to the table, of which these are the numbers of the lines. Unless a part of it was refused, it warns
    // where it changes nothing, and of what doesn't sort where it puts it.
    fn put(
        &mut self,
        number: u32,
        statement: &Statement,
        numbers: &[u32],
        spoiled: bool,
    ) -> Result<(), AllocError>
        ensures told { OnOk result (Tells (faults_told self.old) (faults_told self.new)
            (refused_faults (table_left self.old) number statement.now)) }
        ensures left { OnOk result (table_left self.new ≡ table_behind (table_left self.old) statement.now) }
        ensures block { self.new.block ≡ self.old.block }
    {
        if !statement.is_proper() {
            return Ok(());
        }
        match self.table.apply(statement) {
            Ok(record) => {
                let idle = changed_nothing(&self.table, statement, &record);
                drop(record);
                if spoiled {
                    return Ok(());
                }
                if idle {
                    return self.told.warn(Warning::ChangesNothing, number, None);
                }
                warn_of_moved(&self.table, number, statement, numbers, &mut self.told)
            }
            Err(Refusal::OutOfMemory) => Err(AllocError),
            Err(refusal) => tell(
                number,
                Fault::Table(refusal),
                About::Nothing,
                &mut self.told,
            ),
        }
    }
}

impl TakesLines for DeltaSurvey {
    ghost takes = { TellsDeltaLine };

    ghost ends = { ends_delta };

    // What is told of a line is what judging it gives, over the table and with the block that the lines before it left, and what it leaves
    // is for those behind it.
    fn take(&mut self, line: &Line, opening: Opening) -> Result<bool, AllocError> {
        match parse_delta_line(self.alloc, line) {
            Ok(read) => {
                let ends = ends_category(&read);
                let warned = warn_of_words(line, &read, &mut self.told);
                self.take_read(line.number, read)?;
                warned?;
                Ok(ends)
            }
            Err(SyntaxFault::OutOfMemory) => Err(AllocError),
            Err(fault) => {
                self.refuse_line(line, fault, opening)?;
                Ok(false)
            }
        }
    }

    // A line that the lexer refuses is told, and passed over.
    fn refuse(&mut self, number: u32, opening: Opening, fault: LexFault) -> Result<(), AllocError> {
        tell(number, Fault::Lex(fault), About::Nothing, &mut self.told)?;
        self.pass_over(number, opening)
    }
}

// Warns of an order line that begins with `%`, as one that is meant as a comment, and of a copy of another table than published
// tailorings are for.
fn warn_of_words(line: &Line, read: &DeltaLine, told: &mut Collected) -> Result<(), AllocError>
    ensures { told.new.told.faults ≡ told.old.told.faults }
{
    match (read, line.tokens.get()) {
        (DeltaLine::Order(_), [word, ..]) if is_word(word, "%") => {
            told.warn(Warning::PercentSign, line.number, None)
        }
        (DeltaLine::Copy, [_, name, ..]) if is_common_table(name) => Ok(()),
        (DeltaLine::Copy, _) => told.warn(Warning::CopyWithoutEffect, line.number, None),
        _ => Ok(()),
    }
}

// Whether a string names the table of ISO/IEC 14651, over which published tailorings stand: as a delta file stands over its table.
fn is_common_table(name: &Token) -> bool {
    match name {
        Token::Text(pieces) => spells(pieces.get(), COMMON_TABLE),
        _ => false,
    }
}

// Whether these are the characters of a text.
fn spells(pieces: &[Piece], text: &str) -> bool {
    let mut letters = text.chars();
    for piece in pieces {
        match (piece, letters.next()) {
            (Piece::Char(letter), Some(next)) if *letter == next => {}
            _ => return false,
        }
    }
    letters.next().is_none()
}

// Whether a line was refused that was to open a block, and none that was to end one came since, behind a line that was refused and is
// about this; before it that was so.
fn is_unopened_behind(unopened: bool, about: &About) -> bool {
    match about {
        About::Word(word) => word.opens_block() || (unopened && !word.ends_block()),
        About::Nothing | About::Id { .. } => unopened,
    }
}

// Tells a fault of a line.
fn tell(number: u32, fault: Fault, about: About, told: &mut Collected) -> Result<(), AllocError>
    ensures { OnOk result (Tells told.old.told.faults.items told.new.told.faults.items (at_line number fault ∷ [])) }
{
    told.tell(number, number, fault, about)
}

// Tells a line that the grammar refuses, and how it is written.
fn tell_refused(
    line: &Line,
    fault: SyntaxFault,
    about: About,
    told: &mut Collected,
) -> Result<(), AllocError>
    ensures { OnOk result (Tells told.old.told.faults.items told.new.told.faults.items
        (at_line line.now.number (refused.Syntax fault) ∷ [])) }
{
    let said = advice_on_operands(line, fault.number());
    told.tell_saying(line.number, line.number, Fault::Syntax(fault), about, said)
}

// Tells a line that no block takes, where one is open.
fn tell_open(number: u32, block: &Option<OpenBlock>, told: &mut Collected) -> Result<(), AllocError>
    ensures { OnOk result (Tells told.old.told.faults.items told.new.told.faults.items
        (open_faults (option_map block_state block.now) number)) }
{
    match block {
        Some(_) => tell(number, Fault::BlockOpen, About::Nothing, told),
        None => Ok(()),
    }
}

// Tells the faults that were found in a statement that begins at a line, and of which these are the numbers of the lines; it may have
// been meant as a line of a block that wasn't opened.
fn tell_found(
    begins: u32,
    numbers: &[u32],
    found: &[Found],
    unopened: bool,
    declarations: &Declarations,
    told: &mut Collected,
) -> Result<(), AllocError>
    ensures { OnOk result (Tells told.old.told.faults.items told.new.told.faults.items (map (found_fault begins numbers.now) found.now)) }
{
    for fault in found {
        let about = about_found(fault)?;
        let line = line_of(begins, numbers, fault);
        let said = said_of(fault, unopened, declarations);
        told.tell_saying(begins, line, Fault::Table(fault.refusal), about, said)?;
    }
    Ok(())
}

// What is said of what was found beside its number: where no block was opened, that lines are at fault which a block would take, and
// that a weight names a symbol that a refused line was to place, by its own name.
fn said_of(found: &Found, unopened: bool, declarations: &Declarations) -> Option<&'static str> {
    match (found.refusal, &found.id) {
        (Refusal::NotPlaced | Refusal::NoWeights, _) => said_behind(unopened),
        (Refusal::WeightNotPlaced, Some(id)) if declarations.has_mentioned(id) => {
            Some(FOLLOWS_PLACING)
        }
        _ => None,
    }
}

// What is said of a fault of a line that belongs to a block, where none was opened.
fn said_behind(unopened: bool) -> Option<&'static str> {
    if unopened {
        return Some(FOLLOWS_OPENING);
    }
    None
}

// Warns of the line of a statement, or of those of a block, of which these are the numbers, over the table behind it.
fn warn_of_moved(
    table: &Table,
    number: u32,
    statement: &Statement,
    numbers: &[u32],
    told: &mut Collected,
) -> Result<(), AllocError>
    ensures { told.new.told.faults ≡ told.old.told.faults }
{
    match statement {
        Statement::Block { lines, .. } => warn_of_lines(table, lines.get(), numbers, told),
        Statement::Reweight(line) => warn_of_line(table, line, number, told),
        _ => Ok(()),
    }
}

// Warns of the lines of a block, of which these are the numbers, that give weights for few levels, or whose entries stand where they
// don't sort.
fn warn_of_lines(
    table: &Table,
    lines: &[OrderLine],
    numbers: &[u32],
    told: &mut Collected,
) -> Result<(), AllocError>
    ensures { told.new.told.faults ≡ told.old.told.faults }
{
    let mut left = numbers.iter();
    for line in lines {
        let Some(number) = left.next() else {
            return Ok(());
        };
        warn_of_line(table, line, *number, told)?;
    }
    Ok(())
}

// Warns of a line with this number that gives weights for few levels, or whose entry stands where it doesn't sort.
fn warn_of_line(
    table: &Table,
    line: &OrderLine,
    number: u32,
    told: &mut Collected,
) -> Result<(), AllocError>
    ensures { told.new.told.faults ≡ told.old.told.faults }
{
    if lacks_weights(table, line) {
        told.warn(Warning::LacksWeights, number, Some(&line.id))?;
    }
    if !is_misplaced(table, line) {
        return Ok(());
    }
    let warning = if table.is_symbol(&line.id) {
        Warning::SymbolElsewhere
    } else {
        Warning::SortsElsewhere
    };
    told.warn(warning, number, Some(&line.id))
}

// Puts what is left of a block to a table. Where that is refused, the block was told already.
fn put_mended(statement: &Statement, table: &mut Table) -> Result<(), AllocError>
    ensures { OnOk result (collation table.new ≡ table_behind (collation table.old) statement.now) }
{
    if !statement.is_proper() {
        return Ok(());
    }
    match table.apply(statement) {
        Ok(record) => {
            drop(record);
            Ok(())
        }
        Err(Refusal::OutOfMemory) => Err(AllocError),
        Err(_) => Ok(()),
    }
}

// Notes the name of a symbol or an element that a statement declares.
fn note(
    number: u32,
    statement: &Statement,
    declarations: &mut Declarations,
) -> Result<(), AllocError> {
    match statement {
        Statement::Symbol(name) => {
            let name = name.try_copy()?;
            declarations.declare(number, DeclaredName::Symbol(name))
        }
        Statement::Element { name, .. } => {
            let name = name.try_copy()?;
            declarations.declare(number, DeclaredName::Element(name))
        }
        _ => Ok(()),
    }
}

// Notes the identifier of an order line, by its own name in a table.
fn mention(
    alloc: Global,
    table: &Table,
    id: &Id,
    declarations: &mut Declarations,
) -> Result<(), AllocError> {
    let Id::Named(name) = id else {
        return Ok(());
    };
    match table.resolve(name.get()) {
        Some(own) => {
            let own = TextBuf::copied(alloc, own)?;
            declarations.mention(&Id::Named(own))
        }
        None => Ok(()),
    }
}

// Whether a line ends the category.
fn ends_category(line: &DeltaLine) -> bool
    ensures { result ≡ is_delta_end line.now }
{
    matches!(line, DeltaLine::EndCategory)
}
