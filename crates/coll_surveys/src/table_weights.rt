//! What the order lines of a table give as weights is looked up in the table that all lines give.
//!
//! These are the faults that a line may have beside its own: it gives weights to a collating symbol, or more than there are levels, or a
//! weight names what isn't declared or has no entry.

ghost use Rattle.std.specs.Prelude.{◌≡◌, chars, IfOk, Ok, OnOk, Some};
ghost use Rattle.coll_syntax.specs.declared.identifiers.Id.TheVariants.{Named};
ghost use Rattle.coll_nodes.specs.Entries.{weight_ids};
ghost use Rattle.coll_nodes.specs.TableLayout.{collation};
ghost use Rattle.coll_texts.specs.BuilderStates.{is_end};
ghost use Rattle.coll_findings.specs.ToldFaults.{Tells};
ghost use Rattle.coll_surveys.specs.TableSurveys.{ends_table};
ghost use Rattle.coll_surveys.specs.TableWeights.{TellsWeights, cause_faults, given_cause, ids_faults, named_cause, read_weights};
ghost use Rattle.coll_surveys.specs.TableWeights.{text_weights, weight_faults, weights_faults};

use coll_advice::{copied_own_id, is_placed};
use coll_faults::Fault;
use coll_findings::{Collected, Opening, TakesLines, about_id, survey_lines};
use coll_lex::{LexFault, Line};
use coll_syntax::{Id, OrderLine, SyntaxFault, TableLine, Weight, parse_table_line};
use coll_table::Table;
use coll_texts::{LoadCause, LoadFault};
use std::alloc::{AllocError, Global};

// The weights of a table that are surveyed.
#[derive(Drop)]
struct WeightSurvey<'a, 'b> {
    alloc: Global,
    table: &'a Table,
    // Whether the rules of the table are known, and so how many weights a line may have.
    ruled: bool,
    told: &'b mut Collected,
}

/// Surveys the weights in the text of a table that gives this one, and tells their faults behind those that were told.
pub(crate) fn survey_weights(
    alloc: Global,
    text: &[u8],
    table: &Table,
    ruled: bool,
    told: &mut Collected,
) -> Result<(), AllocError>
    ensures { OnOk result (Tells told.old.told.faults.items told.new.told.faults.items
        (text_weights (collation table.now) ruled text.now)) }
{
    let mut survey = WeightSurvey {
        alloc,
        table,
        ruled,
        told,
    };
    survey.take_all(text)?;
    Ok(())
}

impl TakesLines for WeightSurvey<'_, '_> {
    ghost takes = { TellsWeights };

    ghost ends = { ends_table };

    fn take(&mut self, line: &Line, _opening: Opening) -> Result<bool, AllocError> {
        match parse_table_line(self.alloc, line) {
            Ok(read) => {
                let ends = self.take_read(line.number, &read);
                drop(read);
                ends
            }
            Err(SyntaxFault::OutOfMemory) => Err(AllocError),
            Err(_) => Ok(false),
        }
    }

    // What the lexer refuses was told before.
    fn refuse(&mut self, _: u32, _: Opening, _: LexFault) -> Result<(), AllocError> {
        Ok(())
    }
}

impl WeightSurvey<'_, '_> {
    // Takes all lines of a text.
    fn take_all(&mut self, text: &[u8]) -> Result<(), AllocError>
        ensures told { OnOk result (Tells self.old.told.now.told.faults.items self.new.told.now.told.faults.items
            (text_weights (collation self.old.table.now) self.old.ruled text.now)) }
        ensures reference { OnOk result (self.new.told.ghost_name ≡ self.old.told.ghost_name) }
    {
        let alloc = self.alloc;
        let _ = survey_lines(alloc, text, self)?;
        Ok(())
    }

    // Takes a line that the grammar accepts, and answers whether it ends the category.
    fn take_read(&mut self, number: u32, read: &TableLine) -> Result<bool, AllocError>
        ensures told { OnOk result (Tells self.old.told.now.told.faults.items self.new.told.now.told.faults.items
            (read_weights (collation self.old.table.now) self.old.ruled number (Ok read.now))) }
        ensures reference { self.new.told.ghost_name ≡ self.old.told.ghost_name }
        ensures table { self.new.table ≡ self.old.table }
        ensures ruled { self.new.ruled ≡ self.old.ruled }
        ensures ended { IfOk result (λ ended. ended ≡ is_end read.now) }
    {
        match read {
            TableLine::Order(order) => {
                judge_order(self.alloc, self.table, self.ruled, number, order, self.told)?;
                Ok(false)
            }
            TableLine::EndCategory => Ok(true),
            _ => Ok(false),
        }
    }
}

// Judges the weights of an order line, if it gives any.
fn judge_order(
    alloc: Global,
    table: &Table,
    ruled: bool,
    number: u32,
    order: &OrderLine,
    told: &mut Collected,
) -> Result<(), AllocError>
    ensures { OnOk result (Tells told.old.told.faults.items told.new.told.faults.items
        (weight_faults (collation table.now) ruled number order.now)) }
{
    let Some(weights) = &order.weights else {
        return Ok(());
    };
    match line_cause(alloc, table, ruled, &order.id, weights.get())? {
        Some(cause) => tell(number, cause, &order.id, told),
        None => judge_weights(table, number, weights.get(), told),
    }
}

// Why an identifier may not have these weights, whatever they name, if it may not.
fn line_cause(
    alloc: Global,
    table: &Table,
    ruled: bool,
    id: &Id,
    weights: &[Weight],
) -> Result<Option<LoadCause>, AllocError>
    ensures { IfOk result (λ cause. cause ≡ given_cause (collation table.now) ruled id.now weights.now) }
{
    let own = copied_own_id(alloc, table, id)?;
    let is_symbol = table.is_symbol(&own);
    drop(own);
    if is_symbol {
        return Ok(Some(LoadCause::SymbolWithWeights));
    }
    if ruled && weights.len() > table.rules().len() {
        return Ok(Some(LoadCause::TooManyWeights));
    }
    Ok(None)
}

// Judges what each of these weights names.
fn judge_weights(
    table: &Table,
    number: u32,
    weights: &[Weight],
    told: &mut Collected,
) -> Result<(), AllocError>
    ensures { OnOk result (Tells told.old.told.faults.items told.new.told.faults.items
        (weights_faults (collation table.now) number weights.now)) }
{
    for weight in weights {
        judge_weight(table, number, weight, told)?;
    }
    Ok(())
}

// Judges what a weight names.
fn judge_weight(
    table: &Table,
    number: u32,
    weight: &Weight,
    told: &mut Collected,
) -> Result<(), AllocError>
    ensures { OnOk result (Tells told.old.told.faults.items told.new.told.faults.items
        (ids_faults (collation table.now) number (weight_ids weight.now))) }
{
    match weight {
        Weight::Names(ids) => judge_ids(table, number, ids.get(), told),
        Weight::Ignore | Weight::Own => Ok(()),
    }
}

// Judges each of these identifiers of a weight.
fn judge_ids(table: &Table, number: u32, ids: &[Id], told: &mut Collected) -> Result<(), AllocError>
    ensures { OnOk result (Tells told.old.told.faults.items told.new.told.faults.items
        (ids_faults (collation table.now) number ids.now)) }
{
    for id in ids {
        judge_id(table, number, id, told)?;
    }
    Ok(())
}

// Judges an identifier of a weight.
fn judge_id(table: &Table, number: u32, id: &Id, told: &mut Collected) -> Result<(), AllocError>
    ensures { OnOk result (Tells told.old.told.faults.items told.new.told.faults.items
        (cause_faults number (named_cause (collation table.now) id.now))) }
{
    match id_cause(table, id) {
        Some(cause) => tell(number, cause, id, told),
        None => Ok(()),
    }
}

// Why an identifier may not stand in a weight, if it may not.
fn id_cause(table: &Table, id: &Id) -> Option<LoadCause>
    ensures { result ≡ named_cause (collation table.now) id.now }
{
    match id {
        Id::Named(name) => name_cause(table, name.get()),
        _ if is_placed(table, id) => None,
        _ => Some(LoadCause::WeightNotPlaced),
    }
}

// Why a name may not, if it may not.
fn name_cause(table: &Table, name: &str) -> Option<LoadCause>
    ensures { result ≡ named_cause (collation table.now) (Named (chars name.now)) }
{
    table.lemma_well_formed();
    if table.entry_of_name(name).is_some() {
        return None;
    }
    if table.resolve(name).is_some() {
        return Some(LoadCause::WeightNotPlaced);
    }
    Some(LoadCause::NotDeclared)
}

// Tells a fault of an order line, which is about this identifier.
fn tell(line: u32, cause: LoadCause, id: &Id, told: &mut Collected) -> Result<(), AllocError>
    ensures { OnOk result (Tells told.old.told.faults.items told.new.told.faults.items (cause_faults line (Some cause))) }
{
    let fault = Fault::Load(LoadFault { line, cause });
    let id = id.clone()?;
    told.tell(line, line, fault, about_id(id))
}
