//! Statements rewrite a table.
//!
//! `apply` is `delta` of `specs/Delta.antt`: a statement is taken by own names (`specs/OwnStatements.antt`) and judged first
//! (`judging`), then all that it needs is grown (`preparing`), and then its nodes are linked, where no growth comes. So a refusal,
//! lack of memory included, changes nothing, and what was done is a record that takes it back. A new statement, or a new refusal
//! of one, is a case of `delta` first.

ghost use Rattle.std.specs.Prelude.{◌≡◌, ◌≢◌, ◌≤◌, length, true, false, unwrap_or, IsOk, Ok, Err, IfOk, IfErr, OnOk, OnErr};
ghost use Rattle.coll_syntax.specs.Proper.{IsProper};
ghost use Rattle.coll_syntax.specs.declared.statements.Statement.TheVariants as statement;
ghost use Rattle.coll_table.specs.Applied.{Applied, declaring};
ghost use Rattle.coll_table.specs.Delta.{delta, own_delta};
ghost use Rattle.coll_table.specs.Judging.{judging_takes_memory, own_judging_takes_memory};
ghost use Rattle.coll_statements.specs.OwnStatements.{uses_second};
ghost use Rattle.coll_table.specs.OwnStatements.{own_statement};
ghost use Rattle.coll_table.specs.Record.{Extends, Fits, IsSame, KeepsLoose, added_nodes, own_steps};
ghost use Rattle.coll_table.specs.Record.{statement_items, statement_steps, turn, without_nodes};
ghost use Rattle.coll_nodes.specs.TableLayout.{collation};
ghost use Rattle.coll_table.specs.StatementItems.{AreItemsOf, AreOwnItems};
ghost use Rattle.coll_table.specs.Turning.{CanDo, items_on, placed_items, steps_of, turned_on};
ghost use Rattle.coll_nodes.specs.WellFormed.{IsWellFormed};
ghost use Rattle.coll_table.specs.declared.refusals.Refusal.TheVariants.{OutOfMemory};

mod judging;
mod preparing;

use crate::turning::do_items;
use crate::{Item, Record, Refusal, Table};
use coll_lex::{ListBuf, TextBuf};
use coll_nodes::Declaration;
use coll_statements::by_own_names;
use coll_syntax::{Id, OrderLine, Statement};
use std::alloc::AllocError;

impl Table {
    /// Rewrites the table by a statement. The answer is the record that undoes it.
    ///
    /// A statement is accepted whole or refused whole: after a refusal the table is as it was. `OutOfMemory` may stand in place of
    /// another refusal for a block whose target is placed, and for a statement that uses a second name, and for no other: any other
    /// statement is answered with it only where it would be accepted.
    #[tactic(auto, unfolding(crate::specs::Delta::delta, crate::specs::Record::statement_steps, crate::specs::StatementItems::AreItemsOf))]
    pub fn apply(&mut self, statement: &Statement) -> Result<Record, Refusal>
        requires proper { IsProper statement.now }
        ensures ok { OnOk result (delta (collation self.old) statement.now ≡ Ok (collation self.new)) }
        ensures in_force { IfOk result (λ kept. kept.undone ≡ false) }
        ensures fits { IfOk result (λ kept. Fits self.new kept) }
        ensures back { IfOk result (λ kept. Extends (turn self.new kept) self.old) }
        ensures added { IfOk result (λ kept. IsSame (without_nodes (turn self.new kept) (added_nodes kept.items)) self.old) }
        ensures items { IfOk result (λ kept. length kept.items ≡ statement_items statement.now) }
        ensures listed { IfOk result (λ kept. AreItemsOf self.old self.new.layout statement.now kept.items) }
        ensures steps { IfOk result (λ kept. steps_of kept.items ≡ statement_steps (collation self.old) statement.now) }
        ensures loose { OnOk result (KeepsLoose self.old.layout self.new.layout) }
        ensures err { IfErr result (λ refusal. refusal ≢ OutOfMemory → delta (collation self.old) statement.now ≡ Err refusal) }
        ensures memory { IfErr result (λ refusal. refusal ≡ OutOfMemory → judging_takes_memory (collation self.old) statement.now ≡ false
            → IsOk (delta (collation self.old) statement.now)) }
        ensures unchanged { OnErr result (self.new ≡ self.old) }
    {
        match self.own_statement(statement)? {
            Some(own) => self.apply_own(&own),
            None => self.apply_own(statement),
        }
    }

    // The statement by own names, where it uses a second name; none where it uses none, and stays as it is.
    #[tactic(auto, unfolding(coll_nodes::specs::TableLayout::collation, crate::specs::OwnStatements::own_statement))]
    fn own_statement(&self, statement: &Statement) -> Result<Option<Statement>, AllocError>
        ensures own { IfOk result (λ own. unwrap_or own statement.now ≡ own_statement (collation self.now) statement.now) }
        ensures proper { IsProper statement.now → IsProper (own_statement (collation self.now) statement.now) }
        ensures items { statement_items (own_statement (collation self.now) statement.now) ≡ statement_items statement.now }
        ensures memory { OnErr result (uses_second (collation self.now).declared statement.now ≡ true) }
    {
        self.lemma_well_formed();
        by_own_names(&self.body, statement)
    }

    // Rewrites the table by a statement of own names, as `apply` does.
    fn apply_own(&mut self, statement: &Statement) -> Result<Record, Refusal>
        requires proper { IsProper statement.now }
        ensures ok { OnOk result (own_delta (collation self.old) statement.now ≡ Ok (collation self.new)) }
        ensures in_force { IfOk result (λ kept. kept.undone ≡ false) }
        ensures fits { IfOk result (λ kept. Fits self.new kept) }
        ensures back { IfOk result (λ kept. Extends (turn self.new kept) self.old) }
        ensures added { IfOk result (λ kept. IsSame (without_nodes (turn self.new kept) (added_nodes kept.items)) self.old) }
        ensures items { IfOk result (λ kept. length kept.items ≡ statement_items statement.now) }
        ensures listed { IfOk result (λ kept. AreOwnItems self.old self.new.layout statement.now kept.items) }
        ensures steps { IfOk result (λ kept. steps_of kept.items ≡ own_steps (collation self.old) statement.now) }
        ensures loose { OnOk result (KeepsLoose self.old.layout self.new.layout) }
        ensures err { IfErr result (λ refusal. refusal ≢ OutOfMemory → own_delta (collation self.old) statement.now ≡ Err refusal) }
        ensures memory { IfErr result (λ refusal. refusal ≡ OutOfMemory → own_judging_takes_memory (collation self.old) statement.now
            ≡ false → IsOk (own_delta (collation self.old) statement.now)) }
        ensures unchanged { OnErr result (self.new ≡ self.old) }
    {
        self.check_own(statement)?;
        let kept = self.rewrite(statement)?;
        Ok(kept)
    }

    // Rewrites the table by a statement of own names that it accepts.
    fn rewrite(&mut self, statement: &Statement) -> Result<Record, AllocError>
        requires proper { IsProper statement.now }
        requires accepted { IsOk (own_delta (collation self.old) statement.now) }
        ensures applied { IfOk result (λ kept. Applied self.old self.new statement.now kept) }
        ensures unchanged { OnErr result (self.new ≡ self.old) }
    {
        match statement {
            Statement::Symbol(name) => self.declare_symbol(name),
            Statement::Element { name, text } => self.declare_element(name, text),
            Statement::Equivalence { name, symbol } => self.declare_second(name, symbol),
            Statement::Block { target, lines } => self.apply_block(target, lines.get()),
            Statement::SectionAfter { moved, after } => self.move_section(moved, after),
            Statement::Reweight(line) => self.reweight(line),
        }
    }

    // Declares a symbol.
    fn declare_symbol(&mut self, name: &TextBuf) -> Result<Record, AllocError>
        requires proper { IsProper (statement.Symbol name.now) }
        requires accepted { IsOk (own_delta (collation self.old) (statement.Symbol name.now)) }
        ensures applied { IfOk result (λ kept. Applied self.old self.new (statement.Symbol name.now) kept) }
        ensures unchanged { OnErr result (self.new ≡ self.old) }
    {
        let name = name.try_copy()?;
        self.declare(Declaration::Symbol(name))
    }

    // Declares an element.
    fn declare_element(&mut self, name: &TextBuf, text: &TextBuf) -> Result<Record, AllocError>
        requires proper { IsProper (statement.Element name.now text.now) }
        requires accepted { IsOk (own_delta (collation self.old) (statement.Element name.now text.now)) }
        ensures applied { IfOk result (λ kept. Applied self.old self.new (statement.Element name.now text.now) kept) }
        ensures unchanged { OnErr result (self.new ≡ self.old) }
    {
        let name = name.try_copy()?;
        let text = text.try_copy()?;
        self.declare(Declaration::Element { name, text })
    }

    // Declares a second name of a symbol.
    fn declare_second(&mut self, name: &TextBuf, symbol: &TextBuf) -> Result<Record, AllocError>
        requires proper { IsProper (statement.Equivalence name.now symbol.now) }
        requires accepted { IsOk (own_delta (collation self.old) (statement.Equivalence name.now symbol.now)) }
        ensures applied { IfOk result (λ kept. Applied self.old self.new (statement.Equivalence name.now symbol.now) kept) }
        ensures unchanged { OnErr result (self.new ≡ self.old) }
    {
        let name = name.try_copy()?;
        let symbol = symbol.try_copy()?;
        self.declare(Declaration::Equivalence { name, symbol })
    }

    // Puts a declaration behind all others.
    fn declare(&mut self, new: Declaration) -> Result<Record, AllocError>
        requires proper { IsProper (declaring new) }
        requires accepted { IsOk (own_delta (collation self.old) (declaring new)) }
        ensures applied { IfOk result (λ kept. Applied self.old self.new (declaring new) kept) }
        ensures unchanged { OnErr result (self.new ≡ self.old) }
    {
        let items = self.prepare_declaration(new)?;
        self.lemma_well_formed();
        Ok(self.carry_out(items))
    }

    // Places the lines of a block, the first after the target and each further one after the line before.
    fn apply_block(&mut self, target: &Id, lines: &[OrderLine]) -> Result<Record, AllocError>
        requires proper { IsProper (statement.Block target.now lines.now) }
        requires accepted { IsOk (own_delta (collation self.old) (statement.Block target.now lines.now)) }
        ensures applied { IfOk result (λ kept. Applied self.old self.new (statement.Block target.now lines.now) kept) }
        ensures unchanged { OnErr result (self.new ≡ self.old) }
    {
        let items = self.prepare_block(target, lines)?;
        self.lemma_well_formed();
        Ok(self.carry_out(items))
    }

    // Moves a section, whole, directly after another.
    fn move_section(&mut self, moved: &TextBuf, after: &TextBuf) -> Result<Record, AllocError>
        requires proper { IsProper (statement.SectionAfter moved.now after.now) }
        requires accepted { IsOk (own_delta (collation self.old) (statement.SectionAfter moved.now after.now)) }
        ensures applied { IfOk result (λ kept. Applied self.old self.new (statement.SectionAfter moved.now after.now) kept) }
        ensures unchanged { OnErr result (self.new ≡ self.old) }
    {
        let items = self.prepare_section(moved, after)?;
        self.lemma_well_formed();
        Ok(self.carry_out(items))
    }

    // Replaces the weights of an entry, which stays where it is.
    fn reweight(&mut self, line: &OrderLine) -> Result<Record, AllocError>
        requires proper { IsProper (statement.Reweight line.now) }
        requires accepted { IsOk (own_delta (collation self.old) (statement.Reweight line.now)) }
        ensures applied { IfOk result (λ kept. Applied self.old self.new (statement.Reweight line.now) kept) }
        ensures unchanged { OnErr result (self.new ≡ self.old) }
    {
        let items = self.prepare_reweight(line)?;
        self.lemma_well_formed();
        Ok(self.carry_out(items))
    }

    // Does the items of a statement that is accepted, from the first to the last. It takes no memory.
    fn carry_out(&mut self, items: Vec<Item>) -> Record
        requires goes { CanDo self.old.layout items.items }
        requires few { length items.items ≤ 4096 }
        requires well_formed { IsWellFormed (collation (record self.old { layout = turned_on self.old.layout items.items })) }
        ensures rules { self.new.rules ≡ self.old.rules }
        ensures layout { self.new.layout ≡ turned_on self.old.layout items.items }
        ensures record { result ≡ record { undone = false; items = items_on self.old.layout (placed_items self.old.layout items.items) } }
    {
        let mut items = items;
        do_items(&mut self.body, &mut items);
        Record {
            undone: false,
            items: ListBuf::new(items),
        }
    }
}
