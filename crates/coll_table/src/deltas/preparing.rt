//! What a statement needs is grown, before its nodes are linked.
//!
//! A statement that is accepted becomes items, one for each node that it links or weighs anew; a node that isn't there yet is
//! made, and stays loose until its item is done. Where memory is refused midway, the nodes made so far are dropped, so that
//! the table is as it was. What holds of the items of a block is `ArePrepared` of `specs/Prepared.antt`. A new statement is a
//! function more, which grows all that it needs before it changes anything else.

ghost use Rattle.std.specs.Prelude.{◌≡◌, ◌∷◌, [], Some, true, length, IfOk, OnOk, OnErr};
ghost use Rattle.coll_syntax.specs.Identifier.{has_name};
ghost use Rattle.coll_table.specs.Growth.{AddsLoose};
ghost use Rattle.coll_table.specs.Prepared.{ArePrepared, IsPreparedBlock, IsPreparedDeclaration, IsPreparedLine};
ghost use Rattle.coll_table.specs.Prepared.{IsPreparedReweight, IsPreparedSection, made_entry, weights_to};
ghost use Rattle.coll_table.specs.Record.{AreLoose, added_by, added_nodes, without_nodes};
ghost use Rattle.coll_nodes.specs.Table.{is_placed, section_names};
ghost use Rattle.coll_nodes.specs.TableLayout.{collation, content_of};
ghost use Rattle.coll_nodes.specs.Moving.{MayBeLoose};
ghost use Rattle.coll_nodes.specs.declared.contents.Content.TheVariants as content;

use crate::{Item, Record, Table};
use coll_lex::{ListBuf, TextBuf};
use coll_nodes::{Content, Declaration, Entry};
use coll_order::{NodeId, Place};
use coll_statements::{copied_weights, kept_weights};
use coll_syntax::{Id, OrderLine, Weight};
use std::alloc::AllocError;

impl Table {
    /// An item for each line of a block, the first behind the target, and each further one behind the line before.
    pub(super) fn prepare_block(
        &mut self,
        target: &Id,
        lines: &[OrderLine],
    ) -> Result<Vec<Item>, AllocError>
        requires placed { is_placed (collation self.old) target.now ≡ true }
        ensures prepared { IfOk result (λ items. IsPreparedBlock (collation self.old) self.new.layout target.now lines.now items.items) }
        ensures added { IfOk result (λ items. AddsLoose self.old self.new (added_nodes items.items)) }
        ensures unchanged { OnErr result (self.new ≡ self.old) }
    {
        let mut items = Vec::with_capacity(self.alloc(), lines.len())?;
        self.body.lemma_layout();
        let Some(node) = self.body.entry_node(target) else {
            unreachable!();
        };
        match self.prepare_lines(node, lines, &mut items) {
            Ok(()) => Ok(items),
            Err(refused) => {
                self.drop_prepared(items);
                Err(refused)
            }
        }
    }

    /// An item for a new declaration, whose node is made, and goes behind all others.
    pub(super) fn prepare_declaration(
        &mut self,
        declaration: Declaration,
    ) -> Result<Vec<Item>, AllocError>
        ensures prepared { IfOk result (λ items. IsPreparedDeclaration self.new.layout declaration items.items) }
        ensures added { IfOk result (λ items. AddsLoose self.old self.new (added_nodes items.items)) }
        ensures unchanged { OnErr result (self.new ≡ self.old) }
    {
        let mut items = Vec::with_capacity(self.alloc(), 1)?;
        let node = self.make(Content::Declared(declaration))?;
        items.push_reserved(Item {
            node,
            old: None,
            new: Some(self.body.declared_end()),
            weights: None,
        });
        Ok(items)
    }

    /// An item for a section that goes behind another.
    pub(super) fn prepare_section(
        &self,
        moved: &TextBuf,
        after: &TextBuf,
    ) -> Result<Vec<Item>, AllocError>
        requires moved { has_name (section_names (collation self.now).sections) moved.now ≡ true }
        requires after { has_name (section_names (collation self.now).sections) after.now ≡ true }
        ensures { IfOk result (λ items. IsPreparedSection self.now.layout moved.now after.now items.items) }
    {
        self.body.lemma_layout();
        let mut items = Vec::with_capacity(self.alloc(), 1)?;
        let Some(node) = self.body.section_node(moved) else {
            unreachable!();
        };
        let Some(other) = self.body.section_node(after) else {
            unreachable!();
        };
        let place = Some(Place::After(other));
        items.push_reserved(Item {
            node,
            old: place,
            new: place,
            weights: None,
        });
        Ok(items)
    }

    /// An item for an order line outside a block: its weights go to its entry, which stays where it is.
    pub(super) fn prepare_reweight(&self, line: &OrderLine) -> Result<Vec<Item>, AllocError>
        requires placed { is_placed (collation self.now) line.now.id ≡ true }
        ensures { IfOk result (λ items. IsPreparedReweight (collation self.now) self.now.layout line.now items.items) }
    {
        let mut items = Vec::with_capacity(self.alloc(), 1)?;
        let weights = self.weights_to(line)?;
        self.body.lemma_layout();
        let Some(node) = self.body.entry_node(&line.id) else {
            unreachable!();
        };
        items.push_reserved(Item {
            node,
            old: None,
            new: None,
            weights,
        });
        Ok(items)
    }

    // Puts an item for each line at the end of none. Where memory is refused, there are items for the lines before.
    fn prepare_lines(
        &mut self,
        target: NodeId,
        lines: &[OrderLine],
        items: &mut Vec<Item>,
    ) -> Result<(), AllocError>
        requires none { items.old.items ≡ [] }
        ensures prepared { OnOk result (ArePrepared (collation self.old) self.new.layout target lines.now items.new.items) }
        ensures added { AddsLoose self.old self.new (added_nodes items.new.items) }
    {
        let mut before = target;
        for line in lines {
            items.reserve(1)?;
            let item = self.prepare_line(before, line)?;
            before = item.node;
            items.push_reserved(item);
        }
        Ok(())
    }

    // An item for a line, behind a node.
    fn prepare_line(&mut self, before: NodeId, line: &OrderLine) -> Result<Item, AllocError>
        ensures prepared { IfOk result (λ item. IsPreparedLine (collation self.old) self.new.layout before line.now item) }
        ensures added { IfOk result (λ item. AddsLoose self.old self.new (added_by item.old item.new item.node)) }
        ensures unchanged { OnErr result (self.new ≡ self.old) }
    {
        let weights = self.weights_to(line)?;
        let place = Some(Place::After(before));
        self.body.lemma_layout();
        match self.body.entry_node(&line.id) {
            Some(node) => Ok(Item {
                node,
                old: place,
                new: place,
                weights,
            }),
            None => {
                let node = self.make_entry(&line.id)?;
                Ok(Item {
                    node,
                    old: None,
                    new: place,
                    weights,
                })
            }
        }
    }

    // A loose node for an identifier that has none.
    fn make_entry(&mut self, id: &Id) -> Result<NodeId, AllocError>
        ensures made { IfOk result (λ node. content_of self.new.layout node
            ≡ Some (content.Placed (made_entry (collation self.old) id.now))) }
        ensures added { IfOk result (λ node. AddsLoose self.old self.new (node ∷ [])) }
        ensures unchanged { OnErr result (self.new ≡ self.old) }
    {
        let weights = self.default_weights(id)?;
        let id = id.clone()?;
        self.make(Content::Placed(Entry::new(id, weights)))
    }

    // The weights that a new entry is made with: its own at each level, and none for a collating symbol.
    fn default_weights(&self, id: &Id) -> Result<ListBuf<Weight>, AllocError>
        ensures { IfOk result (λ weights. weights ≡ (made_entry (collation self.now) id.now).weights) }
    {
        if self.is_symbol(id) {
            return Ok(ListBuf::new(Vec::new(self.alloc())));
        }
        kept_weights(self.alloc(), self.rules().len(), id, None)
    }

    // The weights that go to the entry of a line, if it gives any.
    fn weights_to(&self, line: &OrderLine) -> Result<Option<ListBuf<Weight>>, AllocError>
        ensures { IfOk result (λ weights. weights ≡ weights_to (length (collation self.now).rules) line.now.id line.now.weights) }
    {
        let Some(given) = &line.weights else {
            return Ok(None);
        };
        let kept = copied_weights(self.alloc(), self.rules().len(), &line.id, given.get())?;
        Ok(Some(kept))
    }

    // Makes a loose node.
    fn make(&mut self, node: Content) -> Result<NodeId, AllocError>
        requires may { MayBeLoose node }
        ensures made { IfOk result (λ made. content_of self.new.layout made ≡ Some node) }
        ensures added { IfOk result (λ made. AddsLoose self.old self.new (made ∷ [])) }
        ensures unchanged { OnErr result (self.new ≡ self.old) }
    {
        self.body.lemma_layout();
        let made = self.body.make(node)?;
        Ok(made)
    }

    // Drops the nodes that items added. It takes no memory.
    fn drop_prepared(&mut self, items: Vec<Item>)
        requires loose { AreLoose self.old.layout (added_nodes items.items) }
        ensures { self.new ≡ without_nodes self.old (added_nodes items.items) }
    {
        self.forget(Record {
            undone: true,
            items: ListBuf::new(items),
        });
    }
}
