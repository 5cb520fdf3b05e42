//! Tables.
//!
//! A `Table` has its rules and a body of nodes in rings. Contracts see a `TableValue` of coll_nodes, `specs/TableLayout.antt`, and
//! read it through `collation`, which is the table that the layout stands for; every table is well formed (`WellFormed` there).
//! What is read here takes no memory. How a body holds its nodes may change without a clause here.

ghost use Rattle.std.specs.Prelude.{◌≡◌, ◌<◌, ℕ, List, None, chars, length, option_copied, option_map, IfOk, OnOk};
ghost use Rattle.std.specs.Option.{option_and_then};
ghost use Rattle.coll_syntax.specs.declared.identifiers.Id.TheVariants.{Named};

use coll_devices::{Sink, WriteStop};
use coll_lookups::{EntryNumbers, HashKeys, NamePlaces};
use coll_nodes::{Body, Declared, Entry, Walk};
use coll_syntax::{Id, Rule, Rules};
use coll_texts::{TableBuilder, write_exported, write_table};
use std::alloc::{AllocError, Global};
use std::marker::Model;

/// A table of a collation order.
pub struct Table {
    pub(super) rules: Rules,
    pub(super) body: Body,
}

// Written out, so that each place that drops a table is one call, and has no step for each part of a body.
impl Drop for Table {
    fn drop(self) {
        let Table { rules, body } = self;
        drop(rules);
        drop(body);
    }
}

impl Model for Table {
    ghost use Rattle.coll_nodes.specs.Bodies.{value_of};
    ghost use Rattle.coll_nodes.specs.TableLayout.{TableValue, collation};
    ghost use Rattle.coll_nodes.specs.WellFormed.{IsWellFormed};

    ghost Value = { TableValue };

    ghost view = { λ t. value_of t.rules t.body };

    ghost invariant = { λ t. IsWellFormed (collation (value_of t.rules t.body)) };
}

impl Table {
    ghost use Rattle.coll_devices.specs.Devices.{Writes};
    ghost use Rattle.coll_nodes.specs.Beside.{entry_before, entry_behind, last_entry, section_name};
    ghost use Rattle.coll_nodes.specs.ElementTexts.{element_entry};
    ghost use Rattle.coll_lookups.specs.NamePlaces.{place_named};
    ghost use Rattle.coll_nodes.specs.NodeNumbers.{AreNumbersOf};
    ghost use Rattle.coll_nodes.specs.OwnNames.{own_name};
    ghost use Rattle.coll_nodes.specs.Placement.{entry_at, place_among};
    ghost use Rattle.coll_nodes.specs.SoundLayouts.{IsTable};
    ghost use Rattle.coll_nodes.specs.Table.{entries_of, is_known, is_placed, is_symbol};
    ghost use Rattle.coll_nodes.specs.TableLayout.{collation};
    ghost use Rattle.coll_nodes.specs.Walks.{visited};
    ghost use Rattle.coll_nodes.specs.WellFormed.{IsWellFormed};
    ghost use Rattle.coll_texts.specs.BuilderStates.{table_of};
    ghost use Rattle.coll_texts.specs.CanonicalText.{text};
    ghost use Rattle.coll_texts.specs.ExportedText.{exported_text};

    /// The table of a builder that has ended its category.
    pub fn built(builder: TableBuilder) -> Table
        requires { IsWellFormed (table_of builder) }
        ensures { collation result ≡ table_of builder }
    {
        let (rules, body) = builder.into_parts();
        Table { rules, body }
    }

    /// The rules of its levels, one to four.
    #[tactic(auto, unfolding(coll_nodes::specs::TableLayout::collation))]
    pub fn rules(&self) -> &[Rule]
        ensures { result.now ≡ (collation self.now).rules }
    {
        self.rules.get()
    }

    /// The number of entries, in all sections together.
    #[tactic(auto, unfolding(coll_nodes::specs::TableLayout::collation))]
    pub fn len(&self) -> usize
        ensures { result ≡ length (entries_of (collation self.now)) }
    {
        self.body.entry_len()
    }

    /// The number of declarations.
    #[tactic(auto, unfolding(coll_nodes::specs::TableLayout::collation))]
    pub fn declared_len(&self) -> usize
        ensures { result ≡ length (collation self.now).declared }
    {
        self.body.declared_len()
    }

    /// The number of sections, the first, which has no name, counted.
    #[tactic(auto, unfolding(coll_nodes::specs::TableLayout::collation))]
    pub fn section_len(&self) -> usize
        ensures { result ≡ length (collation self.now).sections }
    {
        self.body.section_len()
    }

    /// The entry of an identifier, if it has one.
    #[tactic(auto, unfolding(coll_nodes::specs::TableLayout::collation))]
    pub fn entry(&self, id: &Id) -> Option<&Entry>
        ensures { option_copied result ≡ entry_at (entries_of (collation self.now)) id.now }
    {
        self.body.entry(id)
    }

    /// The entry of the collating element that has a string, if one has it and is placed. It takes no memory.
    #[tactic(auto, unfolding(coll_nodes::specs::TableLayout::collation))]
    pub fn element_entry(&self, text: &str) -> Option<&Entry>
        ensures { option_copied result ≡ element_entry (collation self.now) (chars text.now) }
    {
        match self.body.element_name(text) {
            Some(name) => self.body.entry_named(name),
            None => None,
        }
    }

    /// A number of characters: no string of an element that is placed has more. It takes no memory.
    #[tactic(auto, unfolding(coll_nodes::specs::TableLayout::collation))]
    pub fn most_element_characters(&self) -> usize
        ensures { (text : List ℕ) → result < length text → element_entry (collation self.now) text ≡ None }
    {
        self.body.most_element_characters()
    }

    /// Gives each entry its place among all, from 1, for `entry_number`.
    ///
    /// It takes memory for entries that the numbers have no room for yet, which no clause says. The numbers are those of the
    /// table as it stands. After an `apply` or a `flip` they are to be given anew; so are they where memory was refused, since
    /// part of them is then written over.
    #[tactic(auto, unfolding(coll_nodes::specs::TableLayout::collation))]
    pub fn number_entries(&self, numbers: &mut EntryNumbers) -> Result<(), AllocError>
        ensures { OnOk result (AreNumbersOf numbers.new self.now.layout) }
    {
        self.lemma_well_formed();
        self.body.number_entries(numbers)?;
        Ok(())
    }

    /// The place of an identifier among all entries, from 1, if it has an entry. It takes no memory.
    #[tactic(auto, unfolding(coll_nodes::specs::TableLayout::collation))]
    pub fn entry_number(&self, numbers: &EntryNumbers, id: &Id) -> Option<u32>
        requires { AreNumbersOf numbers.now self.now.layout }
        ensures { result ≡ place_among (entries_of (collation self.now)) id.now }
    {
        self.body.entry_number(numbers, id)
    }

    /// The places of the names that have entries, from 1, kept apart from the table: its look-up is copied, and the numbers of its
    /// entries are taken over, also where memory is refused.
    ///
    /// They are those of the table as it stands, and stay so when it changes.
    #[tactic(auto, unfolding(coll_nodes::specs::TableLayout::collation))]
    pub fn name_places(
        &self,
        alloc: Global,
        numbers: EntryNumbers,
    ) -> Result<NamePlaces, AllocError>
        requires { AreNumbersOf numbers self.now.layout }
        ensures { IfOk result (λ places. (name : List ℕ)
            → place_named places name ≡ place_among (entries_of (collation self.now)) (Named name)) }
    {
        self.body.name_places(alloc, numbers)
    }

    /// The entry directly before that of an identifier, in all sections joined, if both are there. It takes no memory.
    #[tactic(auto, unfolding(coll_nodes::specs::TableLayout::collation))]
    pub fn entry_before(&self, id: &Id) -> Option<&Entry>
        ensures { option_copied result ≡ entry_before (entries_of (collation self.now)) id.now }
    {
        self.body.entry_before(id)
    }

    /// The entry directly behind that of an identifier, in all sections joined, if both are there. It takes no memory.
    #[tactic(auto, unfolding(coll_nodes::specs::TableLayout::collation))]
    pub fn entry_behind(&self, id: &Id) -> Option<&Entry>
        ensures { option_copied result ≡ entry_behind (entries_of (collation self.now)) id.now }
    {
        self.body.entry_behind(id)
    }

    /// The last entry of all, if there is one. It takes no memory.
    #[tactic(auto, unfolding(coll_nodes::specs::TableLayout::collation))]
    pub fn last_entry(&self) -> Option<&Entry>
        ensures { option_copied result ≡ last_entry (entries_of (collation self.now)) }
    {
        self.body.last_entry()
    }

    /// The name of the section in which the entry of an identifier stands, if there is one, and it has a name. It takes no memory.
    #[tactic(auto, unfolding(coll_nodes::specs::TableLayout::collation))]
    pub fn section_name(&self, id: &Id) -> Option<&str>
        ensures { option_map (λ name. chars name.now) result ≡ section_name (collation self.now).sections id.now }
    {
        self.body.section_name(id)
    }

    /// The own name of a declared name: for a second name that of its symbol. It takes no memory.
    #[tactic(auto, unfolding(coll_nodes::specs::TableLayout::collation))]
    pub fn resolve(&self, name: &str) -> Option<&str>
        ensures { option_map (λ own. chars own.now) result ≡ own_name (collation self.now).declared (chars name.now) }
    {
        self.body.resolve(name)
    }

    /// The entry of what a declared name stands for, if that has one. It takes no memory.
    #[tactic(auto, unfolding(coll_nodes::specs::TableLayout::collation))]
    pub fn entry_of_name(&self, name: &str) -> Option<&Entry>
        ensures { option_copied result ≡ option_and_then (λ own. entry_at (entries_of (collation self.now)) (Named own))
            (own_name (collation self.now).declared (chars name.now)) }
    {
        self.body.entry_of_name(name)
    }

    /// Whether an identifier is a collating symbol. It takes no memory.
    #[tactic(auto, unfolding(coll_nodes::specs::TableLayout::collation))]
    pub fn is_symbol(&self, id: &Id) -> bool
        ensures { result ≡ is_symbol (collation self.now).declared id.now }
    {
        self.body.is_symbol(id)
    }

    /// A walk through the sections and entries, in order. It takes no memory.
    pub fn walk(&self) -> Walk<'_>
        ensures { result ≡ visited (collation self.now).sections }
    {
        self.lemma_well_formed();
        self.body.walk()
    }

    /// The declarations, in order. It takes no memory.
    pub fn declared(&self) -> Declared<'_>
        ensures { result ≡ (collation self.now).declared }
    {
        self.body.declared()
    }

    /// Writes the canonical text. It takes no memory.
    ///
    /// Where it stops, the device has taken a prefix of the text.
    pub fn print<W: Sink>(&self, out: &mut W) -> Result<(), WriteStop>
        ensures { Writes (W.taken out.old) (W.taken out.new) (W.failed out.old) (W.failed out.new) (text (collation self.now)) result }
    {
        write_table(out, self.rules(), self.declared(), self.walk())
    }

    /// Writes the text in the form that `localedef` takes. It takes no memory.
    ///
    /// It is read as the same table. Where it stops, the device has taken a prefix of the text.
    pub fn export<W: Sink>(&self, out: &mut W) -> Result<(), WriteStop>
        ensures { Writes (W.taken out.old) (W.taken out.new) (W.failed out.old) (W.failed out.new)
            (exported_text (collation self.now)) result }
    {
        self.lemma_well_formed();
        write_exported(out, self.rules(), self.declared(), self.walk(), self.walk())
    }

    /// The number of ring steps that its changes have taken, modulo 2 to the power 64.
    pub fn steps(&self) -> u64
        ensures { result ≡ self.now.steps }
    {
        self.body.steps()
    }

    /// A copy, which has taken as many ring steps. It shares the names of look-ups, and has new memory for all else.
    pub fn try_copy(&self, alloc: Global) -> Result<Table, AllocError>
        ensures { IfOk result (λ copy. copy ≡ self.now) }
    {
        let Table { rules, body } = self;
        Ok(Table {
            rules: rules.copied(),
            body: body.try_copy(alloc)?,
        })
    }

    /// The keys that names, strings and characters are looked up under.
    pub fn hash_keys(&self) -> HashKeys {
        self.body.hash_keys()
    }

    /// What holds of every table: its layout is sound, and it is well formed.
    ///
    /// It does nothing; its contract hands the facts to callers.
    pub fn lemma_well_formed(&self)
        ensures table { IsTable self.now }
        ensures well_formed { IsWellFormed (collation self.now) }
    {
        self.body.lemma_layout();
    }

    /// Where it takes memory.
    pub(crate) fn alloc(&self) -> Global {
        self.body.alloc()
    }

    /// Whether an identifier stands in the table.
    #[tactic(auto, unfolding(coll_nodes::specs::TableLayout::collation))]
    pub(crate) fn is_placed(&self, id: &Id) -> bool
        ensures { result ≡ is_placed (collation self.now) id.now }
    {
        self.body.is_placed(id)
    }

    /// Whether an identifier may stand in the table, as an entry or in a weight: a name has to be declared as an own name.
    #[tactic(auto, unfolding(coll_nodes::specs::TableLayout::collation))]
    pub(crate) fn is_known(&self, id: &Id) -> bool
        ensures { result ≡ is_known (collation self.now).declared id.now }
    {
        self.body.is_known(id)
    }
}
