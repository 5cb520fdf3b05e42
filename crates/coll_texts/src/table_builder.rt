//! The table that is being read.
//!
//! A `TableBuilder` keeps of the lines accepted so far what the next one is judged by (`BuilderState` of
//! `specs/BuilderStates.antt`): whether an order is open, the rules, and a table that grows, with the number of the line of each
//! entry. Each method judges one kind of line, as `cause_after` does; one that is refused leaves the builder as it was. Weights may name
//! what is declared later: they are judged where the category ends (`judge_weights`), each fault with its own line. What may stand where
//! is changed in `specs/BuilderStates.antt` first.

ghost use Rattle.std.specs.Prelude.{◌≡◌, ◌≢◌, ℕ, List, true, false, not, is_some, unwrap_or, [], length, nat_le};
ghost use Rattle.std.specs.Prelude.{Some, None, IfOk, IfErr, IfSome, IfNone, OnOk, OnErr};
ghost use Rattle.std.specs.List.{flat_map, list_any};
ghost use Rattle.coll_lex.specs.Names.{IsName};
ghost use Rattle.coll_syntax.specs.Proper.{IsElementText, IsProperTableLine, IsProperLine, IsNameIfGiven, AreRulesIfGiven};
ghost use Rattle.coll_syntax.specs.declared.lines.TableLine.TheVariants.{OrderStart, OrderEnd, Section, EndCategory};
ghost use Rattle.coll_nodes.specs.Table.{has_text};
ghost use Rattle.coll_texts.specs.BuilderStates.{is_end, levels_of, meaning_cause};
ghost use Rattle.coll_texts.specs.Loading.{rules_after};
ghost use Rattle.coll_texts.specs.OwnWeights.{is_equivalence};
ghost use Rattle.coll_texts.specs.SoundStates.{IsSoundBuilderState, IsProperDeclaration, MayBePut};
ghost use Rattle.coll_nodes.specs.Table.{name_of, text_of, is_declared, is_known, is_own_name, is_symbol, is_symbol_name};
ghost use Rattle.coll_nodes.specs.OwnNames.{declares_second, is_second, named_own, own_id, means_no_symbol};
ghost use Rattle.coll_nodes.specs.declared.declarations.Declaration.TheVariants as declaration;
ghost use Rattle.coll_nodes.specs.WellFormed.{IsWellFormed};
ghost use Rattle.coll_nodes.specs.Bodies.{value_of};
ghost use Rattle.coll_nodes.specs.TableLayout.{collation};
ghost use Rattle.coll_nodes.specs.Causes.{refused_if};
ghost use Rattle.coll_nodes.specs.Limits.{most_declarations};
ghost use Rattle.coll_nodes.specs.Table.{is_placed_in};
ghost use Rattle.coll_texts.specs.declared.load_faults.LoadCause.TheVariants.{OutOfMemory, PlacedTwice};

use crate::body_builder::BodyBuilder;
use crate::{LoadCause, LoadFault};
use coll_lex::{ListBuf, TextBuf};
use coll_lookups::HashKeys;
use coll_nodes::{
    Body, Declaration, Entry, MOST_DECLARATIONS, MOST_ENTRIES, MOST_SECTIONS, Walk, WalkItem,
};
use coll_statements::{given_len, kept_weights, name_the_same};
use coll_syntax::{Id, OrderLine, Rule, Rules, TableLine, Weight};
use std::alloc::{AllocError, Global};
use std::marker::Model;

// How many guesses there are of what weights name: that many levels have one each, and those behind them share these.
const GUESSES: usize = 8;

/// A table that is being read.
pub struct TableBuilder {
    // Whether an order is open.
    order_open: bool,
    // The rules, from the first `order_start` on.
    rules: Option<Rules>,
    // What is declared, and the sections.
    builder: BodyBuilder,
    // The number of the line of each entry, in order.
    numbers: Vec<u32>,
    // Where the name of the next order line is looked for first: symbols are mostly placed in the order in which they were declared.
    guess: usize,
    // Where the weights of an entry grow.
    alloc: Global,
}

// Written out, so that each place that drops a builder is one call, and has no step for each part of a body.
impl Drop for TableBuilder {
    fn drop(self) {
        let TableBuilder {
            order_open: _,
            rules,
            builder,
            numbers,
            guess: _,
            alloc: _,
        } = self;
        drop(rules);
        drop(builder);
        drop(numbers);
    }
}

impl Model for TableBuilder {
    ghost use Rattle.coll_texts.specs.BuilderStates.{BuilderState};
    ghost use Rattle.coll_texts.specs.SoundStates.{IsSoundBuilderState};

    ghost Value = { BuilderState };

    ghost view = { λ d. record {
      order_open = d.order_open;
      rules = d.rules;
      declared = d.builder.declared;
      sections = d.builder.sections;
      numbers = d.numbers.items;
    } };

    ghost invariant = { λ d. IsSoundBuilderState (record {
      order_open = d.order_open;
      rules = d.rules;
      declared = d.builder.declared;
      sections = d.builder.sections;
      numbers = d.numbers.items;
    }) };
}

impl TableBuilder {
    ghost use Rattle.coll_nodes.specs.Entries.{entry_of, weight_ids};
    ghost use Rattle.coll_texts.specs.BuilderStates.{state_of, line_fault, table_of, second_name, own_order, with_own_weights};
    ghost use Rattle.coll_texts.specs.BuilderStates.{cause_after, weights_fault, entries_fault, declaration_cause, section_cause};
    ghost use Rattle.coll_texts.specs.BuilderStates.{section_cause_if, late_cause, order_cause, rules_differ, weight_cause, ids_cause};
    ghost use Rattle.coll_nodes.specs.Walks.{entries_visited};
    ghost use Rattle.coll_texts.specs.Loading.{state_after, state_refused, state_with, with_declaration, with_section, with_section_if, with_entry};

    /// A builder before the first line. What a text names is looked up under these keys.
    pub fn new(alloc: Global, keys: HashKeys) -> Result<TableBuilder, AllocError>
        ensures { IfOk result (λ builder. builder ≡ state_of []) }
    {
        let builder = BodyBuilder::new(alloc, keys)?;
        Ok(TableBuilder {
            order_open: false,
            rules: None,
            builder,
            numbers: Vec::new(alloc),
            guess: 0,
            alloc,
        })
    }

    /// Judges one more line, which has this number, and keeps what it says. The answer tells whether it ends the category.
    ///
    /// A line that is refused leaves the builder as it was, unless it would end the category and the weights refuse it: then these stand by
    /// own names.
    #[tactic(auto, unfolding(crate::specs::BuilderStates::line_fault, crate::specs::Loading::state_with))]
    pub fn take(&mut self, number: u32, line: TableLine) -> Result<bool, LoadFault>
        requires proper { IsProperTableLine line }
        ensures ok { OnOk result (line_fault self.old (record { number = number; line = line }) ≡ None) }
        ensures after { OnOk result (self.new ≡ state_after self.old (record { number = number; line = line })) }
        ensures ended { IfOk result (λ ended. ended ≡ is_end line) }
        ensures well_formed { IfOk result (λ ended. ended ≡ true → IsWellFormed (table_of self.new)) }
        ensures err { IfErr result (λ fault. fault.cause ≢ OutOfMemory → line_fault self.old (record { number = number; line = line })
            ≡ Some fault) }
        ensures memory { IfErr result (λ fault. fault.cause ≡ OutOfMemory → fault.line ≡ number) }
        ensures kept { OnErr result (is_end line ≡ false → self.new ≡ self.old) }
        ensures refused { IfErr result (λ fault. fault.cause ≢ OutOfMemory
            → self.new ≡ state_refused self.old (record { number = number; line = line })) }
    {
        let ends = ends_category(&line);
        match self.keep(number, line) {
            Ok(()) => {}
            Err(cause) => return Err(LoadFault {
                line: number,
                cause,
            }),
        }
        if !ends {
            return Ok(false);
        }
        self.judge_weights()?;
        self.lemma_sound();
        Ok(true)
    }

    /// The rules and the body of the table read.
    pub fn into_parts(self) -> (Rules, Body)
        requires { IsWellFormed (table_of self) }
        ensures { collation (value_of result.0 result.1) ≡ table_of self }
    {
        let TableBuilder {
            order_open: _,
            rules,
            builder,
            numbers,
            guess: _,
            alloc: _,
        } = self;
        drop(numbers);
        let Some(rules) = rules else {
            unreachable!();
        };
        (rules, builder.into_body())
    }

    // Judges a line by those before it, weights aside, and keeps what it says.
    #[tactic(auto, unfolding(crate::specs::Loading::state_with))]
    fn keep(&mut self, number: u32, line: TableLine) -> Result<(), LoadCause>
        requires proper { IsProperTableLine line }
        ensures ok { OnOk result (cause_after self.old line ≡ None) }
        ensures after { OnOk result (self.new ≡ state_with self.old number line) }
        ensures err { IfErr result (λ cause. cause ≢ OutOfMemory → cause_after self.old line ≡ Some cause) }
        ensures kept { OnErr result (self.new ≡ self.old) }
    {
        match line {
            TableLine::Symbol(name) => self.declare_symbol(name),
            TableLine::Element { name, text } => self.declare_element(name, text),
            TableLine::Equivalence { name, symbol } => self.declare_second(name, symbol),
            TableLine::OrderStart { section, rules } => self.start(section, rules),
            TableLine::OrderEnd => self.stop(),
            TableLine::Section(name) => self.section(name),
            TableLine::Script => Ok(()),
            TableLine::EndCategory => self.end(),
            TableLine::Order(order) => self.place(number, order),
        }
    }

    // `collating-symbol`.
    fn declare_symbol(&mut self, name: TextBuf) -> Result<(), LoadCause>
        requires { IsName name }
        ensures ok { OnOk result (declaration_cause self.old.declared (declaration.Symbol name) ≡ None) }
        ensures after { OnOk result (self.new ≡ with_declaration self.old (declaration.Symbol name)) }
        ensures err { IfErr result (λ cause. cause ≢ OutOfMemory → declaration_cause self.old.declared (declaration.Symbol name)
            ≡ Some cause) }
        ensures kept { OnErr result (self.new ≡ self.old) }
    {
        if self.builder.declared_len() >= MOST_DECLARATIONS {
            return Err(self.full_cause(&name));
        }
        if !self.builder.declare_free(Declaration::Symbol(name))? {
            return Err(LoadCause::DeclaredTwice);
        }
        Ok(())
    }

    // Why a symbol is refused where there is no room for one more declaration.
    fn full_cause(&self, name: &TextBuf) -> LoadCause
        requires { nat_le most_declarations (length self.now.declared) ≡ true }
        ensures { declaration_cause self.now.declared (declaration.Symbol name.now) ≡ Some result }
    {
        if self.builder.declares(name) {
            return LoadCause::DeclaredTwice;
        }
        LoadCause::Full
    }

    // `collating-element`.
    fn declare_element(&mut self, name: TextBuf, text: TextBuf) -> Result<(), LoadCause>
        requires name { IsName name }
        requires text { IsElementText text }
        ensures ok { OnOk result (declaration_cause self.old.declared (declaration.Element name text) ≡ None) }
        ensures after { OnOk result (self.new ≡ with_declaration self.old (declaration.Element name text)) }
        ensures err { IfErr result (λ cause. cause ≢ OutOfMemory → declaration_cause self.old.declared (declaration.Element name text)
            ≡ Some cause) }
        ensures kept { OnErr result (self.new ≡ self.old) }
    {
        if self.builder.declares(&name) {
            return Err(LoadCause::DeclaredTwice);
        }
        if self.builder.has_text(&text) {
            return Err(LoadCause::StringTwice);
        }
        self.declare(Declaration::Element { name, text })
    }

    // `symbol-equivalence`.
    fn declare_second(&mut self, name: TextBuf, symbol: TextBuf) -> Result<(), LoadCause>
        requires { IsName name }
        ensures ok { OnOk result (declaration_cause self.old.declared (second_name self.old.declared name symbol) ≡ None) }
        ensures after { OnOk result (self.new ≡ with_declaration self.old (second_name self.old.declared name symbol)) }
        ensures err { IfErr result (λ cause. cause ≢ OutOfMemory
            → declaration_cause self.old.declared (second_name self.old.declared name symbol) ≡ Some cause) }
        ensures kept { OnErr result (self.new ≡ self.old) }
    {
        if self.builder.declares(&name) {
            return Err(LoadCause::DeclaredTwice);
        }
        match self.own_symbol(symbol) {
            Ok(symbol) => self.declare(Declaration::Equivalence { name, symbol }),
            Err(cause) => Err(cause),
        }
    }

    // The own name of what a second name is for, which has to be a collating symbol. Lack of memory is
    // answered for a second name alone.
    fn own_symbol(&self, symbol: TextBuf) -> Result<TextBuf, LoadCause>
        ensures own { IfOk result (λ own. own ≡ named_own self.now.declared symbol) }
        ensures symbol { IfOk result (λ own. is_symbol_name self.now.declared own ≡ true) }
        ensures err { IfErr result (λ cause. cause ≢ OutOfMemory → (name : List ℕ)
            → meaning_cause self.now.declared (second_name self.now.declared name symbol) ≡ Some cause) }
        ensures memory { IfErr result (λ cause. cause ≡ OutOfMemory → list_any (declares_second symbol) self.now.declared ≡ true) }
    {
        self.lemma_sound();
        match self.builder.declaration(&symbol) {
            Some(Declaration::Symbol(_)) => Ok(symbol),
            Some(Declaration::Element { .. }) => Err(LoadCause::NotASymbol),
            Some(Declaration::Equivalence { symbol: own, .. }) => {
                let own = own.try_copy()?;
                Ok(own)
            }
            None => Err(LoadCause::NotDeclared),
        }
    }

    // Puts a declaration behind all others, where there is room for one more.
    fn declare(&mut self, new: Declaration) -> Result<(), LoadCause>
        requires proper { IsProperDeclaration new }
        requires name { is_declared self.old.declared (name_of new) ≡ false }
        requires meaning { means_no_symbol self.old.declared new ≡ false }
        requires text { has_text self.old.declared (text_of new) ≡ false }
        ensures ok { OnOk result (declaration_cause self.old.declared new ≡ None) }
        ensures after { OnOk result (self.new ≡ with_declaration self.old new) }
        ensures err { IfErr result (λ cause. cause ≢ OutOfMemory → declaration_cause self.old.declared new ≡ Some cause) }
        ensures kept { OnErr result (self.new ≡ self.old) }
    {
        if self.builder.declared_len() >= MOST_DECLARATIONS {
            return Err(LoadCause::Full);
        }
        self.builder.declare(new)?;
        Ok(())
    }

    // `order_start`: a section may begin, and the rules stand from the first one on.
    fn start(&mut self, section: Option<TextBuf>, rules: Option<Rules>) -> Result<(), LoadCause>
        requires name { IsNameIfGiven section }
        requires rules { AreRulesIfGiven rules }
        ensures ok { OnOk result (cause_after self.old (OrderStart section rules) ≡ None) }
        ensures after { OnOk result (self.new ≡ record self.old {
          order_open = true;
          rules = rules_after self.old.rules rules;
          sections = with_section_if self.old.sections section;
        }) }
        ensures err { IfErr result (λ cause. cause ≢ OutOfMemory → cause_after self.old (OrderStart section rules) ≡ Some cause) }
        ensures kept { OnErr result (self.new ≡ self.old) }
    {
        if self.rules_differ(&rules) {
            return Err(LoadCause::RulesDiffer);
        }
        self.begin_if_named(section)?;
        self.open_order(rules);
        Ok(())
    }

    // Whether rules are given, and differ from those of the table.
    fn rules_differ(&self, given: &Option<Rules>) -> bool
        ensures { result ≡ rules_differ self.now.rules given.now }
    {
        match (&self.rules, given) {
            (Some(rules), Some(given)) => !rules.is_same(given),
            _ => false,
        }
    }

    // An order is open from here on, with these rules if there are none yet.
    fn open_order(&mut self, given: Option<Rules>)
        requires { AreRulesIfGiven given }
        ensures { self.new ≡ record self.old { order_open = true; rules = rules_after self.old.rules given } }
    {
        let rules = first_rules(self.rules.take(), given);
        self.rules = Some(rules);
        self.order_open = true;
    }

    // A section begins, if a name is given.
    fn begin_if_named(&mut self, name: Option<TextBuf>) -> Result<(), LoadCause>
        requires { IsNameIfGiven name }
        ensures ok { OnOk result (section_cause_if self.old name ≡ None) }
        ensures after { OnOk result (self.new ≡ record self.old { sections = with_section_if self.old.sections name }) }
        ensures err { IfErr result (λ cause. cause ≢ OutOfMemory → section_cause_if self.old name ≡ Some cause) }
        ensures kept { OnErr result (self.new ≡ self.old) }
    {
        match name {
            Some(name) => self.begin(name),
            None => Ok(()),
        }
    }

    // A section begins.
    fn begin(&mut self, name: TextBuf) -> Result<(), LoadCause>
        requires { IsName name }
        ensures ok { OnOk result (section_cause self.old name ≡ None) }
        ensures after { OnOk result (self.new ≡ record self.old { sections = with_section self.old.sections name }) }
        ensures err { IfErr result (λ cause. cause ≢ OutOfMemory → section_cause self.old name ≡ Some cause) }
        ensures kept { OnErr result (self.new ≡ self.old) }
    {
        if let Some(cause) = self.section_cause(&name) {
            return Err(cause);
        }
        self.builder.begin_section(name)?;
        Ok(())
    }

    // Why a section that begins is refused, if it is.
    fn section_cause(&self, name: &TextBuf) -> Option<LoadCause>
        ensures { result ≡ section_cause self.now name.now }
    {
        if self.builder.has_section(name) {
            return Some(LoadCause::SectionTwice);
        }
        if self.builder.section_len() >= MOST_SECTIONS {
            return Some(LoadCause::Full);
        }
        None
    }

    // `order_end`.
    fn stop(&mut self) -> Result<(), LoadCause>
        ensures ok { OnOk result (cause_after self.old OrderEnd ≡ None) }
        ensures after { OnOk result (self.new ≡ record self.old { order_open = false }) }
        ensures err { IfErr result (λ cause. cause_after self.old OrderEnd ≡ Some cause) }
        ensures kept { OnErr result (self.new ≡ self.old) }
    {
        if !self.order_open {
            return Err(LoadCause::OutsideOrder);
        }
        self.order_open = false;
        Ok(())
    }

    // `section`.
    fn section(&mut self, name: TextBuf) -> Result<(), LoadCause>
        requires { IsName name }
        ensures ok { OnOk result (cause_after self.old (Section name) ≡ None) }
        ensures after { OnOk result (self.new ≡ record self.old { sections = with_section self.old.sections name }) }
        ensures err { IfErr result (λ cause. cause ≢ OutOfMemory → cause_after self.old (Section name) ≡ Some cause) }
        ensures kept { OnErr result (self.new ≡ self.old) }
    {
        if !self.order_open {
            return Err(LoadCause::OutsideOrder);
        }
        self.begin(name)?;
        Ok(())
    }

    // `END LC_COLLATE`, the weights not yet judged: they stand by own names from here on. It takes memory only where a second name
    // is declared.
    fn end(&mut self) -> Result<(), LoadCause>
        ensures ok { OnOk result (cause_after self.old EndCategory ≡ None) }
        ensures after { OnOk result (self.new ≡ with_own_weights self.old) }
        ensures err { IfErr result (λ cause. cause ≢ OutOfMemory → cause_after self.old EndCategory ≡ Some cause) }
        ensures memory { IfErr result (λ cause. cause ≡ OutOfMemory → list_any is_equivalence self.old.declared ≡ true) }
        ensures kept { OnErr result (self.new ≡ self.old) }
    {
        if self.order_open {
            return Err(LoadCause::OutsideOrder);
        }
        if self.rules.is_none() {
            return Err(LoadCause::NoRules);
        }
        self.builder.give_own_weights()?;
        Ok(())
    }

    // An order line, which has this number.
    fn place(&mut self, number: u32, line: OrderLine) -> Result<(), LoadCause>
        requires { IsProperLine line }
        ensures ok { OnOk result (order_cause self.old (own_order self.old.declared line) ≡ None) }
        ensures after { OnOk result (self.new
            ≡ with_entry self.old number (entry_of (levels_of self.old.rules) self.old.declared (own_order self.old.declared line))) }
        ensures err { IfErr result (λ cause. cause ≢ OutOfMemory → order_cause self.old (own_order self.old.declared line) ≡ Some cause) }
        ensures kept { OnErr result (self.new ≡ self.old) }
    {
        let mut guess = self.guess;
        let answer = self.place_behind(number, line, &mut guess);
        self.guess = guess;
        answer
    }

    // The same, with where its name is looked for first.
    fn place_behind(
        &mut self,
        number: u32,
        line: OrderLine,
        guess: &mut usize,
    ) -> Result<(), LoadCause>
        requires { IsProperLine line }
        ensures ok { OnOk result (order_cause self.old (own_order self.old.declared line) ≡ None) }
        ensures after { OnOk result (self.new
            ≡ with_entry self.old number (entry_of (levels_of self.old.rules) self.old.declared (own_order self.old.declared line))) }
        ensures err { IfErr result (λ cause. cause ≢ OutOfMemory → order_cause self.old (own_order self.old.declared line) ≡ Some cause) }
        ensures kept { OnErr result (self.new ≡ self.old) }
    {
        let (line, symbol) = self.own_order(line, guess)?;
        if let Some(cause) = self.order_cause(&line, symbol) {
            return Err(cause);
        }
        self.lemma_sound();
        let entry = self.entry_of(line, symbol.unwrap_or(false))?;
        if !self.put(number, entry)? {
            return Err(LoadCause::PlacedTwice);
        }
        Ok(())
    }

    // An order line, with its identifier by its own name, and whether that is a symbol, if it may stand in a section: both by one
    // look-up, at a guess first. Lack of memory is answered for a second name alone.
    fn own_order(
        &self,
        line: OrderLine,
        guess: &mut usize,
    ) -> Result<(OrderLine, Option<bool>), AllocError>
        ensures own { IfOk result (λ own. own.0 ≡ own_order self.now.declared line) }
        ensures known { IfOk result (λ own. is_some own.1 ≡ is_known self.now.declared own.0.id) }
        ensures symbol { IfOk result (λ own. unwrap_or own.1 false ≡ is_symbol self.now.declared own.0.id) }
        ensures memory { OnErr result (is_second self.now.declared line.id ≡ true) }
    {
        let OrderLine { id, weights } = line;
        let (id, symbol) = self.own_id(id, guess)?;
        Ok((OrderLine { id, weights }, symbol))
    }

    // An identifier by its own name, and whether that is a symbol, if it may stand in a section. Lack of memory is
    // answered for a second name alone.
    fn own_id(&self, id: Id, guess: &mut usize) -> Result<(Id, Option<bool>), AllocError>
        ensures own { IfOk result (λ own. own.0 ≡ own_id self.now.declared id) }
        ensures known { IfOk result (λ own. is_some own.1 ≡ is_known self.now.declared own.0) }
        ensures symbol { IfOk result (λ own. unwrap_or own.1 false ≡ is_symbol self.now.declared own.0) }
        ensures memory { OnErr result (is_second self.now.declared id ≡ true) }
    {
        match id {
            Id::Char(c) => Ok((Id::Char(c), Some(false))),
            Id::Named(name) => {
                let (own, symbol) = self.own_name(name, guess)?;
                Ok((Id::Named(own), symbol))
            }
            Id::Undefined => Ok((Id::Undefined, Some(false))),
        }
    }

    // The own name of a name, and whether it is that of a symbol, if the own name is declared. Lack of memory is
    // answered for a second name alone.
    fn own_name(
        &self,
        name: TextBuf,
        guess: &mut usize,
    ) -> Result<(TextBuf, Option<bool>), AllocError>
        ensures own { IfOk result (λ own. own.0 ≡ named_own self.now.declared name) }
        ensures known { IfOk result (λ own. is_some own.1 ≡ is_own_name self.now.declared own.0) }
        ensures symbol { IfOk result (λ own. unwrap_or own.1 false ≡ is_symbol_name self.now.declared own.0) }
        ensures memory { OnErr result (list_any (declares_second name) self.now.declared ≡ true) }
    {
        self.lemma_sound();
        match self.builder.declaration_behind(&name, guess) {
            Some(Declaration::Symbol(_)) => Ok((name, Some(true))),
            Some(Declaration::Element { .. }) => Ok((name, Some(false))),
            Some(Declaration::Equivalence { symbol, .. }) => {
                let own = symbol.try_copy()?;
                Ok((own, Some(true)))
            }
            None => Ok((name, None)),
        }
    }

    // What holds of every builder. It does nothing; its contract says so.
    fn lemma_sound(&self)
        ensures { IsSoundBuilderState self.now }
    {
        let _ = &self.order_open;
    }

    // Why an order line is refused, if it is. Whether its identifier is placed isn't looked up where nothing else refuses the line: who
    // puts its entry in learns it by the same look-up. Whether its identifier is a symbol, if it may stand in a section, was looked up.
    fn order_cause(&self, line: &OrderLine, symbol: Option<bool>) -> Option<LoadCause>
        requires known { is_some symbol ≡ is_known self.now.declared line.now.id }
        requires symbol { unwrap_or symbol false ≡ is_symbol self.now.declared line.now.id }
        ensures refused { IfSome result (λ cause. order_cause self.now line.now ≡ Some cause) }
        ensures free { IfNone result (order_cause self.now line.now ≡ refused_if (is_placed_in self.now.sections line.now.id) PlacedTwice None) }
    {
        if !self.order_open {
            return Some(LoadCause::OutsideOrder);
        }
        if symbol.is_none() {
            return Some(LoadCause::NotDeclared);
        }
        let cause = self.late_cause(line, symbol)?;
        if self.builder.is_placed(&line.id) {
            return Some(LoadCause::PlacedTwice);
        }
        Some(cause)
    }

    // Why an order line is refused whose identifier may stand in a section, and isn't placed.
    fn late_cause(&self, line: &OrderLine, symbol: Option<bool>) -> Option<LoadCause>
        requires symbol { unwrap_or symbol false ≡ is_symbol self.now.declared line.now.id }
        ensures { result ≡ late_cause self.now line.now }
    {
        if line.weights.is_some() && symbol.unwrap_or(false) {
            return Some(LoadCause::SymbolWithWeights);
        }
        if given_len(&line.weights) > levels(&self.rules) {
            return Some(LoadCause::TooManyWeights);
        }
        if self.builder.len() >= MOST_ENTRIES {
            return Some(LoadCause::Full);
        }
        None
    }

    // The entry of an order line, whose identifier is a symbol or not.
    fn entry_of(&self, line: OrderLine, symbol: bool) -> Result<Entry, AllocError>
        requires { symbol ≡ is_symbol self.now.declared line.id }
        ensures { IfOk result (λ entry. entry ≡ entry_of (levels_of self.now.rules) self.now.declared line) }
    {
        let OrderLine { id, weights } = line;
        if symbol {
            let weights = ListBuf::new(Vec::new(self.alloc));
            return Ok(Entry::new(id, weights));
        }
        let weights = kept_weights(self.alloc, levels(&self.rules), &id, weights)?;
        Ok(Entry::new(id, weights))
    }

    // Puts an entry last, with the number of its line, unless its identifier is placed. Answers whether it was put.
    fn put(&mut self, number: u32, entry: Entry) -> Result<bool, AllocError>
        requires { is_placed_in self.old.sections entry.id ≡ false → MayBePut self.old entry }
        ensures free { IfOk result (λ put. put ≡ not (is_placed_in self.old.sections entry.id)) }
        ensures ok { IfOk result (λ put. put ≡ true → self.new ≡ with_entry self.old number entry) }
        ensures taken { IfOk result (λ put. put ≡ false → self.new ≡ self.old) }
        ensures kept { OnErr result (self.new ≡ self.old) }
    {
        self.numbers.reserve(1)?;
        if !self.builder.place_last(entry)? {
            return Ok(false);
        }
        self.numbers.push_reserved(number);
        Ok(true)
    }

    // Why an identifier in a weight is refused, if it is: what is placed was declared, so a second look is taken only at
    // what isn't. A name is looked for at a guess first.
    fn weight_cause(&self, id: &Id, guess: &mut usize) -> Option<LoadCause>
        ensures cause { result ≡ weight_cause self.now.declared self.now.sections id.now }
        ensures spared { IfSome result (λ cause. cause ≢ OutOfMemory) }
    {
        if self.builder.is_placed_behind(id, guess) {
            return None;
        }
        if self.builder.is_known(id) {
            return Some(LoadCause::WeightNotPlaced);
        }
        Some(LoadCause::NotDeclared)
    }

    // Why the first of these identifiers that is refused in a weight is.
    fn ids_cause(&self, ids: &[Id], guess: &mut usize) -> Option<LoadCause>
        ensures cause { result ≡ ids_cause self.now.declared self.now.sections ids.now }
        ensures spared { IfSome result (λ cause. cause ≢ OutOfMemory) }
    {
        for id in ids {
            if let Some(cause) = self.weight_cause(id, guess) {
                return Some(cause);
            }
        }
        None
    }

    // Why a weight is refused, if it is. None of the identifiers of the weight that was judged before it, if one was, is refused.
    fn named_cause(
        &self,
        weight: &Weight,
        judged: Option<&Weight>,
        guess: &mut usize,
    ) -> Option<LoadCause>
        requires judged { IfSome judged (λ weight. ids_cause self.now.declared self.now.sections (weight_ids weight.now) ≡ None) }
        ensures cause { result ≡ ids_cause self.now.declared self.now.sections (weight_ids weight.now) }
        ensures spared { IfSome result (λ cause. cause ≢ OutOfMemory) }
    {
        if let Some(judged) = judged {
            if name_the_same(weight, judged) {
                return None;
            }
        }
        match weight {
            Weight::Names(ids) => self.ids_cause(ids.get(), guess),
            _ => None,
        }
    }

    // Why the first of these weights that is refused is. Of those of the entry before, none is refused; most name at a level what
    // they did there, which isn't looked up again. Most others name what was placed behind that, so each level has a guess.
    fn weights_cause(
        &self,
        weights: &[Weight],
        before: &[Weight],
        guesses: &mut [usize; GUESSES],
    ) -> Option<LoadCause>
        requires judged { ids_cause self.now.declared self.now.sections (flat_map weight_ids before.now) ≡ None }
        ensures cause { result ≡ ids_cause self.now.declared self.now.sections (flat_map weight_ids weights.now) }
        ensures spared { IfSome result (λ cause. cause ≢ OutOfMemory) }
    {
        for level in 0..weights.len() {
            let guess = &mut guesses[level % GUESSES];
            if let Some(cause) = self.named_cause(&weights[level], before.get(level), guess) {
                return Some(cause);
            }
        }
        None
    }

    // Judges the weights of all entries, where the category ends.
    fn judge_weights(&self) -> Result<(), LoadFault>
        ensures ok { OnOk result (weights_fault self.now ≡ None) }
        ensures err { IfErr result (λ fault. weights_fault self.now ≡ Some fault) }
        ensures spared { IfErr result (λ fault. fault.cause ≢ OutOfMemory) }
    {
        self.judge_visited(&self.numbers, self.builder.walk())
    }

    // Judges the weights of the entries that a walk visits, each with the number of its line.
    fn judge_visited<'a>(&self, mut numbers: &[u32], walk: Walk<'a>) -> Result<(), LoadFault>
        requires { length numbers.now ≡ length (entries_visited walk) }
        ensures ok { OnOk result (entries_fault self.now numbers.now (entries_visited walk.entry) ≡ None) }
        ensures err { IfErr result (λ fault. entries_fault self.now numbers.now (entries_visited walk.entry) ≡ Some fault) }
        ensures spared { IfErr result (λ fault. fault.cause ≢ OutOfMemory) }
    {
        let mut before: &'a [Weight] = &[];
        let mut guesses = [0; GUESSES];
        for item in walk {
            let entry = match item {
                WalkItem::Section(_) => continue,
                WalkItem::Entry(entry) => entry,
            };
            let Some((number, later)) = numbers.split_first() else {
                unreachable!();
            };
            if let Some(cause) = self.weights_cause(entry.weights(), before, &mut guesses) {
                return Err(LoadFault {
                    line: *number,
                    cause,
                });
            }
            numbers = later;
            before = entry.weights();
        }
        Ok(())
    }
}

// Whether a line ends the category.
fn ends_category(line: &TableLine) -> bool
    ensures { result ≡ is_end line.now }
{
    matches!(line, TableLine::EndCategory)
}

// The rules that stand, or else those given; one level, compared forward, where none are given.
fn first_rules(rules: Option<Rules>, given: Option<Rules>) -> Rules
    ensures { Some result ≡ rules_after rules given }
{
    if let Some(rules) = rules {
        return rules;
    }
    match given {
        Some(given) => given,
        None => Rules::one(Rule {
            backward: false,
            position: false,
        }),
    }
}

// The number of levels.
fn levels(rules: &Option<Rules>) -> usize
    ensures { result ≡ levels_of rules.now }
{
    match rules {
        Some(rules) => rules.get().len(),
        None => 0,
    }
}
