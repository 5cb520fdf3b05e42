//! What each name of a source means, and what is declared: the simple form, with which the meanings of `coll_meanings` are compared.
//!
//! It keeps each name by itself, in one map, and copies what a table declares.
//!
//! A name means a symbol, an element, or something else under another name: a character, where the string of its element has that
//! one alone; another element, where that has its string; or a symbol, where it is a second name. The first declaration of a name
//! stands. Where a source tailors a table, the names of that table mean what they do there, and a declaration that the table has as
//! well is left out.

use coll_lex::{TextBuf, is_name};
use coll_lookups::HashKeys;
use coll_nodes::{DeclaredItem, MOST_DECLARATIONS};
use coll_source_lines::{
    Adjustment, Declaration, Lost, NameRange, Report, Said, SourceFault, SourceLine, SourcePlace,
    name_at,
};
use coll_source_names::SourceStatement;
use coll_syntax::{Id, MOST_ELEMENT_CHARS, OrderLine, Statement};
use coll_table::Table;
use coll_texts::LoadCause;
use indexmap::IndexMap;
use std::alloc::{AllocError, Global};

/// What a name means.
#[derive(Drop)]
pub(crate) enum Meaning {
    /// A collating symbol.
    Symbol,
    /// A collating element.
    Element,
    /// Something else: a character, another element, or the symbol of a second name.
    Other(Id),
}

// What is known of a name.
#[derive(Drop)]
struct Known {
    meaning: Meaning,
    // Whether the table that is tailored declares it, and no line of the source has done so yet.
    by_table: bool,
}

/// All names that are declared.
pub struct Meanings {
    names: IndexMap<String, Known, HashKeys>,
    // The name of the element of each string.
    strings: IndexMap<String, TextBuf, HashKeys>,
    declared: Vec<SourceStatement>,
    alloc: Global,
}

// Written out, so that each place that drops one is one call, with no step for each part.
impl Drop for Meanings {
    fn drop(self) {
        let Meanings {
            names,
            strings,
            declared,
            alloc: _,
        } = self;
        drop(names);
        drop(strings);
        drop(declared);
    }
}

impl Meanings {
    /// Nothing is declared yet.
    pub fn new(alloc: Global, keys: HashKeys) -> Meanings {
        Meanings {
            names: IndexMap::with_hasher(alloc, keys),
            strings: IndexMap::with_hasher(alloc, keys),
            declared: Vec::new(alloc),
            alloc,
        }
    }

    /// What is declared is what this table declares.
    pub fn of_table(alloc: Global, keys: HashKeys, table: &Table) -> Result<Meanings, AllocError> {
        let mut meanings = Meanings::new(alloc, keys);
        for item in table.declared() {
            meanings.know(item)?;
        }
        Ok(meanings)
    }

    // Knows a declaration of the table that is tailored.
    fn know(&mut self, item: DeclaredItem<'_>) -> Result<(), AllocError> {
        match item {
            DeclaredItem::Symbol(name) => self.mean(name, Meaning::Symbol, true),
            DeclaredItem::Element(name, text) => {
                self.know_string(name, text)?;
                self.mean(name, Meaning::Element, true)
            }
            DeclaredItem::Equivalence(name, symbol) => {
                let own = TextBuf::copied(self.alloc, symbol)?;
                self.mean(name, Meaning::Other(Id::Named(own)), true)
            }
        }
    }

    // What a name means, if it is declared.
    fn of(&self, name: &TextBuf) -> Option<&Meaning> {
        match self.names.get(name.get()) {
            Some(known) => Some(&known.meaning),
            None => None,
        }
    }

    /// Whether an identifier is a symbol's.
    pub fn is_symbol(&self, id: &Id) -> bool {
        match id {
            Id::Named(name) => matches!(self.of(name), Some(Meaning::Symbol)),
            Id::Char(_) | Id::Undefined => false,
        }
    }

    /// What an identifier stands for: itself, or what its name means.
    pub fn resolved(&self, id: Id) -> Result<Id, AllocError> {
        match self.other(&id) {
            Some(other) => {
                drop(id);
                other.clone()
            }
            None => Ok(id),
        }
    }

    /// An order line, whose identifier is what it stands for.
    pub fn meant(&self, line: OrderLine) -> Result<OrderLine, AllocError> {
        let OrderLine { id, weights } = line;
        match self.resolved(id) {
            Ok(id) => Ok(OrderLine { id, weights }),
            Err(error) => {
                drop(weights);
                Err(error)
            }
        }
    }

    /// What an identifier stands for, where that is something else.
    pub(crate) fn other(&self, id: &Id) -> Option<&Id> {
        match id {
            Id::Named(name) => match self.of(name) {
                Some(Meaning::Other(other)) => Some(other),
                _ => None,
            },
            Id::Char(_) | Id::Undefined => None,
        }
    }

    /// Takes the declarations of the source out, in their order.
    pub fn take_declared(&mut self) -> Vec<SourceStatement> {
        std::mem::replace(&mut self.declared, Vec::new(self.alloc))
    }

    /// Takes what these lines declare.
    pub fn take_all(
        &mut self,
        lines: &[SourceLine],
        report: &mut Report,
    ) -> Result<(), SourceFault> {
        for line in lines {
            self.take(line, report)?;
        }
        Ok(())
    }

    // Takes what a line declares.
    fn take(&mut self, line: &SourceLine, report: &mut Report) -> Result<(), SourceFault> {
        let place = line.place;
        let Said::Declares(declaration) = &line.said else {
            return Ok(());
        };
        match declaration {
            Declaration::Symbol(name) => self.symbol(place, name, report),
            Declaration::Symbols(range) => self.symbols(place, range, report),
            Declaration::Element { name, text } => self.element(place, name, text, report),
            Declaration::Equivalence { name, symbol } => self.second(place, name, symbol, report),
        }
    }

    /// Declares what has an order line and isn't declared, as a symbol.
    pub fn declare_placed(
        &mut self,
        place: SourcePlace,
        id: &Id,
        report: &mut Report,
    ) -> Result<(), SourceFault> {
        let Id::Named(name) = id else {
            return Ok(());
        };
        if self.of(name).is_some() {
            return Ok(());
        }
        report.count(Adjustment::UndeclaredDeclared, place)?;
        self.symbol(place, name, report)
    }

    // Declares a symbol, unless its name is declared already.
    fn symbol(
        &mut self,
        place: SourcePlace,
        name: &TextBuf,
        report: &mut Report,
    ) -> Result<(), SourceFault> {
        let alike = matches!(self.of(name), Some(Meaning::Symbol));
        if self.is_taken(place, name, alike, report)? {
            return Ok(());
        }
        let statement = Statement::Symbol(name.try_copy()?);
        self.declare(place, name, Meaning::Symbol, statement)
    }

    // Declares each symbol of a range.
    fn symbols(
        &mut self,
        place: SourcePlace,
        range: &NameRange,
        report: &mut Report,
    ) -> Result<(), SourceFault> {
        report.count(Adjustment::SymbolRange, place)?;
        for number in range.first..=range.last {
            let name = name_at(self.alloc, range, number)?;
            self.symbol(place, &name, report)?;
        }
        Ok(())
    }

    // Declares an element, or makes its name stand for something that is there.
    fn element(
        &mut self,
        place: SourcePlace,
        name: &TextBuf,
        text: &TextBuf,
        report: &mut Report,
    ) -> Result<(), SourceFault> {
        let alike = self.has_string(name, text);
        if self.is_taken(place, name, alike, report)? {
            return Ok(());
        }
        if text.get().chars().count() > MOST_ELEMENT_CHARS {
            return lose(report, Adjustment::Dropped, place, name);
        }
        match only_char(text.get()) {
            Some(c) => self.stand_for(place, name, Id::Char(c), Adjustment::ElementOfOne, report),
            None => self.longer_element(place, name, text, report),
        }
    }

    // Declares an element of more than one character, or makes its name stand for the element that has its string.
    fn longer_element(
        &mut self,
        place: SourcePlace,
        name: &TextBuf,
        text: &TextBuf,
        report: &mut Report,
    ) -> Result<(), SourceFault> {
        match self.with_string(text)? {
            Some(other) => {
                self.stand_for(place, name, other, Adjustment::ElementStringTwice, report)
            }
            None => self.declare_element(place, name, text),
        }
    }

    // Makes a name stand for something that is there.
    fn stand_for(
        &mut self,
        place: SourcePlace,
        name: &TextBuf,
        other: Id,
        adjustment: Adjustment,
        report: &mut Report,
    ) -> Result<(), SourceFault> {
        match report.count(adjustment, place) {
            Ok(()) => Ok(self.mean(name.get(), Meaning::Other(other), false)?),
            Err(error) => {
                drop(other);
                Err(SourceFault::from(error))
            }
        }
    }

    // The element that has a string, if one does.
    fn with_string(&self, text: &TextBuf) -> Result<Option<Id>, AllocError> {
        match self.strings.get(text.get()) {
            Some(name) => Ok(Some(Id::Named(name.try_copy()?))),
            None => Ok(None),
        }
    }

    // Declares an element whose string no other one has.
    fn declare_element(
        &mut self,
        place: SourcePlace,
        name: &TextBuf,
        text: &TextBuf,
    ) -> Result<(), SourceFault> {
        self.know_string(name.get(), text.get())?;
        let statement = Statement::Element {
            name: name.try_copy()?,
            text: text.try_copy()?,
        };
        self.declare(place, name, Meaning::Element, statement)
    }

    // Keeps the string of an element.
    fn know_string(&mut self, name: &str, text: &str) -> Result<(), AllocError> {
        let text = String::from_str(self.alloc, text)?;
        let owner = TextBuf::copied(self.alloc, name)?;
        drop(self.strings.insert(text, owner)?);
        Ok(())
    }

    // Declares a second name of a symbol.
    fn second(
        &mut self,
        place: SourcePlace,
        name: &TextBuf,
        symbol: &TextBuf,
        report: &mut Report,
    ) -> Result<(), SourceFault> {
        let Some(own) = self.own_symbol(symbol)? else {
            return lose(report, Adjustment::Dropped, place, name);
        };
        let alike = self.is_second_of(name, &own);
        match self.is_taken(place, name, alike, report) {
            Ok(false) => self.declare_second(place, name, own),
            Ok(true) => {
                drop(own);
                Ok(())
            }
            Err(fault) => {
                drop(own);
                Err(fault)
            }
        }
    }

    // Declares a second name of the symbol of this own name.
    fn declare_second(
        &mut self,
        place: SourcePlace,
        name: &TextBuf,
        own: TextBuf,
    ) -> Result<(), SourceFault> {
        match second_name(name, &own) {
            Ok(statement) => {
                self.declare(place, name, Meaning::Other(Id::Named(own)), statement)
            }
            Err(error) => {
                drop(own);
                Err(SourceFault::from(error))
            }
        }
    }

    // The own name of a symbol, if it is one.
    fn own_symbol(&self, symbol: &TextBuf) -> Result<Option<TextBuf>, AllocError> {
        match self.of(symbol) {
            Some(Meaning::Symbol) => Ok(Some(symbol.try_copy()?)),
            Some(Meaning::Other(Id::Named(own))) => match self.of(own) {
                Some(Meaning::Symbol) => Ok(Some(own.try_copy()?)),
                _ => Ok(None),
            },
            _ => Ok(None),
        }
    }

    // Whether the element of this name has this string.
    fn has_string(&self, name: &TextBuf, text: &TextBuf) -> bool {
        match self.strings.get(text.get()) {
            Some(owner) => owner.get() == name.get(),
            None => false,
        }
    }

    // Whether this is a second name of a symbol.
    fn is_second_of(&self, name: &TextBuf, own: &TextBuf) -> bool {
        match self.of(name) {
            Some(Meaning::Other(Id::Named(other))) => other.get() == own.get(),
            _ => false,
        }
    }

    // Whether a name can't be declared, since it is, or since it is no name. This is told, but where only the table that is tailored
    // declares it, and alike.
    fn is_taken(
        &mut self,
        place: SourcePlace,
        name: &TextBuf,
        alike: bool,
        report: &mut Report,
    ) -> Result<bool, SourceFault> {
        if !is_name(name.get()) {
            lose(report, Adjustment::Dropped, place, name)?;
            return Ok(true);
        }
        let Some(known) = self.names.get_mut(name.get()) else {
            return Ok(false);
        };
        let by_table = known.by_table;
        known.by_table = false;
        if by_table && alike {
            report.count(Adjustment::DeclaredAlready, place)?;
        } else if by_table {
            lose(report, Adjustment::DeclaredAlready, place, name)?;
        } else {
            lose(report, Adjustment::Dropped, place, name)?;
        }
        Ok(true)
    }

    // Puts a declaration behind all others.
    fn declare(
        &mut self,
        place: SourcePlace,
        name: &TextBuf,
        meaning: Meaning,
        statement: Statement,
    ) -> Result<(), SourceFault> {
        if self.declared.len() >= MOST_DECLARATIONS {
            drop(meaning);
            drop(statement);
            return Err(place.load_fault(LoadCause::Full));
        }
        match self.mean(name.get(), meaning, false) {
            Ok(()) => Ok(self.declared.push(SourceStatement { place, statement })?),
            Err(error) => {
                drop(statement);
                Err(SourceFault::from(error))
            }
        }
    }

    // Gives a name its meaning.
    fn mean(&mut self, name: &str, meaning: Meaning, by_table: bool) -> Result<(), AllocError> {
        match String::from_str(self.alloc, name) {
            Ok(name) => {
                drop(self.names.insert(name, Known { meaning, by_table })?);
                Ok(())
            }
            Err(error) => {
                drop(meaning);
                Err(error)
            }
        }
    }
}

// The statement that declares a second name of a symbol.
fn second_name(name: &TextBuf, symbol: &TextBuf) -> Result<Statement, AllocError> {
    Ok(Statement::Equivalence {
        name: name.try_copy()?,
        symbol: symbol.try_copy()?,
    })
}

// Tells that a declaration is left out.
fn lose(
    report: &mut Report,
    adjustment: Adjustment,
    place: SourcePlace,
    name: &TextBuf,
) -> Result<(), SourceFault> {
    let what = Lost::Id(Id::Named(name.try_copy()?));
    report.lose(adjustment, place, what)
}

// The character of a text that has no other.
fn only_char(text: &str) -> Option<char> {
    let mut letters = text.chars();
    let first = letters.next()?;
    match letters.next() {
        Some(_) => None,
        None => Some(first),
    }
}
