//! What each name of a source means, and what is declared: for meanings over a table that is tailored, and for those over none.
//!
//! A name means a symbol, an element, or something else under another name: a character, where the string of its element has that
//! one alone; another element, where that has its string; or a symbol, where it is a second name. The first declaration of a name
//! stands. Where a source tailors a table, the names of that table mean what they do there, and a declaration that the table has as
//! well is left out.
//!
//! What the table declares is not copied: it is asked name by name, and only what lines of the source declare is kept, of a name that
//! the table has too from its first such line on. So a source of a few lines costs what these lines take, however much the table has.
//! The strings of its elements, which it can't be asked for, are kept where the source declares an element. The table stands beside
//! the names and not in them, so that meanings over none have nothing of a table.
//!
//! What an order line names and is no name can't be declared. It is kept apart, so that it is found again where it is placed twice.

use crate::known_names::{Alike, EndedRange, KnownNames, Meaning, NameGuess, Taken};
use crate::placed::Found;
use crate::source_statements::{DeclaredRange, SourceStatement};
use crate::table_names::{
    is_symbol_of, is_symbol_of_table, meant_by_table, own_id_of_second, own_name, own_of_second,
};
use coll_lex::{TextBuf, is_name};
use coll_lookups::{HashKeys, NameKey, NameText, WordKeys};
use coll_nodes::{DeclaredItem, MOST_DECLARATIONS};
use coll_source_lines::{
    Adjustment, Declaration, Lost, NameRange, Report, Said, SourceFault, SourceLine, SourcePlace,
    name_at, spell_next,
};
use coll_syntax::{Id, MOST_ELEMENT_CHARS, OrderLine, Statement};
use coll_table::Table;
use coll_texts::LoadCause;
use indexmap::{IndexMap, IndexSet};
use std::alloc::{AllocError, Global};

/// All names that are declared. Of a name that isn't known here, the table is asked that is handed in, if there is one.
pub struct DeclaredNames {
    // What is known here.
    names: KnownNames,
    // What an order line names and is no name.
    no_names: IndexSet<NameKey, WordKeys>,
    // The name of the element of each string.
    strings: IndexMap<String, TextBuf, WordKeys>,
    // Whether the strings of the table are still to be kept.
    wants_strings: bool,
    // What lines of the source declare, one by one, and the ranges of names that stand among that.
    declared: Vec<SourceStatement>,
    ranges: Vec<DeclaredRange>,
    // Whether a range may be kept as it is.
    keeps_ranges: bool,
    alloc: Global,
}

// Written out, so that each place that drops one is one call, with no step for each part.
impl Drop for DeclaredNames {
    fn drop(self) {
        let DeclaredNames {
            names,
            no_names,
            strings,
            wants_strings: _,
            declared,
            ranges,
            keeps_ranges: _,
            alloc: _,
        } = self;
        drop(names);
        drop(no_names);
        drop(strings);
        drop(declared);
        drop(ranges);
    }
}

impl DeclaredNames {
    /// Nothing is known yet. A range of names is kept as it is, where it can be, if that is wanted.
    pub fn new(alloc: Global, keys: HashKeys, keeps_ranges: bool) -> DeclaredNames {
        DeclaredNames {
            names: KnownNames::new(alloc, keys),
            no_names: IndexSet::with_hasher(alloc, WordKeys::new(keys)),
            strings: IndexMap::with_hasher(alloc, WordKeys::new(keys)),
            wants_strings: true,
            declared: Vec::new(alloc),
            ranges: Vec::new(alloc),
            keeps_ranges,
            alloc,
        }
    }

    /// Knows a declaration of a table that is tailored and isn't asked.
    pub fn know(&mut self, item: DeclaredItem<'_>) -> Result<(), AllocError> {
        match item {
            DeclaredItem::Symbol(name) => self.know_name(name, Meaning::Symbol),
            DeclaredItem::Element(name, text) => {
                self.know_string(name, text)?;
                self.know_name(name, Meaning::Element)
            }
            DeclaredItem::Equivalence(name, symbol) => {
                let own = TextBuf::copied(self.alloc, symbol)?;
                self.know_name(name, Meaning::Other(Id::Named(own)))
            }
        }
    }

    // Gives a name the meaning that it has in a table.
    fn know_name(&mut self, name: &str, meaning: Meaning) -> Result<(), AllocError> {
        match TextBuf::copied(self.alloc, name) {
            Ok(name) => {
                let known = self.names.mean(&name, meaning, true);
                drop(name);
                known
            }
            Err(error) => {
                drop(meaning);
                Err(error)
            }
        }
    }

    /// Whether an identifier is a symbol's.
    pub fn is_symbol(&self, table: Option<&Table>, id: &Id) -> bool {
        match id {
            Id::Named(name) => match self.names.get(name.get()) {
                Some(known) => matches!(known.meaning, Meaning::Symbol),
                None => is_symbol_of(table, id),
            },
            Id::Char(_) | Id::Undefined => false,
        }
    }

    /// What is found of an identifier here, whatever a table declares.
    pub fn found(&self, id: &Id) -> Found {
        match id {
            Id::Char(c) => Found::Char(*c),
            Id::Named(name) => self.or_no_name(name.get(), self.names.found(name.get())),
            Id::Undefined => Found::Undefined,
        }
    }

    /// What is found of an identifier here, as `found` tells it. A name is looked for at a guess first, which is what came in behind it
    /// then.
    pub fn found_behind(&self, id: &Id, guess: &mut NameGuess) -> Found {
        match id {
            Id::Named(name) => {
                let found = self.names.found_behind(name.get(), guess);
                self.or_no_name(name.get(), found)
            }
            _ => self.found(id),
        }
    }

    // What is found of a name, of which this is found among those that are declared.
    fn or_no_name(&self, name: &str, found: Found) -> Found {
        match found {
            Found::Unknown => match self.no_names.get_index_of(NameText { text: name }) {
                Some(number) => Found::NoName(number),
                None => Found::Unknown,
            },
            found => found,
        }
    }

    /// What is known of names here.
    #[inline]
    pub fn known(&self) -> &KnownNames {
        &self.names
    }

    /// What an identifier stands for: itself, or what its name means.
    pub fn resolved(&self, table: Option<&Table>, id: Id) -> Result<Id, AllocError> {
        match self.other(table, &id) {
            Ok(Some(other)) => {
                drop(id);
                Ok(other)
            }
            Ok(None) => Ok(id),
            Err(error) => {
                drop(id);
                Err(error)
            }
        }
    }

    /// An order line, whose identifier is what it stands for.
    pub fn meant(&self, table: Option<&Table>, line: OrderLine) -> Result<OrderLine, AllocError> {
        let OrderLine { id, weights } = line;
        match self.resolved(table, id) {
            Ok(id) => Ok(OrderLine { id, weights }),
            Err(error) => {
                drop(weights);
                Err(error)
            }
        }
    }

    /// Whether an identifier stands for itself.
    pub fn stands_for_itself(&self, table: Option<&Table>, id: &Id) -> bool {
        let Id::Named(name) = id else {
            return true;
        };
        match self.names.get(name.get()) {
            Some(known) => !matches!(known.meaning, Meaning::Other(_)),
            None => own_of_second(table, name.get()).is_none(),
        }
    }

    // What an identifier stands for, in new memory, where that is something else.
    fn other(&self, table: Option<&Table>, id: &Id) -> Result<Option<Id>, AllocError> {
        let Id::Named(name) = id else {
            return Ok(None);
        };
        match self.names.get(name.get()) {
            Some(known) => copied_other(&known.meaning),
            None => own_id_of_second(self.alloc, table, name.get()),
        }
    }

    /// Takes the declarations of the source out, in their order.
    pub fn take_declared(&mut self) -> Vec<SourceStatement> {
        std::mem::replace(&mut self.declared, Vec::new(self.alloc))
    }

    /// Takes the ranges of names that were kept as they are out, in their order.
    pub fn take_ranges(&mut self) -> Vec<DeclaredRange> {
        std::mem::replace(&mut self.ranges, Vec::new(self.alloc))
    }

    // How many names are declared by lines of the source.
    fn count(&self) -> usize {
        self.declared.len().saturating_add(self.names.in_ranges())
    }

    /// Takes what these lines declare.
    pub fn take_all(
        &mut self,
        table: Option<&Table>,
        lines: &[SourceLine],
        report: &mut Report,
    ) -> Result<(), SourceFault> {
        for line in lines {
            self.take(table, line, report)?;
        }
        Ok(())
    }

    // Takes what a line declares.
    fn take(
        &mut self,
        table: Option<&Table>,
        line: &SourceLine,
        report: &mut Report,
    ) -> Result<(), SourceFault> {
        let place = line.place;
        let Said::Declares(declaration) = &line.said else {
            return Ok(());
        };
        match declaration {
            Declaration::Symbol(name) => self.symbol(table, place, name, report),
            Declaration::Symbols(range) => self.symbols(table, place, range, report),
            Declaration::Element { name, text } => self.element(table, place, name, text, report),
            Declaration::Equivalence { name, symbol } => self.second(
                table, place, name, symbol, report,
            ),
        }
    }

    /// Declares what has an order line and isn't declared, as a symbol.
    pub fn declare_placed(
        &mut self,
        table: Option<&Table>,
        place: SourcePlace,
        id: &Id,
        report: &mut Report,
    ) -> Result<(), SourceFault> {
        let Id::Named(name) = id else {
            return Ok(());
        };
        if self.is_declared(table, name.get()) {
            return Ok(());
        }
        report.count(Adjustment::UndeclaredDeclared, place)?;
        self.symbol(table, place, name, report)?;
        if !is_name(name.get()) {
            self.no_names.insert(NameKey::copied(name)?)?;
        }
        Ok(())
    }

    // Whether a name is declared.
    fn is_declared(&self, table: Option<&Table>, name: &str) -> bool {
        self.names.contains(name) || own_name(table, name).is_some()
    }

    // Declares a symbol, unless its name is declared already.
    fn symbol(
        &mut self,
        table: Option<&Table>,
        place: SourcePlace,
        name: &TextBuf,
        report: &mut Report,
    ) -> Result<(), SourceFault> {
        if table.is_none() && self.count() < MOST_DECLARATIONS && is_name(name.get()) {
            return self.first_symbol(place, name, report);
        }
        if self.is_taken(table, place, name, Alike::IfSymbol, report)? {
            return Ok(());
        }
        let statement = Statement::Symbol(name.try_copy()?);
        self.declare(place, name, Meaning::Symbol, statement)
    }

    // Declares a symbol over no table, where there is room, unless its name is declared already: one look-up asks that, and puts it in.
    fn first_symbol(
        &mut self,
        place: SourcePlace,
        name: &TextBuf,
        report: &mut Report,
    ) -> Result<(), SourceFault> {
        let copy = name.try_copy()?;
        match self.names.mean_symbol(name) {
            Ok(None) => Ok(
                self.declared.push(SourceStatement {
                    place,
                    statement: Statement::Symbol(copy),
                })?,
            ),
            Ok(Some(taken)) => tell_symbol_taken(report, place, copy, taken),
            Err(error) => {
                drop(copy);
                Err(SourceFault::from(error))
            }
        }
    }

    // Declares each symbol of a range.
    fn symbols(
        &mut self,
        table: Option<&Table>,
        place: SourcePlace,
        range: &NameRange,
        report: &mut Report,
    ) -> Result<(), SourceFault> {
        report.count(Adjustment::SymbolRange, place)?;
        if table.is_none() {
            if let Some(ended) = self.range_to_keep(range)? {
                return Ok(self.keep_range(place, ended)?);
            }
        }
        let mut room = String::new(self.alloc);
        for number in range.first..=range.last {
            spell_next(&mut room, range, number)?;
            let name = TextBuf::copied(self.alloc, room.as_str())?;
            self.symbol(table, place, &name, report)?;
        }
        Ok(())
    }

    // A range as it is kept, if it is: all its names can be declared, and none is. They are all alike in whether they are names.
    fn range_to_keep(&self, names: &NameRange) -> Result<Option<EndedRange>, AllocError> {
        if !self.keeps_ranges
            || self.count().saturating_add(names.count()) > MOST_DECLARATIONS
            || !self.names.has_room_for(names)
        {
            return Ok(None);
        }
        let range = ended_range(self.alloc, names)?;
        if self.names.are_unknown(&range) && is_name(range.first.get()) {
            return Ok(Some(range));
        }
        drop(range);
        Ok(None)
    }

    // Declares each symbol of a range, which is kept as it is.
    fn keep_range(&mut self, place: SourcePlace, range: EndedRange) -> Result<(), AllocError> {
        match range.names.try_copy() {
            Ok(names) => {
                let before = self.declared.len();
                self.put_range(
                    range,
                    DeclaredRange {
                        place,
                        names,
                        before,
                    },
                )
            }
            Err(error) => {
                drop(range);
                Err(error)
            }
        }
    }

    // Knows the names of a range, and puts it behind all others. Where memory is refused, neither is done.
    fn put_range(&mut self, range: EndedRange, declared: DeclaredRange) -> Result<(), AllocError> {
        if let Err(error) = self.ranges.reserve(1) {
            drop(range);
            drop(declared);
            return Err(error);
        }
        match self.names.put_range(range) {
            Ok(()) => {
                self.ranges.push_reserved(declared);
                Ok(())
            }
            Err(error) => {
                drop(declared);
                Err(error)
            }
        }
    }

    // Declares an element, or makes its name stand for something that is there.
    fn element(
        &mut self,
        table: Option<&Table>,
        place: SourcePlace,
        name: &TextBuf,
        text: &TextBuf,
        report: &mut Report,
    ) -> Result<(), SourceFault> {
        self.know_strings(table)?;
        let alike = Alike::Known(self.has_string(name, text));
        if self.is_taken(table, place, name, alike, report)? {
            return Ok(());
        }
        if text.get().chars().count() > MOST_ELEMENT_CHARS {
            return lose(report, Adjustment::Dropped, place, name);
        }
        match only_char(text.get()) {
            Some(c) => self.stand_for(place, name, Id::Char(c), Adjustment::ElementOfOne, report),
            None => self.longer_element(place, name, text, report),
        }
    }

    // Declares an element of more than one character, or makes its name stand for the element that has its string.
    fn longer_element(
        &mut self,
        place: SourcePlace,
        name: &TextBuf,
        text: &TextBuf,
        report: &mut Report,
    ) -> Result<(), SourceFault> {
        match self.with_string(text)? {
            Some(other) => {
                self.stand_for(place, name, other, Adjustment::ElementStringTwice, report)
            }
            None => self.declare_element(place, name, text),
        }
    }

    // Makes a name stand for something that is there.
    fn stand_for(
        &mut self,
        place: SourcePlace,
        name: &TextBuf,
        other: Id,
        adjustment: Adjustment,
        report: &mut Report,
    ) -> Result<(), SourceFault> {
        match report.count(adjustment, place) {
            Ok(()) => Ok(self.names.mean(name, Meaning::Other(other), false)?),
            Err(error) => {
                drop(other);
                Err(SourceFault::from(error))
            }
        }
    }

    // The element that has a string, if one does.
    fn with_string(&self, text: &TextBuf) -> Result<Option<Id>, AllocError> {
        match self.strings.get(text.get()) {
            Some(name) => Ok(Some(Id::Named(name.try_copy()?))),
            None => Ok(None),
        }
    }

    // Declares an element whose string no other one has.
    fn declare_element(
        &mut self,
        place: SourcePlace,
        name: &TextBuf,
        text: &TextBuf,
    ) -> Result<(), SourceFault> {
        self.know_string(name.get(), text.get())?;
        let statement = Statement::Element {
            name: name.try_copy()?,
            text: text.try_copy()?,
        };
        self.declare(place, name, Meaning::Element, statement)
    }

    // Keeps the strings of the elements of the table, once.
    fn know_strings(&mut self, table: Option<&Table>) -> Result<(), AllocError> {
        if !self.wants_strings {
            return Ok(());
        }
        if let Some(table) = table {
            self.know_all_strings(table)?;
        }
        self.wants_strings = false;
        Ok(())
    }

    // Keeps the strings of the elements of a table.
    fn know_all_strings(&mut self, table: &Table) -> Result<(), AllocError> {
        for item in table.declared() {
            if let DeclaredItem::Element(name, text) = item {
                self.know_string(name, text)?;
            }
        }
        Ok(())
    }

    // Keeps the string of an element.
    fn know_string(&mut self, name: &str, text: &str) -> Result<(), AllocError> {
        let text = String::from_str(self.alloc, text)?;
        let owner = TextBuf::copied(self.alloc, name)?;
        drop(self.strings.insert(text, owner)?);
        Ok(())
    }

    // Declares a second name of a symbol.
    fn second(
        &mut self,
        table: Option<&Table>,
        place: SourcePlace,
        name: &TextBuf,
        symbol: &TextBuf,
        report: &mut Report,
    ) -> Result<(), SourceFault> {
        let Some(own) = self.own_symbol(table, symbol)? else {
            return lose(report, Adjustment::Dropped, place, name);
        };
        let alike = Alike::Known(self.is_second_of(table, name, &own));
        match self.is_taken(table, place, name, alike, report) {
            Ok(false) => self.declare_second(place, name, own),
            Ok(true) => {
                drop(own);
                Ok(())
            }
            Err(fault) => {
                drop(own);
                Err(fault)
            }
        }
    }

    // Declares a second name of the symbol of this own name.
    fn declare_second(
        &mut self,
        place: SourcePlace,
        name: &TextBuf,
        own: TextBuf,
    ) -> Result<(), SourceFault> {
        match second_name(name, &own) {
            Ok(statement) => {
                self.declare(place, name, Meaning::Other(Id::Named(own)), statement)
            }
            Err(error) => {
                drop(own);
                Err(SourceFault::from(error))
            }
        }
    }

    // The own name of a symbol, if it is one.
    fn own_symbol(
        &self,
        table: Option<&Table>,
        symbol: &TextBuf,
    ) -> Result<Option<TextBuf>, AllocError> {
        if self.means_symbol(table, symbol)? {
            return Ok(Some(symbol.try_copy()?));
        }
        match self.other_name(table, symbol) {
            Some(own) => self.if_symbol(table, TextBuf::copied(self.alloc, own)?),
            None => Ok(None),
        }
    }

    // A name, if it means a symbol.
    fn if_symbol(
        &self,
        table: Option<&Table>,
        name: TextBuf,
    ) -> Result<Option<TextBuf>, AllocError> {
        match self.means_symbol(table, &name) {
            Ok(true) => Ok(Some(name)),
            Ok(false) => {
                drop(name);
                Ok(None)
            }
            Err(error) => {
                drop(name);
                Err(error)
            }
        }
    }

    // Whether a name means a symbol.
    fn means_symbol(&self, table: Option<&Table>, name: &TextBuf) -> Result<bool, AllocError> {
        match self.names.get(name.get()) {
            Some(known) => Ok(matches!(known.meaning, Meaning::Symbol)),
            None => is_symbol_of_table(table, name),
        }
    }

    // The name that a name stands for, if it stands for one.
    fn other_name<'a>(&'a self, table: Option<&'a Table>, name: &TextBuf) -> Option<&'a str> {
        match self.names.get(name.get()) {
            Some(known) => name_meant(&known.meaning),
            None => own_of_second(table, name.get()),
        }
    }

    // Whether the element of this name has this string.
    fn has_string(&self, name: &TextBuf, text: &TextBuf) -> bool {
        match self.strings.get(text.get()) {
            Some(owner) => owner.get() == name.get(),
            None => false,
        }
    }

    // Whether this is a second name of a symbol.
    fn is_second_of(&self, table: Option<&Table>, name: &TextBuf, own: &TextBuf) -> bool {
        match self.other_name(table, name) {
            Some(other) => other == own.get(),
            None => false,
        }
    }

    // Whether a name can't be declared, since it is, or since it is no name. This is told, but where only the table that is tailored
    // declares it, and alike.
    fn is_taken(
        &mut self,
        table: Option<&Table>,
        place: SourcePlace,
        name: &TextBuf,
        alike: Alike,
        report: &mut Report,
    ) -> Result<bool, SourceFault> {
        if !is_name(name.get()) {
            lose(report, Adjustment::Dropped, place, name)?;
            return Ok(true);
        }
        let Some(taken) = self.taken_by(table, name)? else {
            return Ok(false);
        };
        tell_taken(report, place, name, taken, alike)?;
        Ok(true)
    }

    // What has declared a name, if anything has. From now on a line of the source has.
    fn taken_by(
        &mut self,
        table: Option<&Table>,
        name: &TextBuf,
    ) -> Result<Option<Taken>, AllocError> {
        if let Some(taken) = self.names.take_by_source(name.get()) {
            return Ok(Some(taken));
        }
        match meant_by_table(self.alloc, table, name)? {
            Some(meaning) => {
                let is_symbol = matches!(meaning, Meaning::Symbol);
                self.names.mean(name, meaning, false)?;
                Ok(Some(Taken {
                    by_table: true,
                    is_symbol,
                }))
            }
            None => Ok(None),
        }
    }

    // Puts a declaration behind all others.
    fn declare(
        &mut self,
        place: SourcePlace,
        name: &TextBuf,
        meaning: Meaning,
        statement: Statement,
    ) -> Result<(), SourceFault> {
        if self.count() >= MOST_DECLARATIONS {
            drop(meaning);
            drop(statement);
            return Err(place.load_fault(LoadCause::Full));
        }
        match self.names.mean(name, meaning, false) {
            Ok(()) => Ok(self.declared.push(SourceStatement { place, statement })?),
            Err(error) => {
                drop(statement);
                Err(SourceFault::from(error))
            }
        }
    }
}

// A copy of a range, with the first and the last of its names.
fn ended_range(alloc: Global, names: &NameRange) -> Result<EndedRange, AllocError> {
    let first = name_at(alloc, names, names.first)?;
    let last = name_at(alloc, names, names.last)?;
    Ok(EndedRange {
        first,
        last,
        names: names.try_copy()?,
    })
}

// What a meaning stands for, in new memory, where that is something else.
fn copied_other(meaning: &Meaning) -> Result<Option<Id>, AllocError> {
    match meaning {
        Meaning::Other(other) => Ok(Some(other.clone()?)),
        Meaning::Symbol | Meaning::Element => Ok(None),
    }
}

// The name that a meaning stands for, if it stands for one.
fn name_meant(meaning: &Meaning) -> Option<&str> {
    match meaning {
        Meaning::Other(Id::Named(other)) => Some(other.get()),
        _ => None,
    }
}

// The statement that declares a second name of a symbol.
fn second_name(name: &TextBuf, symbol: &TextBuf) -> Result<Statement, AllocError> {
    Ok(Statement::Equivalence {
        name: name.try_copy()?,
        symbol: symbol.try_copy()?,
    })
}

// What kind of loss it is that a declaration is left out, since this has declared its name; none where the table that is tailored has, and
// alike.
fn loss_of(taken: Taken, alike: Alike) -> Option<Adjustment> {
    if !taken.by_table {
        return Some(Adjustment::Dropped);
    }
    if alike.is_told_by(taken) {
        return None;
    }
    Some(Adjustment::DeclaredAlready)
}

// Tells that a declaration is left out, since this has declared its name.
fn tell_taken(
    report: &mut Report,
    place: SourcePlace,
    name: &TextBuf,
    taken: Taken,
    alike: Alike,
) -> Result<(), SourceFault> {
    match loss_of(taken, alike) {
        Some(adjustment) => lose(report, adjustment, place, name),
        None => Ok(report.count(Adjustment::DeclaredAlready, place)?),
    }
}

// Tells that the declaration of a symbol of this name is left out, since this has declared it.
fn tell_symbol_taken(
    report: &mut Report,
    place: SourcePlace,
    name: TextBuf,
    taken: Taken,
) -> Result<(), SourceFault> {
    match loss_of(taken, Alike::IfSymbol) {
        Some(adjustment) => report.lose(adjustment, place, Lost::Id(Id::Named(name))),
        None => {
            drop(name);
            Ok(report.count(Adjustment::DeclaredAlready, place)?)
        }
    }
}

// Tells that a declaration is left out.
fn lose(
    report: &mut Report,
    adjustment: Adjustment,
    place: SourcePlace,
    name: &TextBuf,
) -> Result<(), SourceFault> {
    let what = Lost::Id(Id::Named(name.try_copy()?));
    report.lose(adjustment, place, what)
}

// The character of a text that has no other.
fn only_char(text: &str) -> Option<char> {
    let mut letters = text.chars();
    let first = letters.next()?;
    match letters.next() {
        Some(_) => None,
        None => Some(first),
    }
}
