//! The forms in which a source has a meaning, each with what it places: that of the test, and those of `coll_meanings`.

use crate::meanings::simple_meanings::Meanings as SimpleMeanings;
use crate::meanings::simple_weights::{
    WeightLookUp as SimpleLookUp, without_symbol_weights as simple_without_symbol_weights,
};
use coll_lookups::IdSet;
use coll_meanings::{
    LastNames, Meanings, PlacedLookUp, SourceIds, TableMeanings, TailoredLookUp, WeightLookUp,
    without_symbol_weights, without_weights_of_symbol,
};
use coll_source_lines::{Report, SourceFault, SourceLine, SourcePlace, name_at};
use coll_source_names::{DeclaredRange, NameGuess, Placed, SourceStatement};
use coll_syntax::{Id, OrderLine, Statement};
use coll_table::{HashKeys, Table};
use std::alloc::{AllocError, Global};
use std::process::Abort;
use std::vec::IntoIter;

// How many weights an entry may have.
const LEVELS: usize = 3;

/// An order line that is placed, whether its identifier wasn't placed before, and why it couldn't be declared, if it couldn't.
pub type PlacedLine = (OrderLine, bool, Option<SourceFault>);

/// An order line, and whether all that its weights named was placed, and stands for nothing else.
pub type WeighedLine = (OrderLine, bool);

/// What a source means, and what it places.
pub trait Form: Drop {
    /// Takes what these lines declare.
    fn take(&mut self, lines: &[SourceLine], report: &mut Report) -> Result<(), SourceFault>;

    /// What an identifier stands for, and whether it is a symbol's itself.
    fn meaning(&self, id: &Id) -> Result<(Id, bool), AllocError>;

    /// An order line, whose identifier is what it stands for.
    fn meant(&self, line: OrderLine) -> Result<OrderLine, AllocError>;

    /// Declares what has an order line and isn't declared, and places the line, without the weights of a symbol.
    fn put(
        &mut self,
        place: SourcePlace,
        line: OrderLine,
        report: &mut Report,
    ) -> Result<PlacedLine, SourceFault>;

    /// An order line whose weights name what is placed.
    fn weighed(
        &mut self,
        place: SourcePlace,
        line: OrderLine,
        report: &mut Report,
    ) -> Result<WeighedLine, SourceFault>;

    /// What lines declare, one by one.
    fn declared(&mut self) -> Result<Vec<SourceStatement>, AllocError>;
}

/// The simple form.
#[derive(Drop)]
pub struct Simple {
    meanings: SimpleMeanings,
    placed: IdSet,
    alloc: Global,
}

impl Form for Simple {
    fn take(&mut self, lines: &[SourceLine], report: &mut Report) -> Result<(), SourceFault> {
        self.meanings.take_all(lines, report)
    }

    fn meaning(&self, id: &Id) -> Result<(Id, bool), AllocError> {
        let other = self.meanings.resolved(id.clone()?)?;
        Ok((other, self.meanings.is_symbol(id)))
    }

    fn meant(&self, line: OrderLine) -> Result<OrderLine, AllocError> {
        self.meanings.meant(line)
    }

    fn put(
        &mut self,
        place: SourcePlace,
        line: OrderLine,
        report: &mut Report,
    ) -> Result<PlacedLine, SourceFault> {
        let fault = self.meanings.declare_placed(place, &line.id, report).err();
        let line = simple_without_symbol_weights(&self.meanings, place, line, report)?;
        let is_new = self.placed.put_free(&line.id)?;
        Ok((line, is_new, fault))
    }

    fn weighed(
        &mut self,
        place: SourcePlace,
        line: OrderLine,
        report: &mut Report,
    ) -> Result<WeighedLine, SourceFault> {
        let look_up = SimpleLookUp {
            meanings: &self.meanings,
            placed: &self.placed,
            levels: LEVELS,
            alloc: self.alloc,
        };
        let stays = match &line.weights {
            Some(weights) => look_up.all_stay(weights.get()),
            None => true,
        };
        Ok((look_up.line(place, line, report)?, stays))
    }

    fn declared(&mut self) -> Result<Vec<SourceStatement>, AllocError> {
        Ok(self.meanings.take_declared())
    }
}

/// Names by what is kept of them.
#[derive(Drop)]
pub struct Named {
    meanings: Meanings,
    // Whether ranges are kept as they are, and what is placed goes by what is found of it.
    keeps_ranges: bool,
    placed: Placed,
    // The same by identifier.
    ids: IdSet,
    guess: NameGuess,
    last: LastNames,
    alloc: Global,
}

impl Form for Named {
    fn take(&mut self, lines: &[SourceLine], report: &mut Report) -> Result<(), SourceFault> {
        self.meanings.take_all(lines, report)
    }

    fn meaning(&self, id: &Id) -> Result<(Id, bool), AllocError> {
        let other = self.meanings.resolved(id.clone()?)?;
        Ok((other, self.meanings.is_symbol(id)))
    }

    fn meant(&self, line: OrderLine) -> Result<OrderLine, AllocError> {
        self.meanings.meant(line)
    }

    fn put(
        &mut self,
        place: SourcePlace,
        line: OrderLine,
        report: &mut Report,
    ) -> Result<PlacedLine, SourceFault> {
        let fault = self.meanings.declare_placed(place, &line.id, report).err();
        let line = without_symbol_weights(&self.meanings, place, line, report)?;
        let mut is_new = self.ids.put_free(&line.id)?;
        if self.keeps_ranges {
            let found = self.meanings.found_behind(&line.id, &mut self.guess);
            is_new = self.placed.put(found)?;
        }
        Ok((line, is_new, fault))
    }

    fn weighed(
        &mut self,
        place: SourcePlace,
        line: OrderLine,
        report: &mut Report,
    ) -> Result<WeighedLine, SourceFault> {
        let by_name = WeightLookUp {
            meanings: &self.meanings,
            placed: &self.ids,
            levels: LEVELS,
            alloc: self.alloc,
        };
        let stays = match &line.weights {
            Some(weights) => by_name.all_stay(weights.get()),
            None => true,
        };
        if !self.keeps_ranges {
            return Ok((by_name.line(place, line, report)?, stays));
        }
        let by_number = PlacedLookUp {
            meanings: &self.meanings,
            placed: &self.placed,
            levels: LEVELS,
            alloc: self.alloc,
        };
        Ok((by_number.line(place, line, &mut self.last, report)?, stays))
    }

    fn declared(&mut self) -> Result<Vec<SourceStatement>, AllocError> {
        let mut alone = self.meanings.take_declared().into_iter();
        let ranges = self.meanings.take_ranges();
        let all = all_declared(self.alloc, &mut alone, &ranges);
        drop(ranges);
        drop(alone);
        all
    }
}

// What is declared alone and in ranges, in its order.
fn all_declared(
    alloc: Global,
    alone: &mut IntoIter<SourceStatement>,
    ranges: &[DeclaredRange],
) -> Result<Vec<SourceStatement>, AllocError> {
    let mut all = Vec::new(alloc);
    let mut passed = 0usize;
    for range in ranges {
        put_some(&mut all, alone, range.before.saturating_sub(passed))?;
        passed = range.before;
        put_range(alloc, &mut all, range)?;
    }
    put_some(&mut all, alone, usize::MAX)?;
    Ok(all)
}

// Puts so many of these behind others, or all that are left.
fn put_some(
    all: &mut Vec<SourceStatement>,
    left: &mut IntoIter<SourceStatement>,
    count: usize,
) -> Result<(), AllocError> {
    for _ in 0..count {
        match left.next() {
            Some(statement) => all.push(statement)?,
            None => return Ok(()),
        }
    }
    Ok(())
}

// Puts each name of a range behind others.
fn put_range(
    alloc: Global,
    all: &mut Vec<SourceStatement>,
    range: &DeclaredRange,
) -> Result<(), AllocError> {
    for number in range.names.first..=range.names.last {
        let name = name_at(alloc, &range.names, number)?;
        all.push(SourceStatement {
            place: range.place,
            statement: Statement::Symbol(name),
        })?;
    }
    Ok(())
}

/// A table that is asked, and what is placed beside what it places.
#[derive(Drop)]
pub struct Tailored<'t> {
    meanings: TableMeanings<'t>,
    placed: SourceIds,
    alloc: Global,
}

impl Form for Tailored<'_> {
    fn take(&mut self, lines: &[SourceLine], report: &mut Report) -> Result<(), SourceFault> {
        self.meanings.take_all(lines, report)
    }

    fn meaning(&self, id: &Id) -> Result<(Id, bool), AllocError> {
        let other = self.meanings.resolved(id.clone()?)?;
        Ok((other, self.meanings.is_symbol(id)))
    }

    fn meant(&self, line: OrderLine) -> Result<OrderLine, AllocError> {
        self.meanings.meant(line)
    }

    fn put(
        &mut self,
        place: SourcePlace,
        line: OrderLine,
        report: &mut Report,
    ) -> Result<PlacedLine, SourceFault> {
        let fault = self.meanings.declare_placed(place, &line.id, report).err();
        let line = without_weights_of_symbol(&self.meanings, place, line, report)?;
        let look_up = TailoredLookUp {
            meanings: &self.meanings,
            placed: &self.placed,
            levels: LEVELS,
            alloc: self.alloc,
        };
        let is_placed = look_up.is_placed(&line.id);
        self.placed.put(&line.id)?;
        Ok((line, !is_placed, fault))
    }

    fn weighed(
        &mut self,
        place: SourcePlace,
        line: OrderLine,
        report: &mut Report,
    ) -> Result<WeighedLine, SourceFault> {
        let look_up = TailoredLookUp {
            meanings: &self.meanings,
            placed: &self.placed,
            levels: LEVELS,
            alloc: self.alloc,
        };
        let stays = match &line.weights {
            Some(weights) => look_up.all_stay(weights.get()),
            None => true,
        };
        Ok((look_up.line(place, line, report)?, stays))
    }

    fn declared(&mut self) -> Result<Vec<SourceStatement>, AllocError> {
        Ok(self.meanings.take_declared())
    }
}

/// The simple form, over a table of which these are placed, if one is given.
pub fn simple_form(rt: &impl Abort, alloc: Global, table: Option<&Table>, placed: &[Id]) -> Simple {
    let keys = HashKeys::zeros();
    let meanings = match table {
        Some(table) => SimpleMeanings::of_table(alloc, keys, table).expect(rt, "meanings"),
        None => SimpleMeanings::new(alloc, keys),
    };
    Simple {
        meanings,
        placed: set_of(rt, alloc, placed),
        alloc,
    }
}

/// Names one by one, over a table of which these are placed, if one is given; or else ranges as they are, where they can be, and what is
/// placed by what was found of it.
pub fn named_form(
    rt: &impl Abort,
    alloc: Global,
    table: Option<&Table>,
    placed: &[Id],
    keeps_ranges: bool,
) -> Named {
    let keys = HashKeys::zeros();
    let meanings = match table {
        Some(table) => Meanings::of_table(alloc, keys, table).expect(rt, "meanings"),
        None if keeps_ranges => Meanings::keeping_ranges(alloc, keys),
        None => Meanings::new(alloc, keys),
    };
    Named {
        meanings,
        keeps_ranges,
        placed: Placed::new(alloc, keys),
        ids: set_of(rt, alloc, placed),
        guess: NameGuess::new(),
        last: LastNames::new(alloc),
        alloc,
    }
}

/// What is declared and placed is what a table declares and places.
pub fn tailored_form(alloc: Global, table: &Table) -> Tailored<'_> {
    let keys = HashKeys::zeros();
    Tailored {
        meanings: TableMeanings::new(alloc, keys, table),
        placed: SourceIds::new(alloc, keys),
        alloc,
    }
}

// These identifiers.
fn set_of(rt: &impl Abort, alloc: Global, ids: &[Id]) -> IdSet {
    let mut set = IdSet::new(alloc, HashKeys::zeros());
    for id in ids {
        set.insert(id).expect(rt, "an identifier");
    }
    set
}
