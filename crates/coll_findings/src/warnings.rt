//! What a text says to no purpose, gathered by kinds.
//!
//! Of each kind it is told how many warnings there are, and which are the first, so a text with many of them takes no more memory than
//! one with five. A new kind is a variant of `Warning`, a field of `Warnings` and a case of `Warns` (`specs/GatheredWarnings.antt`), with
//! its words in `warning_lines` and `specs/WarningLines.antt` of `coll_lint`.

ghost use Rattle.std.specs.Prelude.{◌≡◌, [], IfOk, OnOk};
ghost use Rattle.std.specs.Option.{option_map};
ghost use Rattle.coll_findings.specs.GatheredWarnings.{AddsOne, Warns};

use coll_syntax::Id;
use std::alloc::{AllocError, Global};

// Most warnings of a kind that are kept.
const MOST_FIRSTS: usize = 5;

/// A kind of warnings: what a line says to no purpose.
#[derive(Clone, Copy, Drop)]
pub enum Warning {
    /// `copy` in a delta file.
    CopyWithoutEffect,
    /// `script`.
    ScriptWithoutEffect,
    /// A symbol is declared that has no entry.
    SymbolNeverPlaced,
    /// A collating element is declared that has no entry.
    ElementNeverPlaced,
    /// A statement leaves the table as it was.
    ChangesNothing,
    /// An order line begins with `%`, which begins no comment there.
    PercentSign,
    /// An order line gives weights, and none for more levels than the last (`lacks_weights`).
    LacksWeights,
    /// A line of a block has its entry stand where it seems to sort and doesn't (`is_misplaced`).
    SortsElsewhere,
    /// So it is with a line of a symbol.
    SymbolElsewhere,
}

/// A warning: where it belongs, and what it is about.
#[derive(Drop)]
pub struct Warned {
    /// The number of the line, from 1.
    pub line: u32,
    /// The name that it is about, if it is about one.
    pub id: Option<Id>,
}

/// The warnings of a kind.
#[derive(Drop)]
pub struct WarnedKind {
    /// How many there are. No more than 4,294,967,295 are counted.
    pub count: u32,
    /// The first five of them, in the order of their lines.
    pub firsts: Vec<Warned>,
}

impl WarnedKind {
    // No warning.
    fn none(alloc: Global) -> WarnedKind
        ensures none { result.count ≡ 0 }
        ensures firsts { result.firsts.items ≡ [] }
    {
        WarnedKind {
            count: 0,
            firsts: Vec::new(alloc),
        }
    }

    // Adds a warning, and takes memory for it where it is one of the first.
    fn add(&mut self, line: u32, id: Option<&Id>) -> Result<(), AllocError>
        ensures { OnOk result (AddsOne self.old self.new (record { line = line; id = option_map (λ id. id.now) id.entry })) }
    {
        self.count = self.count.saturating_add(1);
        if self.firsts.len() >= MOST_FIRSTS {
            return Ok(());
        }
        let id = copied(id)?;
        self.firsts.push(Warned { line, id })?;
        Ok(())
    }
}

// A copy of an identifier, where there is one.
fn copied(id: Option<&Id>) -> Result<Option<Id>, AllocError>
    ensures { IfOk result (λ copy. copy ≡ option_map (λ id. id.now) id.entry) }
{
    match id {
        Some(id) => {
            let copy = id.clone()?;
            Ok(Some(copy))
        }
        None => Ok(None),
    }
}

/// The warnings of a text, and one of the table that a delta file is for.
pub struct Warnings {
    /// Which input they come from: 0 is the table, 1 the delta file.
    pub input: usize,
    /// Whether a byte order mark stands at its beginning.
    pub mark: bool,
    /// Lines with `copy` in a delta file.
    pub copies: WarnedKind,
    /// Lines with `script`.
    pub scripts: WarnedKind,
    /// Symbols that are declared and have no entry.
    pub symbols: WarnedKind,
    /// Collating elements that are declared and have no entry.
    pub elements: WarnedKind,
    /// Statements that leave the table as it was.
    pub unchanged: WarnedKind,
    /// Order lines that begin with `%`.
    pub percents: WarnedKind,
    /// Order lines that give weights, and none for more levels than the last.
    pub lacking: WarnedKind,
    /// Lines of blocks whose entries don't sort where they stand.
    pub elsewhere: WarnedKind,
    /// Lines of blocks whose symbols don't.
    pub symbols_elsewhere: WarnedKind,
    /// Whether a byte order mark stands at the beginning of the table that a delta file is for.
    pub table_mark: bool,
}

// Written out, so that each place that drops warnings is one call.
impl Drop for Warnings {
    fn drop(self) {
        let Warnings {
            input: _,
            mark: _,
            copies,
            scripts,
            symbols,
            elements,
            unchanged,
            percents,
            lacking,
            elsewhere,
            symbols_elsewhere,
            table_mark: _,
        } = self;
        drop(copies);
        drop(scripts);
        drop(symbols);
        drop(elements);
        drop(unchanged);
        drop(percents);
        drop(lacking);
        drop(elsewhere);
        drop(symbols_elsewhere);
    }
}

impl Warnings {
    /// No warning of an input.
    pub(crate) fn none(alloc: Global, input: usize) -> Warnings {
        Warnings {
            input,
            mark: false,
            copies: WarnedKind::none(alloc),
            scripts: WarnedKind::none(alloc),
            symbols: WarnedKind::none(alloc),
            elements: WarnedKind::none(alloc),
            unchanged: WarnedKind::none(alloc),
            percents: WarnedKind::none(alloc),
            lacking: WarnedKind::none(alloc),
            elsewhere: WarnedKind::none(alloc),
            symbols_elsewhere: WarnedKind::none(alloc),
            table_mark: false,
        }
    }

    /// Adds a warning at a line, behind those of its kind that stand at lines before.
    pub(crate) fn add(
        &mut self,
        warning: Warning,
        line: u32,
        id: Option<&Id>,
    ) -> Result<(), AllocError>
        ensures { OnOk result (Warns self.old self.new warning (record { line = line; id = option_map (λ id. id.now) id.entry })) }
    {
        match warning {
            Warning::CopyWithoutEffect => self.copies.add(line, id),
            Warning::ScriptWithoutEffect => self.scripts.add(line, id),
            Warning::SymbolNeverPlaced => self.symbols.add(line, id),
            Warning::ElementNeverPlaced => self.elements.add(line, id),
            Warning::ChangesNothing => self.unchanged.add(line, id),
            Warning::PercentSign => self.percents.add(line, id),
            Warning::LacksWeights => self.lacking.add(line, id),
            Warning::SortsElsewhere => self.elsewhere.add(line, id),
            Warning::SymbolElsewhere => self.symbols_elsewhere.add(line, id),
        }
    }
}
