//! Why a table could not be loaded.
//!
//! A fault has a line and a cause, and a number and a name, which messages show: those of its cause, and a fault of the
//! lexer or the grammar keeps its own. A new cause is a new variant with its number and its name, here and in
//! `specs/LoadFaults.antt`. Lack of memory has one spelling, `LoadCause::OutOfMemory`: a fault of the lexer or the grammar
//! becomes a cause by `from` alone.

ghost use Rattle.std.specs.Prelude.{◌≡◌};
ghost use Rattle.coll_texts.specs.declared.load_faults.LoadCause.TheVariants.{OutOfMemory};

use coll_lex::{EarlyEnd, LexFault};
use coll_syntax::SyntaxFault;
use std::alloc::{AllocError, AllocFailed};
use std::fmt;
use thiserror::Error;

/// Why a table could not be loaded, and where.
#[derive(Clone, Copy, Debug, PartialEq, Eq, Error)]
#[error("line {line}: {cause}")]
pub struct LoadFault {
    /// The number of the line at fault, from 1; of a text that ends too early, the number of its lines; 0 where no line
    /// is at fault. A lack of memory has the number of the line for which memory was refused, and 0 before the first.
    pub line: u32,
    /// What was wrong.
    pub cause: LoadCause,
}

impl LoadFault {
    ghost use Rattle.coll_texts.specs.LoadFaults.{load_fault_number, load_fault_name};

    /// The number that a message shows, which is that of the cause.
    pub fn number(self) -> u8
        ensures { result ≡ load_fault_number self }
    {
        self.cause.number()
    }

    /// The name that a message shows, which is that of the cause.
    pub fn name(self) -> &'static str
        ensures { result.now ≡ load_fault_name self }
    {
        self.cause.name()
    }
}

/// Why a table could not be loaded.
#[derive(Clone, Copy, Debug, PartialEq, Eq, Error)]
pub enum LoadCause {
    /// A line could not be lexed.
    Lex(LexFault),
    /// A line doesn't say anything that a table may say.
    Syntax(SyntaxFault),
    /// The text has no line `LC_COLLATE`.
    NoCategory,
    /// The category ends without an `order_start`.
    NoRules,
    /// An `order_start` gives other rules than the first one.
    RulesDiffer,
    /// A name is declared that an earlier line declares.
    DeclaredTwice,
    /// An order line has a name that no earlier line declares, a weight names what no line declares, or a second name is to stand
    /// for what no earlier line declares.
    NotDeclared,
    /// An order line has an identifier that an earlier one has.
    PlacedTwice,
    /// A collating symbol is given weights.
    SymbolWithWeights,
    /// An order line gives more weights than there are levels.
    TooManyWeights,
    /// A weight names what is placed nowhere.
    WeightNotPlaced,
    /// A collating element has the string of an earlier one.
    StringTwice,
    /// A section begins that an earlier line begins.
    SectionTwice,
    /// An order line, `section` or `order_end` stands where no order is open, or the category ends where one is.
    OutsideOrder,
    /// The table has no room for one more entry, declaration or section.
    Full,
    /// The text ends before its category does.
    NoEnd,
    /// A read of the device answered an error.
    ReadFault,
    /// Memory was refused.
    OutOfMemory,
    /// What is to get a second name is a collating element, and no collating symbol.
    NotASymbol,
}

impl LoadCause {
    ghost use Rattle.coll_texts.specs.LoadFaults.{load_cause_number, load_cause_name};

    /// The number that a message shows.
    pub fn number(self) -> u8
        ensures { result ≡ load_cause_number self }
    {
        match self {
            LoadCause::Lex(fault) => fault.number(),
            LoadCause::Syntax(fault) => fault.number(),
            LoadCause::NoCategory => 30,
            LoadCause::NoRules => 31,
            LoadCause::RulesDiffer => 32,
            LoadCause::DeclaredTwice => 33,
            LoadCause::NotDeclared => 34,
            LoadCause::PlacedTwice => 35,
            LoadCause::SymbolWithWeights => 36,
            LoadCause::TooManyWeights => 37,
            LoadCause::WeightNotPlaced => 38,
            LoadCause::StringTwice => 39,
            LoadCause::SectionTwice => 40,
            LoadCause::OutsideOrder => 41,
            LoadCause::Full => 42,
            LoadCause::NoEnd => 43,
            LoadCause::ReadFault => 67,
            LoadCause::OutOfMemory => 70,
            LoadCause::NotASymbol => 73,
        }
    }

    /// The name that a message shows.
    pub fn name(self) -> &'static str
        ensures { result.now ≡ load_cause_name self }
    {
        match self {
            LoadCause::Lex(fault) => fault.name(),
            LoadCause::Syntax(fault) => fault.name(),
            LoadCause::NoCategory => "NoCategory",
            LoadCause::NoRules => "NoRules",
            LoadCause::RulesDiffer => "RulesDiffer",
            LoadCause::DeclaredTwice => "DeclaredTwice",
            LoadCause::NotDeclared => "NotDeclared",
            LoadCause::PlacedTwice => "PlacedTwice",
            LoadCause::SymbolWithWeights => "SymbolWithWeights",
            LoadCause::TooManyWeights => "TooManyWeights",
            LoadCause::WeightNotPlaced => "WeightNotPlaced",
            LoadCause::StringTwice => "StringTwice",
            LoadCause::SectionTwice => "SectionTwice",
            LoadCause::OutsideOrder => "OutsideOrder",
            LoadCause::Full => "Full",
            LoadCause::NoEnd => "NoEnd",
            LoadCause::ReadFault => "ReadFault",
            LoadCause::OutOfMemory => "OutOfMemory",
            LoadCause::NotASymbol => "NotASymbol",
        }
    }
}

impl fmt::Display for LoadCause {
    fn fmt<W: fmt::Write>(&self, f: &mut fmt::Formatter<W>) -> fmt::Result {
        write!(f, "{} {}", self.number(), self.name())
    }
}

impl From<AllocError> for LoadFault {
    ghost from_gives = { λ _ fault. fault ≡ record { line = 0; cause = OutOfMemory } };

    fn from(_error: AllocError) -> LoadFault {
        LoadFault {
            line: 0,
            cause: LoadCause::OutOfMemory,
        }
    }
}

impl From<EarlyEnd> for LoadFault {
    ghost use Rattle.coll_texts.specs.LoadFaults.{early_fault};

    ghost from_gives = { λ end fault. fault ≡ early_fault end };

    fn from(end: EarlyEnd) -> LoadFault {
        let (line, cause) = match end {
            EarlyEnd::LeftOpen(line) => (line, LoadCause::Lex(LexFault::DanglingEscape)),
            EarlyEnd::WithinCategory(line) => (line, LoadCause::NoEnd),
            EarlyEnd::BeforeCategory(line) => (line, LoadCause::NoCategory),
        };
        LoadFault { line, cause }
    }
}

impl From<LexFault> for LoadCause {
    ghost use Rattle.coll_texts.specs.LoadFaults.{lex_cause};

    ghost from_gives = { λ fault cause. cause ≡ lex_cause fault };

    fn from(fault: LexFault) -> LoadCause {
        match fault {
            LexFault::OutOfMemory => LoadCause::OutOfMemory,
            fault => LoadCause::Lex(fault),
        }
    }
}

impl From<SyntaxFault> for LoadCause {
    ghost use Rattle.coll_texts.specs.LoadFaults.{syntax_cause};

    ghost from_gives = { λ fault cause. cause ≡ syntax_cause fault };

    fn from(fault: SyntaxFault) -> LoadCause {
        match fault {
            SyntaxFault::OutOfMemory => LoadCause::OutOfMemory,
            fault => LoadCause::Syntax(fault),
        }
    }
}

impl From<AllocError> for LoadCause {
    ghost from_gives = { λ _ cause. cause ≡ OutOfMemory };

    fn from(_error: AllocError) -> LoadCause {
        LoadCause::OutOfMemory
    }
}

impl<T: Drop> From<AllocFailed<T>> for LoadCause {
    ghost from_gives = { λ _ cause. cause ≡ OutOfMemory };

    fn from(_error: AllocFailed<T>) -> LoadCause {
        LoadCause::OutOfMemory
    }
}
