//! Why a history refuses.
//!
//! A refusal by the table is kept as it came, so that it has one number and one name everywhere. A new kind of refusal is a new
//! variant with its number and its name here and in `specs/HistoryFaults.antt`.

ghost use Rattle.std.specs.Prelude.{◌≡◌};
ghost use Rattle.coll_history.specs.HistoryFaults.{bench_fault_number, bench_fault_name};
ghost use Rattle.coll_table.specs.declared.refusals.Refusal.TheVariants.{OutOfMemory};
ghost use Rattle.coll_history.specs.declared.history_faults.BenchFault.TheVariants.{Table};

use coll_table::Refusal;
use std::alloc::AllocError;
use std::fmt;
use thiserror::Error;

/// Why a history refused a statement or a withdrawal, or had nothing to take back or to put again.
#[derive(Clone, Copy, Debug, PartialEq, Eq, Error)]
pub enum BenchFault {
    /// The table refused the statement.
    Table(Refusal),
    /// No statement remains to be taken back.
    NothingToUndo,
    /// No statement was taken back that could be put again.
    NothingToRedo,
    /// 65,535 statements remain, which is the most.
    HistoryFull,
    /// A statement can't be withdrawn, since without it a later one is refused.
    StillNeeded {
        /// The number of the first one that is refused, counted from 1 among those that remain.
        statement: u32,
        /// Why it is refused.
        refusal: Refusal,
    },
    /// No statement with this number remains.
    NoSuchStatement,
}

impl BenchFault {
    /// The number that a reply shows.
    pub fn number(self) -> u8
        ensures { result ≡ bench_fault_number self }
    {
        match self {
            BenchFault::Table(refusal) => refusal.number(),
            BenchFault::NothingToUndo => 60,
            BenchFault::NothingToRedo => 61,
            BenchFault::HistoryFull => 66,
            BenchFault::StillNeeded { .. } => 71,
            BenchFault::NoSuchStatement => 72,
        }
    }

    /// The name that a reply shows.
    pub fn name(self) -> &'static str
        ensures { result.now ≡ bench_fault_name self }
    {
        match self {
            BenchFault::Table(refusal) => refusal.name(),
            BenchFault::NothingToUndo => "NothingToUndo",
            BenchFault::NothingToRedo => "NothingToRedo",
            BenchFault::HistoryFull => "HistoryFull",
            BenchFault::StillNeeded { .. } => "StillNeeded",
            BenchFault::NoSuchStatement => "NoSuchStatement",
        }
    }
}

impl fmt::Display for BenchFault {
    fn fmt<W: fmt::Write>(&self, f: &mut fmt::Formatter<W>) -> fmt::Result {
        write!(f, "{} {}", self.number(), self.name())
    }
}

impl From<AllocError> for BenchFault {
    ghost from_gives = { λ _ fault. fault ≡ Table OutOfMemory };

    fn from(_error: AllocError) -> BenchFault {
        BenchFault::Table(Refusal::OutOfMemory)
    }
}
