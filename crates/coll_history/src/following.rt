//! Places of entries that are handed to a session, and follow its table.
//!
//! Whoever keeps places beside a session hands them over before a change. A change only notes which table they are those of
//! (`Standing`), and looks at none of them: they follow its record where they are asked for again, or where a further statement, or
//! a withdrawal, comes first. Of two undos, or two redos, between which nobody asked for places, they follow neither. The simple form is
//! to give all anew (`give_places`), as `Session::take_places` does where following doesn't serve; `AreNumbersOf` joins both. The
//! definitions stand in `specs/Following.antt`.

ghost use Rattle.std.specs.Prelude.{◌≡◌, reverse, OnOk};
ghost use Rattle.coll_nodes.specs.NodeNumbers.{AreNumbersOf};
ghost use Rattle.coll_history.specs.Following as following;
ghost use Rattle.coll_history.specs.Following.{AreBehindLast, ArePlaces, AreCaughtUp};
ghost use Rattle.coll_history.specs.Kept.{Leads, LeadsOn, uncounted};
ghost use Rattle.coll_history.specs.Withdrawing.{LastFits};

use crate::histories::Kept;
use coll_table::{EntryNumbers, Table};
use std::alloc::AllocError;

/// Which table places are those of.
#[derive(Clone, Copy)]
pub(crate) enum Standing {
    /// That isn't known.
    Unknown,
    /// The table as it stands.
    Now,
    /// The table before the last statement that remains was put to it, or put again.
    BeforeStatement,
    /// The table before the statement that was taken back last was taken back.
    BeforeUndo,
}

impl Standing {
    /// Which table the same places are those of once a statement was accepted.
    pub(crate) fn behind_statement(self) -> Standing
        ensures { result ≡ following.behind_statement self }
    {
        match self {
            Standing::Now => Standing::BeforeStatement,
            Standing::Unknown | Standing::BeforeStatement | Standing::BeforeUndo =>
                Standing::Unknown,
        }
    }

    /// The same once the last statement was taken back: what had not followed it needn't.
    pub(crate) fn behind_undo(self) -> Standing
        ensures { result ≡ following.behind_undo self }
    {
        match self {
            Standing::Now => Standing::BeforeUndo,
            Standing::BeforeStatement => Standing::Now,
            Standing::Unknown | Standing::BeforeUndo => Standing::Unknown,
        }
    }

    /// The same once the statement that was taken back last was put again.
    pub(crate) fn behind_redo(self) -> Standing
        ensures { result ≡ following.behind_redo self }
    {
        match self {
            Standing::Now => Standing::BeforeStatement,
            Standing::BeforeUndo => Standing::Now,
            Standing::Unknown | Standing::BeforeStatement => Standing::Unknown,
        }
    }
}

/// Has places follow the record that they are one behind, as far as that goes by at most so many moves, and answers which table they are
/// then those of: the one that stands, or that isn't known.
pub(crate) fn catch_up(
    table: &Table,
    remaining: &[Kept],
    undone: &[Kept],
    standing: Standing,
    numbers: &mut EntryNumbers,
    most_moves: usize,
) -> Standing
    requires leads { Leads (uncounted table.now) remaining.now }
    requires leads_on { LeadsOn (uncounted table.now) (reverse undone.now) }
    requires places { ArePlaces standing numbers.old (uncounted table.now) remaining.now undone.now }
    ensures { AreCaughtUp result numbers.new (uncounted table.now) }
{
    match standing {
        Standing::Unknown => Standing::Unknown,
        Standing::Now => Standing::Now,
        Standing::BeforeStatement => follow_last(table, remaining, numbers, most_moves),
        Standing::BeforeUndo => follow_last(table, undone, numbers, most_moves),
    }
}

// Has places follow the last of these records, as far as that goes.
fn follow_last(
    table: &Table,
    kept: &[Kept],
    numbers: &mut EntryNumbers,
    most_moves: usize,
) -> Standing
    requires fits { LastFits (uncounted table.now) kept.now }
    requires places { AreBehindLast numbers.old (uncounted table.now) kept.now }
    ensures { AreCaughtUp result numbers.new (uncounted table.now) }
{
    let Some((last, _)) = kept.split_last() else {
        return Standing::Unknown;
    };
    if table.follow(&last.change, numbers, most_moves) {
        return Standing::Now;
    }
    Standing::Unknown
}

/// Gives places anew, unless they are those of the table as it stands, and told by way of at most so many moves.
pub(crate) fn give_places(
    table: &Table,
    standing: Standing,
    numbers: &mut EntryNumbers,
    most_moves: usize,
) -> Result<(), AllocError>
    requires { AreCaughtUp standing numbers.old (uncounted table.now) }
    ensures { OnOk result (AreNumbersOf numbers.new table.now.layout) }
{
    if let Standing::Now = standing {
        if numbers.moves() <= most_moves {
            return Ok(());
        }
    }
    table.number_entries(numbers)
}
