//! The laws of records, as contracts of functions that do nothing.
//!
//! They are what a history of statements rests on, each of which is taken back by its nodes' neighbours alone.

ghost use Rattle.coll_table.specs.RecordLaws.{RecordsTurnBack, RecordsAddAlike, RecordsFitWider};
ghost use Rattle.coll_table.specs.RecordLaws.{RecordsFitWhereNamed, RecordsFitNarrower, WiderNumberedAlike, WiderReadsAlike};
ghost use Rattle.coll_table.specs.RecordLaws.{UndonePutIn};

/// Turning a record that fits gives a table, and turning it again gives back the first.
pub fn lemma_records_turn_back()
    ensures { RecordsTurnBack }
{}

/// A record has the same added nodes once it is turned.
pub fn lemma_records_add_alike()
    ensures { RecordsAddAlike }
{}

/// A record that fits a table fits each table that extends it.
pub fn lemma_records_fit_wider()
    ensures { RecordsFitWider }
{}

/// A record that fits a table fits each table that this one extends, if its items name only nodes of that table.
pub fn lemma_records_fit_where_named()
    ensures { RecordsFitWhereNamed }
{}

/// A record in force that fits a table fits each table that this one extends.
pub fn lemma_records_fit_narrower()
    ensures { RecordsFitNarrower }
{}

/// A table that extends another one reads as that.
pub fn lemma_wider_tables_read_alike()
    ensures { WiderReadsAlike }
{}

/// The places of a table's entries are those of each table that extends it, and the other way round.
pub fn lemma_wider_tables_are_numbered_alike()
    ensures { WiderNumberedAlike }
{}

/// An undone record puts in nodes that are loose, each once.
pub fn lemma_undone_records_put_in()
    ensures { UndonePutIn }
{}
