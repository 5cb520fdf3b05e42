//! A table text is read from a device, and made into a table.
//!
//! The answer is `reads` of coll_texts, `specs/Reading.antt`: the lines up to the category are looked at alone, those of the
//! category as logical lines, each judged from the lines accepted before it, and the first line at fault decides. The lines
//! come from a reader of physical lines, and a `Loader` takes them. A new cause of a refused load is a case of `reads` first.

ghost use Rattle.std.specs.Prelude.{◌≡◌, None, Err, IfOk, IfErr, OnOk};
ghost use Rattle.coll_devices.specs.LineReading.{no_line};
ghost use Rattle.coll_table.specs.Loads.{Loads, AnswersText, CountsFault, stop_fault};
ghost use Rattle.coll_texts.specs.Loading.{first_loader};
ghost use Rattle.coll_texts.specs.Reading.{TextsAreWellFormed};
ghost use Rattle.coll_nodes.specs.TableLayout.{collation};
ghost use Rattle.coll_nodes.specs.WellFormed.{IsWellFormed};

use crate::{Loader, Table};
use coll_devices::{LineReader, ReadStop, Source};
use coll_lex::LexFault;
use coll_lookups::HashKeys;
use coll_texts::{LoadCause, LoadFault};
use std::alloc::Global;

/// Reads a table text that one trusts, as `load_keyed` does: what it names is looked up under keys that anyone knows.
pub fn load<R: Source>(alloc: Global, input: &mut R) -> Result<Table, LoadFault>
    ensures loaded { Loads (R.left input.old) (R.left input.new) result }
    ensures well_formed { IfOk result (λ table. IsWellFormed (collation table)) }
    ensures errors { CountsFault (R.failed input.old) (R.failed input.new) result }
{
    load_keyed(alloc, HashKeys::zeros(), input)
}

/// Reads a table text to the end of its category, and makes the table.
///
/// The text is POSIX.1-2017, 7.3.2, as far as this product reads it. The first line at fault decides the answer, and
/// nothing after `END LC_COLLATE` is looked at. A fault gives no table. `ReadFault`, with line 0, is answered where a
/// read of the device answered an error, unless the lines read whole before it decide already. What the text names is looked
/// up under these keys: where the text can't know them, it can't slow the look-ups down.
pub fn load_keyed<R: Source>(
    alloc: Global,
    keys: HashKeys,
    input: &mut R,
) -> Result<Table, LoadFault>
    ensures loaded { Loads (R.left input.old) (R.left input.new) result }
    ensures well_formed { IfOk result (λ table. IsWellFormed (collation table)) }
    ensures errors { CountsFault (R.failed input.old) (R.failed input.new) result }
{
    let mut loader = Loader::keyed(alloc, keys)?;
    match read_text(alloc, input, &mut loader) {
        Ok(()) => loader.finish(),
        Err(fault) => {
            drop(loader);
            Err(fault)
        }
    }
}

// Hands the lines of a text to a new loader, up to the end of the category.
fn read_text<R: Source>(alloc: Global, input: &mut R, loader: &mut Loader) -> Result<(), LoadFault>
    requires { loader.old ≡ first_loader }
    ensures read { OnOk result (AnswersText (R.left input.old) loader.new) }
    ensures faultless { OnOk result (loader.new.fault ≡ None) }
    ensures fault { IfErr result (λ fault. Loads (R.left input.old) (R.left input.new) (Err fault)) }
    ensures errors { CountsFault (R.failed input.old) (R.failed input.new) result }
{
    let mut reader = LineReader::new(alloc)?;
    read_lines(input, &mut reader, loader)
}

// Hands the lines that a new reader gives to a new loader, up to the end of the category.
fn read_lines<R: Source>(
    input: &mut R,
    reader: &mut LineReader,
    loader: &mut Loader,
) -> Result<(), LoadFault>
    requires reader { reader.old ≡ no_line }
    requires loader { loader.old ≡ first_loader }
    ensures read { OnOk result (AnswersText (R.left input.old) loader.new) }
    ensures faultless { OnOk result (loader.new.fault ≡ None) }
    ensures fault { IfErr result (λ fault. Loads (R.left input.old) (R.left input.new) (Err fault)) }
    ensures errors { CountsFault (R.failed input.old) (R.failed input.new) result }
{
    'lines: loop {
        match reader.advance(input) {
            Ok(true) => loader.line(reader.line())?,
            Ok(false) => return Ok(()),
            Err(stop) => return Err(stop_fault(loader.next_number(), stop)),
        }
        if loader.finished() {
            return Ok(());
        }
    }
}

/// The law of tables: whatever text is a table by `reads`, that table is well formed.
///
/// It does nothing; its contract is the law.
pub fn texts_are_well_formed()
    ensures { TextsAreWellFormed }
{}

// The fault that is answered where the reader stops before the line with this number.
fn stop_fault(number: u32, stop: ReadStop) -> LoadFault
    ensures { result ≡ stop_fault number stop }
{
    match stop {
        ReadStop::LineTooLong => LoadFault {
            line: number,
            cause: LoadCause::Lex(LexFault::LineTooLong),
        },
        ReadStop::ReadFault => LoadFault {
            line: 0,
            cause: LoadCause::ReadFault,
        },
    }
}
