//! Order line after order line, with what the ellipses among them stand for.
//!
//! Tables and tailorings take order lines in another way each (`OrderLines`), and write ellipses and ranges out alike.

use crate::ellipses::{Ellipses, Run};
use coll_lex::ListBuf;
use coll_source_lines::{Report, SourceFault, SourcePlace};
use coll_syntax::{Id, OrderLine, Weight};

/// What takes the order lines of a source, one after another.
pub trait OrderLines {
    /// The ellipses among the lines.
    fn ellipses(&mut self) -> &mut Ellipses;

    /// Takes an order line, whose identifier is what it means.
    fn put(
        &mut self,
        place: SourcePlace,
        line: OrderLine,
        report: &mut Report,
    ) -> Result<(), SourceFault>;
}

/// Puts an order line, whose identifier is what it means. An ellipsis before it is written out first.
pub fn put_line<T: OrderLines>(
    lines: &mut T,
    place: SourcePlace,
    line: OrderLine,
    report: &mut Report,
) -> Result<(), SourceFault> {
    match put_before(lines, &line.id, report) {
        Ok(()) => lines.put(place, line, report),
        Err(fault) => {
            drop(line);
            Err(fault)
        }
    }
}

/// Puts what an ellipsis stands for, if there is one before an order line of this identifier, which is put then.
pub fn put_before<T: OrderLines>(
    lines: &mut T,
    id: &Id,
    report: &mut Report,
) -> Result<(), SourceFault> {
    match lines.ellipses().before(id, report) {
        Ok(Some(before)) => {
            let put = put_run(lines, &before, report);
            drop(before);
            put
        }
        Ok(None) => Ok(()),
        Err(fault) => Err(fault),
    }
}

/// Puts an order line for each character of a range. An ellipsis before it is written out first.
pub fn put_range<T: OrderLines>(
    lines: &mut T,
    place: SourcePlace,
    first: char,
    last: char,
    weights: Option<ListBuf<Weight>>,
    report: &mut Report,
) -> Result<(), SourceFault> {
    let (before, range) = lines.ellipses().range(place, first, last, weights, report)?;
    let put = put_runs(lines, &before, &range, report);
    drop(before);
    drop(range);
    put
}

// Puts an order line for each character of these runs.
fn put_runs<T: OrderLines>(
    lines: &mut T,
    before: &Option<Run>,
    range: &Run,
    report: &mut Report,
) -> Result<(), SourceFault> {
    if let Some(before) = before {
        put_run(lines, before, report)?;
    }
    put_run(lines, range, report)
}

// Puts an order line for each character of a run.
fn put_run<T: OrderLines>(
    lines: &mut T,
    run: &Run,
    report: &mut Report,
) -> Result<(), SourceFault> {
    for number in run.first..=run.last {
        if let Some(line) = run.line(number)? {
            lines.put(run.place, line, report)?;
        }
    }
    Ok(())
}
