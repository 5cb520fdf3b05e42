//! All that a form makes of the lines of a source, as a text.

use crate::meanings::forms::Form;
use coll_lex::{Counted, ListBuf};
use coll_source_lines::{
    Loss, Lost, Report, Said, SourceFault, SourceLine, SourcePlace, all_adjustments,
};
use coll_source_names::SourceStatement;
use coll_syntax::{Id, OrderLine, Weight};
use coll_texts::{Piece, write_pieces};
use std::alloc::Global;
use std::fmt::Debug;
use std::process::Abort;

/// Tells a value as it is shown, in a line.
pub fn tell(rt: &impl Abort, alloc: Global, what: impl Debug + Drop, text: &mut Vec<u8>) {
    let shown = format!(in alloc; "{what:?}\n").expect(rt, "a text");
    text.extend_from_slice(shown.as_bytes())
        .expect(rt, "a text");
    drop(shown);
}

/// Tells a fault, at the number of its line.
pub fn tell_fault(rt: &impl Abort, alloc: Global, fault: SourceFault, text: &mut Vec<u8>) {
    tell(rt, alloc, (fault.place.line, fault.cause.number()), text);
}

// Of more declarations than twice so many, these are told that stand first and last.
const MOST_TOLD: usize = 2048;

// Tells what is declared, and how much that is.
fn tell_declared(rt: &impl Abort, alloc: Global, declared: &[SourceStatement], text: &mut Vec<u8>) {
    tell(rt, alloc, declared.len(), text);
    for made in declared.iter().take(MOST_TOLD) {
        tell(rt, alloc, (made.place.line, &made.statement), text);
    }
    for made in declared.iter().rev().take(MOST_TOLD) {
        tell(rt, alloc, (made.place.line, &made.statement), text);
    }
}

// Tells what was lost.
fn tell_loss(rt: &impl Abort, loss: &Loss, text: &mut Vec<u8>) {
    let what = match &loss.what {
        Lost::Id(id) => Piece::Id(id),
        Lost::Word(word) => Piece::Bytes(word.get().as_bytes()),
    };
    let line = Piece::Number(u64::from(loss.place.line));
    let adjustment = Piece::Bytes(loss.adjustment.name().as_bytes());
    let pieces = [
        line,
        Piece::Bytes(b" "),
        adjustment,
        what,
        Piece::Bytes(b"\n"),
    ];
    write_pieces(&mut Counted::new(text), &pieces).expect(rt, "pieces");
}

/// Tells all that was lost.
pub fn tell_losses(rt: &impl Abort, losses: &[Loss], text: &mut Vec<u8>) {
    for loss in losses {
        tell_loss(rt, loss, text);
    }
}

// Tells how often each change was made, and where first.
fn tell_tallies(rt: &impl Abort, alloc: Global, report: &Report, text: &mut Vec<u8>) {
    for adjustment in all_adjustments() {
        if let Some(tally) = report.tally(adjustment) {
            let told = (adjustment.name(), tally.first.line, tally.count);
            tell(rt, alloc, told, text);
        }
    }
}

// A copy of an order line.
fn copied(rt: &impl Abort, alloc: Global, line: &OrderLine) -> OrderLine {
    let id = line.id.clone().expect(rt, "an identifier");
    let Some(weights) = &line.weights else {
        return OrderLine { id, weights: None };
    };
    let mut copies = Vec::new(alloc);
    for weight in weights.get() {
        let copy = weight.clone().expect(rt, "a weight");
        copies.push(copy).expect(rt, "weights");
    }
    OrderLine {
        id,
        weights: Some(ListBuf::new(copies)),
    }
}

// A form at work: what it is told of, and the order lines that it has placed, each behind the place where it stands.
#[derive(Drop)]
struct Work<F> {
    form: F,
    report: Report,
    placed: Vec<(SourcePlace, OrderLine)>,
    text: Vec<u8>,
    alloc: Global,
}

impl<F: Form> Work<F> {
    // Tells what identifiers mean.
    fn tell_ids(&mut self, rt: &impl Abort, ids: &[Id]) {
        for id in ids {
            let meaning = self.form.meaning(id).expect(rt, "a meaning");
            tell(rt, self.alloc, meaning, &mut self.text);
        }
    }

    // Places all lines of an order.
    fn place_all(&mut self, rt: &impl Abort, lines: &[SourceLine]) {
        for line in lines {
            if let Said::Order(order) = &line.said {
                self.place(rt, line.place, copied(rt, self.alloc, order));
            }
        }
    }

    // Puts a line of an order behind all others, unless its identifier is placed.
    fn place(&mut self, rt: &impl Abort, place: SourcePlace, line: OrderLine) {
        let meaning = self.form.meaning(&line.id).expect(rt, "a meaning");
        tell(rt, self.alloc, meaning, &mut self.text);
        let line = self.form.meant(line).expect(rt, "an order line");
        let put = self.form.put(place, line, &mut self.report);
        let (line, is_new, fault) = put.expect(rt, "a place");
        if let Some(fault) = fault {
            tell_fault(rt, self.alloc, fault, &mut self.text);
        }
        tell(rt, self.alloc, is_new, &mut self.text);
        if is_new {
            self.placed.push((place, line)).expect(rt, "a placed line");
        }
    }

    // Weighs all lines that are placed.
    fn weigh_all(&mut self, rt: &impl Abort) {
        let placed = std::mem::replace(&mut self.placed, Vec::new(self.alloc));
        for (place, line) in placed {
            let weighed = self.form.weighed(place, line, &mut self.report);
            tell(
                rt,
                self.alloc,
                weighed.expect(rt, "weights"),
                &mut self.text,
            );
        }
    }

    // Tells what is declared, and what was changed.
    fn finish(&mut self, rt: &impl Abort) {
        let declared = self.form.declared().expect(rt, "declarations");
        tell_declared(rt, self.alloc, &declared, &mut self.text);
        drop(declared);
        tell_losses(rt, self.report.losses(), &mut self.text);
        tell_tallies(rt, self.alloc, &self.report, &mut self.text);
    }
}

/// All that a form makes of these lines; what these identifiers mean is told first and last.
pub fn told<F: Form>(
    rt: &impl Abort,
    alloc: Global,
    form: F,
    lines: &[SourceLine],
    ids: &[Id],
) -> Vec<u8> {
    let mut work = Work {
        form,
        report: Report::new(alloc),
        placed: Vec::new(alloc),
        text: Vec::new(alloc),
        alloc,
    };
    if let Err(fault) = work.form.take(lines, &mut work.report) {
        tell_fault(rt, alloc, fault, &mut work.text);
    }
    work.tell_ids(rt, ids);
    work.place_all(rt, lines);
    work.weigh_all(rt);
    work.tell_ids(rt, ids);
    work.finish(rt);
    let text = std::mem::replace(&mut work.text, Vec::new(alloc));
    drop(work);
    text
}
