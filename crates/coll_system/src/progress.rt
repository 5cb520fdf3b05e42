//! A line on standard error that says how far a run got, where that is a terminal.
//!
//! It comes once a run has taken half a second, and is written over where it stands. Whoever writes anything else hides it before, and
//! whoever has made it ends it: it is no `Drop`, so none is left on the screen. What is told so is no part of any contract, and changes
//! nothing but what stands there meanwhile.

use arrayvec::ArrayString;
use std::cell::Cell;
use std::fmt;
use std::fmt::{Display, Formatter, Write};
use std::io::IsTerminal;
use std::time::{Duration, Instant};

// How many milliseconds a run takes before its line comes.
const MILLIS_BEFORE: u64 = 500;

// The fewest milliseconds between two counts that are told.
const MILLIS_BETWEEN: u64 = 150;

// More columns than a step takes, and fewer than a terminal has.
const MOST_COLUMNS: usize = 72;

// Bytes of a tenth of a megabyte.
const TENTH: u64 = 100_000;

/// What a run is at.
#[derive(Clone, Copy)]
pub enum Step {
    /// Bytes are read: so many, of so many where that is known.
    Reading(u64, Option<u64>),
    /// The bytes of a table are judged: so many, of so many.
    Judging(u64, u64),
    /// A delta file is judged, and all else found that is told of texts.
    Surveying,
    /// A source is made into a table or statements.
    Importing,
    /// Lines are put in order.
    Sorting,
    /// Two tables are compared.
    Comparing,
    /// This statement was put.
    Statement(u32),
    /// So many bytes are written.
    Writing(u64),
}

impl Display for Step {
    fn fmt<W: fmt::Write>(&self, f: &mut Formatter<W>) -> fmt::Result {
        match self {
            Step::Reading(bytes, Some(all)) => write!(
                f,
                "reading {} of {}",
                Size(*bytes),
                Size(*all)
            ),
            Step::Reading(bytes, None) => write!(f, "reading {}", Size(*bytes)),
            Step::Judging(bytes, all) => write!(f, "judging {} of {}", Size(*bytes), Size(*all)),
            Step::Surveying => f.write_str("surveying"),
            Step::Importing => f.write_str("importing"),
            Step::Sorting => f.write_str("sorting"),
            Step::Comparing => f.write_str("comparing"),
            Step::Statement(count) => write!(f, "statement {count}"),
            Step::Writing(bytes) => write!(f, "writing {}", Size(*bytes)),
        }
    }
}

// A number of bytes, told in megabytes.
#[derive(Clone, Copy)]
struct Size(u64);

impl Display for Size {
    fn fmt<W: fmt::Write>(&self, f: &mut Formatter<W>) -> fmt::Result {
        let tenths = self.0 / TENTH;
        write!(f, "{}.{} MB", tenths / 10, tenths % 10)
    }
}

/// The line of a run.
pub struct ProgressLine<'a> {
    rt: &'a HostRuntime,
    // When the run began; nothing where no line is shown, or none any longer.
    begun: Cell<Option<Instant>>,
    // When a step was written last.
    written: Cell<Option<Instant>>,
    // How many columns the line takes: none where it is blank.
    columns: Cell<usize>,
}

impl<'a> ProgressLine<'a> {
    /// The line of a run that begins now. Where standard error is no terminal, none is ever shown.
    pub fn new(rt: &'a HostRuntime) -> ProgressLine<'a> {
        let begun = if rt.stderr().is_terminal() {
            Instant::now(rt).ok()
        } else {
            None
        };
        ProgressLine {
            rt,
            begun: Cell::new(begun),
            written: Cell::new(None),
            columns: Cell::new(0),
        }
    }

    /// Tells how far a step got, unless the line was written a short time ago.
    pub fn tell(&self, step: Step) {
        let Some(now) = self.time_to_show() else {
            return;
        };
        if let Some(written) = self.written.get() {
            if now.duration_since(written) < Duration::from_millis(MILLIS_BETWEEN) {
                return;
            }
        }
        self.write(step, now);
    }

    /// Tells a step that begins, and of which nothing more is told.
    pub fn begin(&self, step: Step) {
        if let Some(now) = self.time_to_show() {
            self.write(step, now);
        }
    }

    /// Blanks the line, which isn't shown any longer.
    pub fn hide(&self) {
        self.begun.set(None);
        let columns = self.columns.get();
        if columns > 0 {
            self.columns.set(0);
            let _ = eprint!(self.rt; "\r{:columns$}\r", "");
        }
    }

    /// Ends the line, which is blanked.
    pub fn end(self) {
        self.hide();
        let ProgressLine {
            rt: _,
            begun: _,
            written: _,
            columns: _,
        } = self;
    }

    // The time, where a line is shown and the run has taken as long as that.
    fn time_to_show(&self) -> Option<Instant> {
        let begun = self.begun.get()?;
        let now = Instant::now(self.rt).ok()?;
        if now.duration_since(begun) < Duration::from_millis(MILLIS_BEFORE) {
            return None;
        }
        Some(now)
    }

    // Writes a step over the line.
    fn write(&self, step: Step, now: Instant) {
        let mut text = ArrayString::<MOST_COLUMNS>::new();
        if write!(text, "{step}").is_err() {
            return;
        }
        let columns = self.columns.get();
        let _ = eprint!(self.rt; "\r{text:columns$}");
        self.columns.set(columns.max(text.as_str().len()));
        self.written.set(Some(now));
    }
}
