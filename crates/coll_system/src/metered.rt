//! Readers and writers that tell a line of progress how many bytes they gave and took.
//!
//! So no crate below knows of the line. A read takes far longer than a look at the clock, so each may tell its bytes; a write may be one
//! of a few bytes into a buffer, so what is written is told in larger parts.

ghost use Rattle.std.specs.Prelude.{◌≡◌};

use crate::progress::{ProgressLine, Step};
use coll_devices::{Sink, Source};
use std::io;

// How many bytes are written between two looks at the clock.
const BYTES_BETWEEN: u64 = 65_536;

/// A reader whose bytes are counted, and the line that is told of them, if one is.
#[derive(Drop)]
pub struct MeteredSource<'a, S> {
    source: S,
    line: Option<&'a ProgressLine<'a>>,
    // How many bytes there are, where that is known.
    size: Option<u64>,
    // How many were read.
    bytes: u64,
    // What is done once all are read, where it is to be told then.
    next: Option<Step>,
}

impl<'a, S> MeteredSource<'a, S> {
    /// A reader that has given no byte yet, of so many where that is known.
    pub fn new(
        source: S,
        line: Option<&'a ProgressLine<'a>>,
        size: Option<u64>,
    ) -> MeteredSource<'a, S>
        ensures { result.source ≡ source }
    {
        MeteredSource {
            source,
            line,
            size,
            bytes: 0,
            next: None,
        }
    }

    /// Has a step begin once all is read.
    pub fn lead_to(&mut self, step: Step)
        ensures { self.new.source ≡ self.old.source }
    {
        self.next = Some(step);
    }

    /// Has nothing more told of the bytes.
    pub fn hush(&mut self)
        ensures { self.new.source ≡ self.old.source }
    {
        self.line = None;
    }

    /// The reader.
    pub fn source(&self) -> &S
        ensures { result.now ≡ self.now.source }
    {
        &self.source
    }

    // Counts bytes that were read, and tells how many there are now; none is the end.
    fn count(&mut self, count: usize)
        ensures { self.new.source ≡ self.old.source }
    {
        let Some(line) = self.line else {
            return;
        };
        if count > 0 {
            self.bytes = self.bytes.saturating_add(count as u64);
            line.tell(Step::Reading(self.bytes, self.size));
        } else if let Some(step) = self.next.take() {
            line.begin(step);
        }
    }
}

impl<S: Source> Source for MeteredSource<'_, S> {
    ghost left = { λ m. S.left m.source };

    ghost failed = { λ m. S.failed m.source };

    fn read(&mut self, buf: &mut [u8]) -> io::Result<usize> {
        let read = self.source.read(buf);
        if let Ok(count) = &read {
            self.count(*count);
        }
        read
    }

    fn errors(&self) -> u64 {
        self.source.errors()
    }
}

/// A writer whose bytes are counted, and the line that is told of them, or hidden before the first one.
#[derive(Drop)]
pub struct MeteredSink<'a, W> {
    sink: W,
    line: &'a ProgressLine<'a>,
    // Whether the line stays, and is told of them.
    told: bool,
    // How many were written.
    bytes: u64,
    // How many of them since the clock was last looked at.
    since: u64,
}

impl<'a, W> MeteredSink<'a, W> {
    /// A writer that has taken no byte yet.
    pub fn new(sink: W, line: &'a ProgressLine<'a>, told: bool) -> MeteredSink<'a, W>
        ensures { result.sink ≡ sink }
    {
        MeteredSink {
            sink,
            line,
            told,
            bytes: 0,
            since: 0,
        }
    }

    /// The writer.
    pub fn sink(&self) -> &W
        ensures { result.now ≡ self.now.sink }
    {
        &self.sink
    }

    // Counts bytes that were written.
    fn count(&mut self, count: usize)
        ensures { self.new.sink ≡ self.old.sink }
    {
        self.bytes = self.bytes.saturating_add(count as u64);
        self.since = self.since.saturating_add(count as u64);
        if self.since >= BYTES_BETWEEN {
            self.since = 0;
            self.line.tell(Step::Writing(self.bytes));
        }
    }
}

impl<W: Sink> Sink for MeteredSink<'_, W> {
    ghost taken = { λ m. W.taken m.sink };

    ghost failed = { λ m. W.failed m.sink };

    ghost flushed = { λ m. W.flushed m.sink };

    fn write(&mut self, buf: &[u8]) -> io::Result<usize> {
        if self.bytes == 0 && !self.told {
            self.line.hide();
        }
        let written = self.sink.write(buf);
        if let Ok(count) = &written {
            self.count(*count);
        }
        written
    }

    fn flush(&mut self) -> io::Result<()> {
        self.line.hide();
        self.sink.flush()
    }

    fn errors(&self) -> u64 {
        self.sink.errors()
    }

    fn is_flushed(&self) -> bool {
        self.sink.is_flushed()
    }
}
