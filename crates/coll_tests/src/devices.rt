//! Devices that give and take little at a time and fail where they are told to.
//!
//! `ShortReader` and `ShortWriter` do at each call what their script says, and count their own calls;
//! `NarrowWriter` has no more room, and `Endless` never comes to an end.

use std::alloc::Global;
use std::io;
use std::io::{ErrorKind, Read, Write};

/// What a device does at one call.
#[derive(Clone, Copy)]
pub enum Step {
    /// Gives or takes no byte.
    Nothing,
    /// Gives or takes at most three bytes.
    SomeBytes,
    /// Gives or takes all bytes.
    AllBytes,
    /// Answers an error.
    Error,
    /// Answers that it was interrupted, which is an error like any other.
    Interruption,
    /// Takes no byte where it is to write, and answers an error where it is to flush.
    Refusal,
}

impl Step {
    // How many bytes are given or taken at most; none at an error.
    fn most(self) -> Option<usize> {
        match self {
            Step::Nothing | Step::Refusal => Some(0),
            Step::SomeBytes => Some(3),
            Step::AllBytes => Some(usize::MAX),
            Step::Error | Step::Interruption => None,
        }
    }

    // The error that is answered, where one is.
    fn error(self) -> io::Error {
        io::Error::from(match self {
            Step::Interruption => ErrorKind::Interrupted,
            _ => ErrorKind::BrokenPipe,
        })
    }

    // Whether a flush succeeds, and doesn't answer an error.
    fn flushes(self) -> bool {
        !matches!(self, Step::Error | Step::Interruption | Step::Refusal)
    }
}

/// How a read fails.
pub const FAILED_READS: &[Step] = &[Step::Error, Step::Interruption];

/// How a write or a flush fails.
pub const FAILED_WRITES: &[Step] = &[Step::Error, Step::Interruption, Step::Refusal];

/// What a device does at each call.
#[derive(Clone, Copy)]
pub enum Script {
    /// The same each time.
    Each(Step),
    /// Some bytes each time, but for this call, which does another step.
    ButFor(usize, Step),
    /// Some bytes each time, and from this call on another step.
    From(usize, Step),
}

impl Script {
    // The step of a call; the first is 1.
    fn step(self, call: usize) -> Step {
        match self {
            Script::Each(step) => step,
            Script::ButFor(at, step) if call == at => step,
            Script::From(at, step) if call >= at => step,
            Script::ButFor(..) | Script::From(..) => Step::SomeBytes,
        }
    }
}

/// A device that gives or takes everything at once.
pub const WHOLE: Script = Script::Each(Step::AllBytes);

/// A device that gives or takes at most three bytes at a time.
pub const SMALL: Script = Script::Each(Step::SomeBytes);

/// Gives the bytes of a text as its script says.
#[derive(Drop)]
pub struct ShortReader<'a> {
    script: Script,
    /// The bytes not given yet.
    pub text: &'a [u8],
    /// The reads so far.
    pub reads: usize,
}

impl<'a> ShortReader<'a> {
    /// A reader that does what a script says.
    pub fn scripted(text: &'a [u8], script: Script) -> Self {
        ShortReader {
            script,
            text,
            reads: 0,
        }
    }
}

impl Read for ShortReader<'_> {
    fn read(&mut self, buf: &mut [u8]) -> io::Result<usize> {
        self.reads = self.reads.saturating_add(1);
        let step = self.script.step(self.reads);
        let Some(most) = step.most() else {
            return Err(step.error());
        };
        let count = self.text.len().min(buf.len()).min(most);
        buf[..count].copy_from_slice(&self.text[..count]);
        self.text = &self.text[count..];
        Ok(count)
    }
}

/// Takes bytes, and answers flushes, as its script says.
#[derive(Drop)]
pub struct ShortWriter {
    script: Script,
    /// The bytes taken.
    pub taken: Vec<u8>,
    /// The writes and flushes so far.
    pub calls: usize,
}

impl ShortWriter {
    /// A writer behind these bytes that does what a script says. Its writes and flushes are counted together.
    pub fn scripted(taken: Vec<u8>, script: Script) -> Self {
        ShortWriter {
            script,
            taken,
            calls: 0,
        }
    }

    // Counts a call, and what it does.
    fn step(&mut self) -> Step {
        self.calls = self.calls.saturating_add(1);
        self.script.step(self.calls)
    }
}

impl Write for ShortWriter {
    fn write(&mut self, buf: &[u8]) -> io::Result<usize> {
        let step = self.step();
        let Some(most) = step.most() else {
            return Err(step.error());
        };
        let count = buf.len().min(most);
        match self.taken.extend_from_slice(&buf[..count]) {
            Ok(()) => Ok(count),
            Err(_) => Err(io::Error::from(ErrorKind::OutOfMemory)),
        }
    }

    fn flush(&mut self) -> io::Result<()> {
        let step = self.step();
        if step.flushes() {
            Ok(())
        } else {
            Err(step.error())
        }
    }
}

/// Takes so many bytes in all, and answers an error to each further write, or to each flush where it is told to.
#[derive(Drop)]
pub struct NarrowWriter {
    /// The bytes taken.
    pub taken: Vec<u8>,
    room: usize,
    flushes: bool,
}

impl NarrowWriter {
    /// A writer that takes so many bytes.
    pub fn new(alloc: Global, room: usize, flushes: bool) -> Self {
        NarrowWriter {
            taken: Vec::new(alloc),
            room,
            flushes,
        }
    }
}

impl Write for NarrowWriter {
    fn write(&mut self, buf: &[u8]) -> io::Result<usize> {
        let count = buf.len().min(self.room.saturating_sub(self.taken.len()));
        if count == 0 {
            return Err(io::Error::from(ErrorKind::StorageFull));
        }
        match self.taken.extend_from_slice(&buf[..count]) {
            Ok(()) => Ok(count),
            Err(_) => Err(io::Error::from(ErrorKind::OutOfMemory)),
        }
    }

    fn flush(&mut self) -> io::Result<()> {
        if self.flushes {
            Ok(())
        } else {
            Err(io::Error::from(ErrorKind::BrokenPipe))
        }
    }
}

/// Gives the bytes of a text, and then one byte again and again.
#[derive(Drop)]
pub struct Endless<'a> {
    /// The bytes of the text that are not given yet.
    pub text: &'a [u8],
    /// The byte that is given then.
    pub byte: u8,
}

impl Read for Endless<'_> {
    fn read(&mut self, buf: &mut [u8]) -> io::Result<usize> {
        if self.text.is_empty() {
            buf.fill(self.byte);
            return Ok(buf.len());
        }
        let count = self.text.len().min(buf.len());
        buf[..count].copy_from_slice(&self.text[..count]);
        self.text = &self.text[count..];
        Ok(count)
    }
}
