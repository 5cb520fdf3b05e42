//! Why the system refused to open a file, to read one, or to write.
//!
//! A fault of a device has a number and no more; here the reason that the system gives is kept beside it. It is told in words
//! (`FileReason` of coll_edit_messages), or, where nobody reads any longer what is written, ends what serves a person quietly.

ghost use Rattle.std.specs.Prelude.{◌≡◌, IfErr};
ghost use Rattle.coll_devices.specs.Counted.{device_of, errors_of, flushed_of};

use crate::files::at_no_line;
use coll_bench::{Fault, RunFault};
use coll_edit_messages::FileReason;
use coll_lex::{Counted, LexFault, Sink, Source};
use std::io;
use std::io::{BufWriter, ErrorKind, Read, Stdout, Write};

/// A device with the kind of the last error that it answered.
#[derive(Drop)]
pub struct Reasoned<T> {
    device: Counted<T>,
    reason: Option<ErrorKind>,
}

impl<T> Reasoned<T> {
    /// Wraps a device, which has answered no error yet.
    pub fn new(device: T) -> Reasoned<T>
        ensures device { device_of result.device ≡ device }
        ensures errors { errors_of result.device ≡ 0 }
    {
        Reasoned {
            device: Counted::new(device),
            reason: None,
        }
    }

    /// The kind of the last error, if there was one.
    pub fn reason(&self) -> Option<ErrorKind>
        ensures { result ≡ self.now.reason }
    {
        self.reason
    }

    /// Whether the last error told that nobody reads any longer what is written.
    pub fn is_closed(&self) -> bool {
        matches!(self.reason, Some(ErrorKind::BrokenPipe))
    }
}

impl<T: Read> Source for Reasoned<T> {
    ghost left = { λ r. T.remaining (device_of r.device) };

    ghost failed = { λ r. errors_of r.device };

    fn read(&mut self, buf: &mut [u8]) -> io::Result<usize> {
        let read = self.device.read(buf);
        if let Err(error) = &read {
            self.reason = Some(error.kind());
        }
        read
    }

    fn errors(&self) -> u64 {
        Source::errors(&self.device)
    }
}

impl<T: Write> Sink for Reasoned<T> {
    ghost taken = { λ r. T.contents (device_of r.device) };

    ghost failed = { λ r. errors_of r.device };

    ghost flushed = { λ r. flushed_of r.device };

    fn write(&mut self, buf: &[u8]) -> io::Result<usize> {
        let written = self.device.write(buf);
        if let Err(error) = &written {
            self.reason = Some(error.kind());
        }
        written
    }

    fn flush(&mut self) -> io::Result<()> {
        let flushed = self.device.flush();
        if let Err(error) = &flushed {
            self.reason = Some(error.kind());
        }
        flushed
    }

    fn errors(&self) -> u64 {
        Sink::errors(&self.device)
    }

    fn is_flushed(&self) -> bool {
        self.device.is_flushed()
    }
}

/// Standard output, with a buffer, which keeps why it refuses what is written.
pub type ReasonedOutput = Reasoned<BufWriter<Stdout>>;

/// Standard output, which has refused nothing yet.
pub fn reasoned_output(rt: &HostRuntime) -> Result<ReasonedOutput, RunFault>
    ensures { IfErr result (λ fault. fault.input ≡ 0) }
{
    match BufWriter::new(rt.alloc(), rt.stdout()) {
        Ok(buffered) => Ok(Reasoned::new(buffered)),
        Err(_) => Err(at_no_line(0, Fault::Lex(LexFault::OutOfMemory))),
    }
}

/// The reason that a kind of error tells.
pub fn reason_of(kind: ErrorKind) -> FileReason {
    match kind {
        ErrorKind::NotFound => FileReason::Missing,
        ErrorKind::PermissionDenied => FileReason::Denied,
        ErrorKind::IsADirectory => FileReason::Folder,
        ErrorKind::NotADirectory => FileReason::NoFolder,
        ErrorKind::InvalidFilename => FileReason::LongName,
        ErrorKind::AlreadyExists => FileReason::Exists,
        ErrorKind::OutOfMemory => FileReason::NoMemory,
        _ => FileReason::Other,
    }
}

/// A reason of the system in words, where it gave one that is known.
pub fn told_reason(reason: Option<ErrorKind>) -> Option<&'static str> {
    match reason_of(reason?) {
        FileReason::Other => None,
        reason => Some(reason.words()),
    }
}
