//! The devices that lines are read from and replies are written to, and the count of their errors.
//!
//! A `Source` and a `Sink` are std's readers and writers with one thing more: a stored count of the
//! errors that they answered, by which a caller can tell that a fault came from the device. A `Sink`
//! also says whether all that it took was flushed. `Counted` makes both of a std device. Other
//! devices implement the traits themselves; a clause of a trait may be made stronger here, but every
//! function over devices relies on each of them.
ghost use Rattle.std.specs.Prelude.{◌≡◌, ℕ, Bool, true, List, Option};
ghost use Rattle.std.specs.Io.{ReadsAtMost, WritesAtMost};
ghost use Rattle.std.specs.Io.KnownBytes.{Keeps, ReadConsumes, WriteAppends};
ghost use Rattle.coll_devices.specs.Devices.{CountsErr, CountsWrite, FlushesAll, LeavesUnflushed, raised};

use std::io;
use std::io::{Read, Write};

/// What bytes are read from, with a count of the reads that answered an error.
pub trait Source {
    // The bytes that reads will give from here on, where they are known.
    ghost left: { Self → Option (List ℕ) };

    // The errors answered so far, modulo 2 to the power 64.
    ghost failed: { Self → ℕ };

    /// Reads some bytes into `buf`, as std's `Read::read` does: none only at the end, or where
    /// `buf` is empty. An error reads nothing.
    fn read(&mut self, buf: &mut [u8]) -> io::Result<usize>
        ensures bound { ReadsAtMost result buf.new }
        ensures bytes { ReadConsumes (left self.old) (left self.new) result buf.new }
        ensures errors { CountsErr (failed self.old) (failed self.new) result };

    /// The number of errors that reads answered, modulo 2 to the power 64.
    fn errors(&self) -> u64
        ensures { result ≡ failed self.now };
}

/// What bytes are written to, with a count of the writes and flushes that failed, and word whether all was flushed.
pub trait Sink {
    // The bytes taken so far, where they are known.
    ghost taken: { Self → Option (List ℕ) };

    // The failures so far, modulo 2 to the power 64.
    ghost failed: { Self → ℕ };

    // Whether all bytes taken were flushed: a flush succeeded since the last of them.
    ghost flushed: { Self → Bool };

    /// Writes a prefix of `buf`, as std's `Write::write` does, and answers its length. An error, and
    /// a write of some bytes that takes none, is counted. An error takes nothing.
    fn write(&mut self, buf: &[u8]) -> io::Result<usize>
        ensures bound { WritesAtMost result buf.now }
        ensures bytes { WriteAppends (taken self.old) (taken self.new) result buf.now }
        ensures errors { CountsWrite (failed self.old) (failed self.new) result buf.now }
        ensures unflushed { LeavesUnflushed (flushed self.old) (flushed self.new) result };

    /// Sends on what the device holds back. The bytes taken stay as they are; an error is counted.
    fn flush(&mut self) -> io::Result<()>
        ensures bytes { Keeps (taken self.old) (taken self.new) }
        ensures errors { CountsErr (failed self.old) (failed self.new) result }
        ensures flushed { FlushesAll (flushed self.old) (flushed self.new) result };

    /// The number of failed writes and flushes, modulo 2 to the power 64.
    fn errors(&self) -> u64
        ensures { result ≡ failed self.now };

    /// Whether all bytes taken were flushed.
    fn is_flushed(&self) -> bool
        ensures { result ≡ flushed self.now };
}

/// A std device with a count of its errors, which begins at 0, and word whether what was written to it was flushed.
#[derive(Drop)]
pub struct Counted<T> {
    device: T,
    errors: u64,
    // Whether no byte was taken since the last flush that succeeded, or else since the beginning.
    flushed: bool,
}

impl<T> Counted<T> {
    ghost use Rattle.coll_devices.specs.Counted.{device_of, errors_of, flushed_of};

    /// Wraps a device, of which no error was counted yet, and which has taken no byte since.
    pub fn new(device: T) -> Self
        ensures device { device_of result ≡ device }
        ensures errors { errors_of result ≡ 0 }
        ensures flushed { flushed_of result ≡ true }
    {
        Counted {
            device,
            errors: 0,
            flushed: true,
        }
    }

    // Counts an error.
    fn count(&mut self)
        ensures errors { errors_of self.new ≡ raised (errors_of self.old) }
        ensures device { device_of self.new ≡ device_of self.old }
        ensures flushed { flushed_of self.new ≡ flushed_of self.old }
    {
        self.errors = self.errors.wrapping_add(1);
    }
}

impl<T: Read> Source for Counted<T> {
    ghost use Rattle.coll_devices.specs.Counted.{device_of, errors_of};

    ghost left = { λ c. T.remaining (device_of c) };

    ghost failed = { errors_of };

    fn read(&mut self, buf: &mut [u8]) -> io::Result<usize> {
        let result = self.device.read(buf);
        if result.is_err() {
            self.count();
        }
        result
    }

    fn errors(&self) -> u64 {
        self.errors
    }
}

impl<T: Write> Sink for Counted<T> {
    ghost use Rattle.coll_devices.specs.Counted.{device_of, errors_of, flushed_of};

    ghost taken = { λ c. T.contents (device_of c) };

    ghost failed = { errors_of };

    ghost flushed = { flushed_of };

    fn write(&mut self, buf: &[u8]) -> io::Result<usize> {
        let result = self.device.write(buf);
        match result {
            Ok(0) if !buf.is_empty() => self.count(),
            Ok(0) => {}
            Ok(_) => self.flushed = false,
            Err(_) => self.count(),
        }
        result
    }

    fn flush(&mut self) -> io::Result<()> {
        let result = self.device.flush();
        if result.is_err() {
            self.count();
        } else {
            self.flushed = true;
        }
        result
    }

    fn errors(&self) -> u64 {
        self.errors
    }

    fn is_flushed(&self) -> bool {
        self.flushed
    }
}
