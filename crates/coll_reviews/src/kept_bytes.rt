//! A device in memory, which keeps all that is written to it.

ghost use Rattle.std.specs.Prelude.{◌≡◌, [], Some, false};

use coll_devices::Sink;
use std::alloc::Global;
use std::io;
use std::io::Write;

/// The bytes that were written, in memory. A write fails where memory is refused.
#[derive(Drop)]
pub(crate) struct KeptBytes {
    bytes: Vec<u8>,
    errors: u64,
    flushed: bool,
}

impl KeptBytes {
    /// A device to which nothing was written yet. It takes no memory.
    pub fn new(alloc: Global) -> KeptBytes
        ensures { result.bytes.items ≡ [] }
    {
        KeptBytes {
            bytes: Vec::new(alloc),
            errors: 0,
            flushed: true,
        }
    }

    /// Lends the bytes that were written.
    pub fn bytes(&self) -> &[u8]
        ensures { result.now ≡ self.now.bytes.items }
    {
        self.bytes.as_slice()
    }

    // Counts an error.
    fn count(&mut self)
        ensures { self.new ≡ record self.old { errors = raised self.old.errors } }
    {
        self.errors = self.errors.wrapping_add(1);
    }

    ghost use Rattle.coll_devices.specs.Devices.{raised};
}

impl Sink for KeptBytes {
    ghost taken = { λ kept. Some kept.bytes.items };

    ghost failed = { λ kept. kept.errors };

    ghost flushed = { λ kept. kept.flushed };

    fn write(&mut self, buf: &[u8]) -> io::Result<usize> {
        let result = self.bytes.write(buf);
        match result {
            Ok(0) if !buf.is_empty() => self.count(),
            Ok(0) => {}
            Ok(_) => self.flushed = false,
            Err(_) => self.count(),
        }
        result
    }

    fn flush(&mut self) -> io::Result<()> {
        self.flushed = true;
        Ok(())
    }

    fn errors(&self) -> u64 {
        self.errors
    }

    fn is_flushed(&self) -> bool {
        self.flushed
    }
}
