//! A digest of what was written.

use std::io;
use std::io::Write;

/// What bytes come to: FNV-1a of 64 bits. It takes bytes as a device does, and keeps none of them.
#[derive(Clone, Copy)]
pub(crate) struct Digest {
    sum: u64,
}

impl Digest {
    /// The digest of no bytes.
    pub fn new() -> Digest {
        Digest {
            sum: 0xCBF2_9CE4_8422_2325,
        }
    }

    /// Takes bytes in.
    pub fn take(&mut self, bytes: &[u8]) {
        for byte in bytes {
            self.sum = (self.sum ^ u64::from(*byte)).wrapping_mul(0x0000_0100_0000_01B3);
        }
    }

    /// The digest so far.
    pub fn sum(&self) -> u64 {
        self.sum
    }
}

impl Write for Digest {
    fn write(&mut self, buf: &[u8]) -> io::Result<usize> {
        self.take(buf);
        Ok(buf.len())
    }

    fn flush(&mut self) -> io::Result<()> {
        Ok(())
    }
}
