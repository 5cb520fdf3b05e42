//! An output that knows which refusal its last reply told.
//!
//! A refusal is told by the first words of a reply, `refused NUMBER`, wherever in a session it is written. `Watched` hands all bytes
//! on, and keeps the first ones since it was last told to forget; so whoever explains refusals needs no second way on which they
//! would be answered.

ghost use Rattle.std.specs.Prelude.{◌≡◌};
ghost use Rattle.coll_edit.specs.Watching.{device_of};

use coll_devices::Sink;
use std::io;

// As many bytes as tell a refusal: its words, a number of at most five digits, and a blank.
const KEPT: usize = 32;

const REFUSED: &[u8] = b"refused ";

const STILL_NEEDED: &[u8] = b"refused 71 StillNeeded ";

/// A device, and the first bytes of what it took since it was told to forget.
#[derive(Drop)]
pub struct Watched<W> {
    output: W,
    first: [u8; KEPT],
    count: usize,
}

impl<W> Watched<W> {
    /// Watches a device.
    pub fn new(output: W) -> Watched<W>
        ensures { device_of result ≡ output }
    {
        Watched {
            output,
            first: [0; KEPT],
            count: 0,
        }
    }

    /// The device.
    pub fn device(&self) -> &W
        ensures { result.now ≡ device_of self.now }
    {
        &self.output
    }

    // Forgets what was kept.
    pub(crate) fn forget(&mut self)
        ensures { device_of self.new ≡ device_of self.old }
    {
        self.first = [0; KEPT];
        self.count = 0;
    }

    // The number of the refusal that was told since it was told to forget, if one was.
    pub(crate) fn refusal(&self) -> Option<u8> {
        match number_behind(&self.first, REFUSED) {
            Some(number) => u8::try_from(number).ok(),
            None => None,
        }
    }

    // The number of the statement that needs the one which was to be withdrawn, where that is the refusal that was told.
    pub(crate) fn needed_by(&self) -> Option<u32> {
        number_behind(&self.first, STILL_NEEDED)
    }

    // Keeps the first bytes.
    fn keep(&mut self, bytes: &[u8])
        ensures { device_of self.new ≡ device_of self.old }
    {
        for byte in bytes {
            if self.count >= KEPT {
                return;
            }
            self.first[self.count] = *byte;
            self.count += 1;
        }
    }
}

// The number behind these words, if bytes begin with them.
fn number_behind(first: &[u8], words: &[u8]) -> Option<u32> {
    let digits = first.strip_prefix(words)?;
    let mut number = 0u32;
    for byte in digits {
        match char::from(*byte).to_digit(10) {
            Some(value) => number = number.saturating_mul(10).saturating_add(value),
            None => return Some(number),
        }
    }
    Some(number)
}

impl<W: Sink> Sink for Watched<W> {
    ghost taken = { λ w. W.taken (device_of w) };

    ghost failed = { λ w. W.failed (device_of w) };

    ghost flushed = { λ w. W.flushed (device_of w) };

    fn write(&mut self, buf: &[u8]) -> io::Result<usize> {
        let result = self.output.write(buf);
        if let Ok(count) = result {
            self.keep(&buf[..count]);
        }
        result
    }

    fn flush(&mut self) -> io::Result<()> {
        self.output.flush()
    }

    fn errors(&self) -> u64 {
        self.output.errors()
    }

    fn is_flushed(&self) -> bool {
        self.output.is_flushed()
    }
}
