//! How far a lint got, told while it goes on.
//!
//! What a lint tells is written at its end, so whoever waits for it may want to see how much of the table was judged. What is told so
//! is no part of any contract: it changes nothing but the one to whom it is told.

ghost use Rattle.std.specs.Prelude.{◌≡◌, Some};
ghost use Rattle.coll_devices.specs.Counted.{device_of, errors_of};

use coll_devices::{Counted, Source};
use std::io;

/// Who is told how far a lint got.
pub trait Progress {
    /// Takes note that so many bytes of the table were judged, of so many.
    fn judged(&self, bytes: usize, all: usize);

    /// Takes note that no more of them are judged: what remains is a delta file, and the survey.
    fn surveys(&self);
}

/// Nobody, to whom all is told where no one wants to know it.
pub(crate) struct Nobody;

impl Progress for Nobody {
    fn judged(&self, _bytes: usize, _all: usize) {}

    fn surveys(&self) {}
}

/// A text that is judged, and who is told how far.
#[derive(Drop)]
pub(crate) struct WatchedText<'a, P> {
    text: Counted<&'a [u8]>,
    progress: &'a P,
    // How many bytes were read: they are judged before more are read.
    read: usize,
    // How many there are.
    all: usize,
}

impl<'a, P: Progress> WatchedText<'a, P> {
    /// A text of which nothing was read.
    pub fn new(text: &'a [u8], progress: &'a P) -> WatchedText<'a, P>
        ensures { (device_of result.text).now ≡ text.now }
    {
        WatchedText {
            text: Counted::new(text),
            progress,
            read: 0,
            all: text.len(),
        }
    }
}

impl<P: Progress> Source for WatchedText<'_, P> {
    ghost left = { λ watched. Some (device_of watched.text).now };

    ghost failed = { λ watched. errors_of watched.text };

    fn read(&mut self, buf: &mut [u8]) -> io::Result<usize> {
        self.progress.judged(self.read, self.all);
        match self.text.read(buf) {
            Ok(count) => {
                self.read = self.read.saturating_add(count);
                Ok(count)
            }
            Err(error) => Err(error),
        }
    }

    fn errors(&self) -> u64 {
        self.text.errors()
    }
}
