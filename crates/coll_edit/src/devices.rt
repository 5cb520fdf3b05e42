//! Files that are opened by their names.

use coll_devices::{Sink, Source};
use coll_edit_messages::FileReason;

/// What opens files by their names.
pub trait OpensFiles {
    /// A file that is read.
    type Input: Source + Drop;

    /// A file that is written.
    type Output: Sink + Drop;

    /// Opens a file to be read.
    fn open(&mut self, name: &str) -> Result<Self::Input, FileReason>;

    /// Makes a new file to be written. One that is there is refused.
    fn create(&mut self, name: &str) -> Result<Self::Output, FileReason>;
}
