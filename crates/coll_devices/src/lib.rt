//! Devices: bytes that come in as physical lines, and bytes that go out.
//!
//! The lowest crate of all that read and write. It knows nothing of what stands in a line. Bytes come from a `Source` and
//! go to a `Sink`, whose errors are counted. What a part promises stands in its contracts, in the words that `specs/`
//! defines. A way through the crate, each file with its definitions in `specs/`:
//!
//! - `devices`: what is read from and written to, and the count of its errors (`Devices`, `Counted`);
//! - `stops`: why no line could be read, and why bytes could not be written (`Stops`);
//! - `line_reading`: the physical lines of a device, one at a time (`LineReading`, `LineBuffer`, with `Limits`);
//! - `physical_lines`: the lines of a text, and a line without its carriage return (`PhysicalLines`);
//! - `writing`: bytes, written whole or up to a stop.
#![tactic(auto)]

mod devices;
mod limits;
mod line_reading;
mod physical_lines;
mod stops;
mod writing;

pub use devices::{Counted, Sink, Source};
pub use limits::{MOST_LINE_BYTES, limits_are_stated};
pub use line_reading::LineReader;
pub use physical_lines::without_return;
pub use stops::{ReadStop, WriteStop};
pub use writing::write_bytes;
