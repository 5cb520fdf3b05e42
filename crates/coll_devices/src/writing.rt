//! Bytes written to a device, in as many writes as it takes.
//!
//! All output goes through `write_bytes`, the only loop over `write`. It takes no memory.
ghost use Rattle.coll_devices.specs.Devices.{Writes};

use crate::{Sink, WriteStop};

/// Writes all bytes, in as many writes as the device takes them in.
///
/// It stops where a write answers an error or takes no byte; then the device has taken a prefix of the bytes.
pub fn write_bytes<W: Sink>(out: &mut W, bytes: &[u8]) -> Result<(), WriteStop>
    ensures { Writes (W.taken out.old) (W.taken out.new) (W.failed out.old) (W.failed out.new) bytes.now result }
{
    let mut rest = bytes;
    'writes: while !rest.is_empty() {
        match out.write(rest) {
            Ok(0) => return Err(WriteStop::WriteFault),
            Ok(count) => rest = &rest[count..],
            Err(_) => return Err(WriteStop::WriteFault),
        }
    }
    Ok(())
}
