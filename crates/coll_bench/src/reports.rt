//! How the fault that ended a run is told: a line, and an exit status.
//!
//! None of this takes memory, so that lack of memory can be told as well.

ghost use Rattle.std.specs.Prelude.{◌≡◌, ◌<◌, ◌++◌, length, map, string_bytes, IfErr};
ghost use Rattle.coll_devices.specs.Devices.{CountsErr, Sends, Writes};
ghost use Rattle.coll_bench.specs.Reports.{fault_line, behind_name, exit_status as stated_status, failed_write};

use coll_devices::{Sink, WriteStop};
use coll_faults::{Fault, RunFault};
use coll_texts::{Piece, write_pieces};

/// Writes the line of a fault, `FILE:LINE: NUMBER NAME`, where FILE is the name of its input, and LINE is 0 where it comes from no
/// line.
///
/// There is a name for the input. Where a write fails, the device has taken a prefix of the line.
pub fn write_fault<W: Sink>(fault: &RunFault, names: &[String], out: &mut W) -> Result<(), Fault>
    requires named { fault.now.input < length names.now }
    ensures sent { Sends (W.taken out.old) (W.taken out.new) (fault_line (map string_bytes names.now) fault.now) result }
    ensures fault { IfErr result (λ refused. refused ≡ failed_write) }
    ensures errors { CountsErr (W.failed out.old) (W.failed out.new) result }
{
    match write_named(fault, names[fault.input].as_str(), out) {
        Ok(()) => Ok(()),
        Err(stop) => Err(Fault::Write(stop)),
    }
}

// Writes the line of a fault, with the name of its input.
fn write_named<W: Sink>(fault: &RunFault, name: &str, out: &mut W) -> Result<(), WriteStop>
    ensures { Writes (W.taken out.old) (W.taken out.new) (W.failed out.old) (W.failed out.new) (name.now ++ behind_name fault.now) result }
{
    write_pieces(
        out,
        &[
            Piece::Bytes(name.as_bytes()),
            Piece::Bytes(b":"),
            Piece::Number(u64::from(fault.line)),
            Piece::Bytes(b": "),
            Piece::Number(u64::from(fault.fault.number())),
            Piece::Bytes(b" "),
            Piece::Bytes(fault.fault.name().as_bytes()),
            Piece::Bytes(b"\n"),
        ],
    )
}

/// The exit status of the program for the fault that ended its run: 2 where a device failed, 1 for every other fault.
pub fn exit_status(fault: &Fault) -> u8
    ensures { result ≡ stated_status fault.now }
{
    match fault.number() {
        67 | 68 => 2,
        _ => 1,
    }
}
