//! Why two texts compare as they do is told on standard output.

ghost use Rattle.std.specs.Prelude.{◌≡◌, ◌<◌, length, IfErr};

use crate::{read_table, standard_output};
use coll_bench::{Fault, RunFault};
use coll_explanations::explain;
use coll_lex::{Sink, TextBuf, WriteStop};
use coll_system::at_no_line;
use coll_table::{HashKeys, Table};

/// Tells why two texts compare as they do by the table in the first of these files.
pub(crate) fn explain_texts(
    rt: &HostRuntime,
    keys: HashKeys,
    files: &[&str],
    text: &TextBuf,
    other: &TextBuf,
) -> Result<(), RunFault>
    requires { 0 < length files.now }
    ensures { IfErr result (λ ended. ended.input < length files.now) }
{
    match read_table(rt, None, keys, files) {
        Ok(table) => {
            let explained = explain_by(rt, &table, text, other);
            drop(table);
            explained
        }
        Err(fault) => Err(fault),
    }
}

// Tells why two texts compare as they do by a table, on standard output. What it wrote has left the buffer in the end; where that fails,
// it is the fault.
fn explain_by(
    rt: &HostRuntime,
    table: &Table,
    text: &TextBuf,
    other: &TextBuf,
) -> Result<(), RunFault>
    ensures { IfErr result (λ ended. ended.input ≡ 0) }
{
    match standard_output(rt) {
        Ok(mut output) => {
            let explained = explain(rt.alloc(), table, text.get(), other.get(), &mut output);
            let flushed = output.flush();
            drop(output);
            match flushed {
                Ok(()) => explained,
                Err(_) => Err(at_no_line(0, Fault::Write(WriteStop::WriteFault))),
            }
        }
        Err(fault) => Err(fault),
    }
}
