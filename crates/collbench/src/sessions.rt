//! A session is served over standard input and standard output.

use crate::standard_input::ServesLines;
use crate::{read_table, standard_output};
use coll_bench::{RunFault, run_session};
use coll_lex::Counted;
use coll_system::ProgressLine;
use coll_table::{HashKeys, Table};

/// A session over the table in the first of some files, rewritten by the others.
#[derive(Drop)]
pub(crate) struct SessionOver {
    table: Table,
}

impl ServesLines for SessionOver {
    fn begin(
        rt: &HostRuntime,
        _line: &ProgressLine<'_>,
        keys: HashKeys,
        files: &[&str],
    ) -> Result<SessionOver, RunFault> {
        match read_table(rt, None, keys, files) {
            Ok(table) => Ok(SessionOver { table }),
            Err(fault) => Err(fault),
        }
    }

    fn serve(self, rt: &HostRuntime, _line: &ProgressLine<'_>) -> Result<(), RunFault> {
        match standard_output(rt) {
            Ok(mut output) => {
                let mut lines = Counted::new(rt.stdin());
                run_session(rt.alloc(), self.table, &mut lines, &mut output)
            }
            Err(fault) => Err(fault),
        }
    }
}
