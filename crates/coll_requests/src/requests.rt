//! The requests of a session, which its lines ask for one after another: plain data, of which the definitions speak.
//!
//! A request has one reply. It carries the number of a line, which no reply shows: that of the line itself; for a block
//! that of its first line, or of the line that spoiled it.

use crate::request_faults::RequestFault;
use crate::session_lines::Command;
use coll_syntax::Statement;

/// What a request asks for.
#[derive(Debug, Drop)]
pub enum Request {
    /// A command.
    Command(Command),
    /// A statement, to be judged by the history and the table.
    Statement(Statement),
    /// What is refused before any table is looked at.
    Refused(RequestFault),
}

/// A request of a session text.
#[derive(Debug, Drop)]
pub struct RequestAt {
    /// The number of the line that it comes from, from 1.
    pub line: u32,
    /// What it asks for.
    pub request: Request,
}

/// A fault, and the line that has it.
#[derive(Clone, Copy, Debug, PartialEq, Eq)]
pub struct FaultAt {
    /// The number of the line, from 1.
    pub line: u32,
    /// The fault.
    pub fault: RequestFault,
}
