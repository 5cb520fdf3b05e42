//! Transcripts of sessions over the base table: lines, and behind the line that completes it, each line of a reply.
//!
//! A line of a reply begins with a bar; `| the base table` stands for all lines of that table, `| the base table to LINE` for those up to
//! this one, and `| the base table from LINE` for it and those behind it. A row that begins with `--` says what a session shows.

use crate::statements::Lines;
use crate::tables::examples::{BASE_TABLE, push_lines};
use std::alloc::Global;
use std::process::Abort;

// An entry is moved, and moved back.
const MOVED: &str = "reorder-after <U0061>
<U0063>
reorder-end
| ok 1
:undo
| undone 0
:redo
| redone 1
:undo
| undone 0
:print
| the base table";

// An element fits once it is placed.
const ELEMENT: &str = "collating-element <ch> from \"<U0063><U0068>\"
| ok 1
:key \"cha\"
| 7 10+104 4 | 1 10+104 1 | 2 10+104 2 | @2 10+104 |
reorder-after <U0063>
<ch> <ch>;<BASE>;<MIN>;IGNORE
reorder-end
| ok 2
:key \"cha\"
| 8 4 | 1 1 | 2 2 | |
:history
| 1 element <ch>
| 2 block <U0063> 1
| history 2 0";

// Statements of three kinds, and lines that are none and get no reply.
const HISTORY: &str = "collating-symbol <X>
| ok 1
reorder-after <MIN>
<X>
<U0061> <U0061>;<X>;<MIN>;IGNORE
reorder-end
| ok 2
copy \"iso14651_t1\"
script <Latn>
LC_COLLATE
END LC_COLLATE
<U0041> <U0061>
| ok 3
collating-symbol <BASE>
| refused 33 DeclaredTwice
:history
| 1 symbol <X>
| 2 block <MIN> 2
| 3 reweight <U0041>
| history 3 0
:undo
| undone 2
:list
| 1 <BASE>
| 2 <MIN>
| 3 <X>
| 4 <U0061>
| 5 <CAP>
| 6 <U0041>
| 7 <U0062>
| 8 <U0063>
| 9 <U0064>
| section <PUNCT>
| 10 <U002D>
| listed 10
:redo
| redone 3
:undo
| undone 2
:undo
| undone 1
:undo
| undone 0
:history
| history 0 3
:print
| the base table";

/// A session as far as it has come: the text that is read, and what is written.
#[derive(Drop)]
pub struct Course {
    pub text: Vec<u8>,
    pub replies: Vec<u8>,
}

/// A session of which there is a transcript.
#[derive(Clone, Copy)]
pub enum Session {
    Moved,
    Element,
    History,
}

impl Session {
    /// The whole text, and the replies to the lines that end within so many of its bytes.
    pub fn course(self, rt: &impl Abort, alloc: Global, bytes: usize) -> Course {
        let transcript = match self {
            Session::Moved => MOVED,
            Session::Element => ELEMENT,
            Session::History => HISTORY,
        };
        course_of(rt, alloc, transcript, bytes)
    }
}

/// The whole text of a transcript, and the replies to the lines that end within so many of its bytes.
pub fn course_of(rt: &impl Abort, alloc: Global, transcript: &str, bytes: usize) -> Course {
    let mut course = Course {
        text: Vec::new(alloc),
        replies: Vec::new(alloc),
    };
    for row in transcript.split('\n') {
        course.push(rt, row, bytes);
    }
    course
}

impl Course {
    // Puts a row behind the text or the replies, unless it is a reply to a line that ends later.
    fn push(&mut self, rt: &impl Abort, row: &str, bytes: usize) {
        match row.strip_prefix("| ") {
            None if row.starts_with("--") => (),
            None => push_lines(rt, &mut self.text, &[row]),
            Some(_) if self.text.len() > bytes => (),
            Some(reply) => match base_lines(reply) {
                Some(lines) => push_lines(rt, &mut self.replies, lines),
                None => push_lines(rt, &mut self.replies, &[reply]),
            },
        }
    }
}

// The lines of the base table that a reply stands for, if it stands for some.
fn base_lines(reply: &str) -> Option<Lines> {
    if reply == "the base table" {
        return Some(BASE_TABLE);
    }
    if let Some(last) = reply.strip_prefix("the base table to ") {
        let place = place_of(last)?;
        let (front, _) = BASE_TABLE.split_at_checked(place.saturating_add(1))?;
        return Some(front);
    }
    let first = reply.strip_prefix("the base table from ")?;
    let (_, rest) = BASE_TABLE.split_at_checked(place_of(first)?)?;
    Some(rest)
}

// The place of a line of the base table.
fn place_of(wanted: &str) -> Option<usize> {
    for (place, line) in BASE_TABLE.iter().enumerate() {
        if *line == wanted {
            return Some(place);
        }
    }
    None
}
