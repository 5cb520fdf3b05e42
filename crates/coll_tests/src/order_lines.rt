//! Tests of `coll_sources`: an order line that is read where it stands says what its tokens say.
//!
//! Lines are made of pieces. Each is read alone in a category, and again joined to an empty line before it or behind it by an escape
//! character: such a line is read token by token. What the line says, or its fault, has to be the same.

use crate::assertions::assert_text;
use crate::long_texts::repeated;
use crate::meanings::told::{tell, tell_losses};
use crate::pieces::{Form, PLAIN};
use crate::random::Random;
use coll_lex::Counted;
use coll_source_lines::{Said, SourceLine};
use coll_sources::{SourceKind, SourceReader};
use coll_table::HashKeys;
use std::alloc::Global;
use std::process::Abort;

const FORMS: &[Form] = &[
    PLAIN,
    Form {
        head: "comment_char %\nescape_char /\n",
        escape: b'/',
        comment: b'%',
        end: "\n",
    },
    Form {
        head: "escape_char ;\ncomment_char <\n",
        escape: b';',
        comment: b'<',
        end: "\n",
    },
    Form {
        head: "escape_char >\ncomment_char ;\n",
        escape: b'>',
        comment: b';',
        end: "\r\n",
    },
    Form {
        head: "escape_char %\ncomment_char .\n",
        escape: b'%',
        comment: b'.',
        end: "\r\n",
    },
    Form {
        head: "comment_char I\nescape_char \"\n",
        escape: b'"',
        comment: b'I',
        end: "\n",
    },
    Form {
        head: "escape_char U\ncomment_char \"\n",
        escape: b'U',
        comment: b'"',
        end: "\n",
    },
];

// What lines are made of.
const PIECES: &[&str] = &[
    "<a>",
    "<A-NAME>",
    "<a-name-of-16-byt>",
    "<a-name-of-17-byte>",
    "<U0061>",
    "<U10FFFF>",
    "<UD800>",
    "<U00é>",
    "<@>>",
    "<@@>",
    "<>",
    "<a",
    "a>",
    "UNDEFINED",
    "IGNORE",
    "IGNOREX",
    "..",
    "...",
    "....",
    ".....",
    ";",
    ";",
    ";",
    " ",
    " ",
    "\t",
    ",",
    "\"<a><U0062>\"",
    "\"<a>b\"",
    "\"\"",
    "\"",
    "%",
    "% of <a> @ \"",
    "@",
    "@a",
    "x",
    "é",
    "section",
    "order_end",
    "collating-symbol <b>",
];

// Pieces of lines that mostly say something.
const LIKELY: &[&str] = &[
    "<a>",
    "<a-name-of-16-byt>",
    "<U0061>",
    "IGNORE",
    "..",
    "\"<a><U0062>\"",
    "\"\"",
    "% <a>",
];

// Puts a first piece and weights behind a line, with a blank and semicolons between.
fn push_likely(rt: &impl Abort, line: &mut Vec<u8>, form: Form, random: &mut Random) {
    form.push(rt, line, random.one_of(LIKELY));
    form.push(rt, line, " ");
    for _ in 0..random.below(5) {
        form.push(rt, line, random.one_of(LIKELY));
        form.push(rt, line, random.one_of(&[";", " ; ", "; ", " "]));
    }
    form.push(rt, line, random.one_of(LIKELY));
}

// A line that is made of pieces, and ends with no escape character.
fn made_line(rt: &impl Abort, alloc: Global, form: Form, random: &mut Random) -> Vec<u8> {
    let mut line = Vec::new(alloc);
    if random.is_so(50) {
        push_likely(rt, &mut line, form, random);
    }
    for _ in 0..random.below(7) {
        form.push(rt, &mut line, random.one_of(PIECES));
    }
    if line.last() == Some(&form.escape) {
        line.push(b'x').expect(rt, "a line");
    }
    line
}

// What stands before a line and behind it where it is read alone.
const ALONE: (&str, &str) = ("LC_COLLATE\n", "\nEND LC_COLLATE\n");

// The same where an empty line is joined to it by an escape character, before it or behind it.
const JOINED: &[(&str, &str)] = &[
    ("LC_COLLATE\n@\n", "\nEND LC_COLLATE\n"),
    ("LC_COLLATE\n", "@\n\nEND LC_COLLATE\n"),
];

// Tells what lines say.
fn tell_all(rt: &impl Abort, alloc: Global, lines: &[SourceLine], text: &mut Vec<u8>) {
    for line in lines {
        match &line.said {
            Said::Order(order) => tell(rt, alloc, order, text),
            Said::Unread => tell(rt, alloc, "unread", text),
            _ => tell(rt, alloc, "another", text),
        }
    }
}

// All that a reader tells of a source that has a line between these pieces.
fn told(rt: &impl Abort, alloc: Global, form: Form, line: &[u8], around: (&str, &str)) -> Vec<u8> {
    let mut source = Vec::new(alloc);
    source
        .extend_from_slice(form.head.as_bytes())
        .expect(rt, "a source");
    form.push(rt, &mut source, around.0);
    source.extend_from_slice(line).expect(rt, "a source");
    form.push(rt, &mut source, around.1);
    let mut told = Vec::new(alloc);
    let mut reader = SourceReader::new(
        alloc,
        HashKeys::zeros(),
        SourceKind::Table,
        "source",
        &[],
    ).expect(rt, "a reader");
    if let Err(fault) = reader.take_text(&mut Counted::new(source.as_slice())) {
        tell(rt, alloc, fault.cause.number(), &mut told);
    }
    drop(source);
    let (lines, report) = reader.into_parts();
    tell_all(rt, alloc, &lines, &mut told);
    tell_losses(rt, report.losses(), &mut told);
    drop(lines);
    drop(report);
    told
}

// Asserts that a line says what its tokens say.
fn assert_line(rt: &impl Abort, alloc: Global, form: Form, line: &[u8]) {
    let wanted = told(rt, alloc, form, line, ALONE);
    for around in JOINED {
        let given = told(rt, alloc, form, line, *around);
        assert_text(rt, alloc, &given, &wanted);
        drop(given);
    }
    drop(wanted);
}

// Asserts it of made lines of a form, and of weights of so many symbols.
fn assert_form(rt: &impl Abort, alloc: Global, form: Form, random: &mut Random) {
    for _ in 0..60 {
        let line = made_line(rt, alloc, form, random);
        assert_line(rt, alloc, form, &line);
        drop(line);
    }
    for count in 31usize..=33 {
        let line = repeated(rt, alloc, b"<a> \"", b"<a>", count, b"\"");
        assert_line(rt, alloc, form, &line);
        drop(line);
    }
}

#[test]
fn an_order_line_read_where_it_stands_says_what_its_tokens_say(rt: HostRuntime) {
    let mut random = Random::new(1);
    for form in FORMS {
        assert_form(&rt, rt.alloc(), *form, &mut random);
    }
}
