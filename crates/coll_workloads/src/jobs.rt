//! What users do, by the public calls: each job takes texts and adds what came of them to a digest.

use crate::digest::Digest;
use coll_bench::{Batch, RunFault, read_inputs, run_batch_keyed, run_session};
use coll_delta_texts::write_delta;
use coll_differences::{difference, write_difference};
use coll_edit::{Editor, FileReason, OpensFiles, Watched, edit_lines};
use coll_import::{import_table, write_report};
use coll_lex::{Counted, TextBuf};
use coll_lint::lint;
use coll_sources::{SourceFault, SourceKind, SourceReader};
use coll_table::{HashKeys, Table};
use coll_tailorings::import_delta;
use coll_words::{Progress, review_words, sort_lines};
use std::alloc::{AllocError, Global};

// What a text is read from.
type Input<'a> = Counted<&'a [u8]>;

/// What is done, and what came of it so far.
#[derive(Clone, Copy)]
pub(crate) struct Jobs {
    alloc: Global,
    keys: HashKeys,
    digest: Digest,
}

// Files of which there is one, with words.
#[derive(Drop)]
struct WordFile<'a> {
    words: &'a [u8],
}

impl<'a> OpensFiles for WordFile<'a> {
    type Input = Counted<&'a [u8]>;

    type Output = Counted<Digest>;

    fn open(&mut self, name: &str) -> Result<Counted<&'a [u8]>, FileReason> {
        if name == "list" {
            return Ok(Counted::new(self.words));
        }
        Err(FileReason::Missing)
    }

    fn create(&mut self, name: &str) -> Result<Counted<Digest>, FileReason> {
        Ok(Counted::new(Digest::new()))
    }
}

// How far a review got, which nobody looks at.
#[derive(Clone, Copy)]
struct Unseen;

impl Progress for Unseen {
    fn put(&mut self, count: u32) {}
}

impl Jobs {
    /// Nothing done yet. Names are looked up under keys of a seed.
    pub fn new(alloc: Global, seed: u64) -> Jobs {
        Jobs {
            alloc,
            keys: HashKeys::new(seed, seed.wrapping_add(1)),
            digest: Digest::new(),
        }
    }

    /// Where memory is taken.
    pub fn alloc(&self) -> Global {
        self.alloc
    }

    /// The digest of all that came so far.
    pub fn sum(&self) -> u64 {
        self.digest.sum()
    }

    // Takes note of what ended a run.
    fn note(&mut self, ran: Result<(), RunFault>) {
        match ran {
            Ok(()) => self.digest.take(b"done\n"),
            Err(fault) => {
                self.digest.take(&[fault.fault.number()]);
                self.digest.take(&fault.line.to_le_bytes());
            }
        }
    }

    /// A batch over a table and delta files.
    pub fn batch<'a>(
        &mut self,
        batch: Batch,
        table: &'a [u8],
        deltas: &[&'a [u8]],
    ) -> Result<(), AllocError> {
        let mut inputs = inputs_of(self.alloc, deltas)?;
        let mut output = Counted::new(&mut self.digest);
        let ran = run_batch_keyed(
            self.alloc,
            self.keys,
            batch,
            &mut Counted::new(table),
            inputs.as_mut_slice(),
            &mut output,
        );
        drop(output);
        match ran {
            Ok(table) => {
                drop(table);
                self.note(Ok(()));
            }
            Err(fault) => self.note(Err(fault)),
        }
        Ok(())
    }

    /// The table of a text, rewritten by a delta file, if it has no fault.
    pub fn table<'a>(
        &mut self,
        table: &'a [u8],
        delta: &'a [u8],
    ) -> Result<Option<Table>, AllocError> {
        let mut inputs = inputs_of(self.alloc, &[delta])?;
        match read_inputs(
            self.alloc,
            self.keys,
            &mut Counted::new(table),
            inputs.as_mut_slice(),
        ) {
            Ok(table) => Ok(Some(table)),
            Err(fault) => {
                self.note(Err(fault));
                Ok(None)
            }
        }
    }

    /// A session on a table.
    pub fn session(&mut self, table: Table, lines: &[u8]) {
        let mut output = Counted::new(&mut self.digest);
        let ran = run_session(self.alloc, table, &mut Counted::new(lines), &mut output);
        drop(output);
        self.note(ran);
    }

    /// An edit of a table, in which words may be listed.
    pub fn edit(&mut self, table: Table, lines: &[u8], words: &[u8]) -> Result<(), AllocError> {
        let mut editor = Editor::new(self.alloc, table)?;
        let mut messages = Counted::new(Digest::new());
        let mut output = Watched::new(Counted::new(&mut self.digest));
        let ran = edit_lines(
            self.alloc,
            &mut editor,
            &mut Counted::new(lines),
            &mut output,
            &mut messages,
            &mut WordFile { words },
            false,
        );
        drop(output);
        drop(editor);
        self.note(ran);
        Ok(())
    }

    /// A review of a delta file over words.
    pub fn review(&mut self, table: Table, delta: &[u8], words: &[u8]) {
        let mut output = Counted::new(&mut self.digest);
        let ran = review_words(
            self.alloc,
            table,
            &mut Counted::new(delta),
            &mut Counted::new(words),
            &mut output,
            Unseen,
        );
        drop(output);
        self.note(ran);
    }

    /// Lines, sorted.
    pub fn sort(&mut self, table: &Table, lines: &[u8]) {
        let mut output = Counted::new(&mut self.digest);
        let ran = sort_lines(self.alloc, table, &mut Counted::new(lines), &mut output);
        drop(output);
        self.note(ran);
    }

    /// A lint of a table, and of a delta file.
    pub fn lint(&mut self, table: &[u8], delta: Option<&[u8]>) -> Result<(), AllocError> {
        let names = [
            String::from_str(self.alloc, "table")?,
            String::from_str(self.alloc, "delta")?,
        ];
        let mut output = Counted::new(&mut self.digest);
        let ran = lint(self.alloc, self.keys, table, delta, &names, &mut output);
        drop(output);
        match ran {
            Ok(_) => self.note(Ok(())),
            Err(fault) => self.note(Err(fault)),
        }
        Ok(())
    }

    /// What differs between two tables.
    pub fn diff(&mut self, first: &Table, second: &Table) -> Result<(), AllocError> {
        let told = difference(self.alloc, first, second)?;
        let mut output = Counted::new(&mut self.digest);
        let _ = write_difference(&mut output, &told);
        drop(output);
        Ok(())
    }

    /// The table of a source, printed, if it has no fault. Texts are named as the source names them.
    pub fn import(&mut self, texts: &[(&str, &[u8])]) -> Result<Option<Table>, AllocError> {
        match self.read_table(texts) {
            Ok(table) => {
                let mut output = Counted::new(&mut self.digest);
                let _ = table.print(&mut output);
                drop(output);
                Ok(Some(table))
            }
            Err(fault) => {
                self.digest.take(&[fault.cause.number()]);
                Ok(None)
            }
        }
    }

    // The table of a source, of which the first text is read first.
    fn read_table(&mut self, texts: &[(&str, &[u8])]) -> Result<Table, SourceFault> {
        let reader = self.read(SourceKind::Table, texts)?;
        let (lines, mut report) = reader.into_parts();
        let table = import_table(self.alloc, self.keys, lines, false, &mut report)?;
        let mut output = Counted::new(&mut self.digest);
        let _ = write_report(&mut output, &report, &[]);
        drop(output);
        Ok(table)
    }

    // Reads a source, of which the first text is read first.
    fn read(&self, kind: SourceKind, texts: &[(&str, &[u8])]) -> Result<SourceReader, SourceFault> {
        let first = match texts.first() {
            Some((name, _)) => *name,
            None => "",
        };
        let mut reader = SourceReader::new(self.alloc, self.keys, kind, first, &[])?;
        for _ in 0..texts.len() {
            let text = match reader.wanted() {
                Some(name) => text_named(texts, name),
                None => return Ok(reader),
            };
            reader.take_text(&mut Counted::new(text))?;
        }
        Ok(reader)
    }

    /// The delta file of a tailoring of a table, which it rewrites.
    pub fn import_delta(
        &mut self,
        table: &mut Table,
        texts: &[(&str, &[u8])],
    ) -> Result<(), AllocError> {
        match self.read_delta(table, texts) {
            Ok(()) => self.digest.take(b"imported\n"),
            Err(fault) => self.digest.take(&[fault.cause.number()]),
        }
        Ok(())
    }

    // Reads a tailoring, and writes the delta file.
    fn read_delta(
        &mut self,
        table: &mut Table,
        texts: &[(&str, &[u8])],
    ) -> Result<(), SourceFault> {
        let reader = self.read(SourceKind::Tailoring, texts)?;
        let (lines, mut report) = reader.into_parts();
        let made = import_delta(self.alloc, self.keys, table, lines, &mut report)?;
        let mut output = Counted::new(&mut self.digest);
        let _ = write_delta(
            &mut output,
            made.copies.as_slice(),
            made.statements.as_slice(),
        );
        let _ = write_report(&mut output, &report, &[]);
        drop(output);
        Ok(())
    }
}

// The text with a name, or none.
fn text_named<'a>(texts: &[(&str, &'a [u8])], name: &str) -> &'a [u8] {
    for (other, text) in texts {
        if *other == name {
            return *text;
        }
    }
    b""
}

// Texts to be read.
fn inputs_of<'a>(alloc: Global, texts: &[&'a [u8]]) -> Result<Vec<Input<'a>>, AllocError> {
    let mut inputs = Vec::with_capacity(alloc, texts.len())?;
    for text in texts {
        inputs.push(Counted::new(*text))?;
    }
    Ok(inputs)
}

/// A copy of each line of a text, so many at most.
pub(crate) fn lines_of(
    alloc: Global,
    text: &[u8],
    most: usize,
) -> Result<Vec<TextBuf>, AllocError> {
    let mut lines = Vec::with_capacity(alloc, most)?;
    for line in text.split(|byte| *byte == b'\n').take(most) {
        if let Ok(line) = std::str::from_utf8(line) {
            lines.push(TextBuf::copied(alloc, line)?)?;
        }
    }
    Ok(lines)
}
