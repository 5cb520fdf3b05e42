//! The physical lines of a text, one at a time, from a device.
//!
//! The reader has one buffer, made once, of twice the most bytes of a line. Bytes are read behind
//! those that it holds back; only where the buffer's end is reached are those, at most a line's bytes,
//! moved to its prefix. So no byte is moved more often than once for each line's length read, and no
//! byte is searched twice. `advance` and `line` are apart so that a loop lends no slice across a turn.
//! Whoever changes the buffer's size keeps it above the most bytes of a line: a line that is one
//! byte longer must be seen whole.
ghost use Rattle.std.specs.Prelude.{◌≡◌, ◌+◌, ◌-◌, ◌<◌, ◌≤◌, nat_lt, length, take, slice_index, slice_range};
ghost use Rattle.std.specs.Prelude.{IfOk, IfSome, IfNone, MatchResult, vec_len, [], true};
ghost use Rattle.std.specs.Bool.{OnTrue, OnFalse};
ghost use Rattle.std.specs.Io.KnownBytes.{Keeps, Consumes, IsAtEnd};
ghost use Rattle.coll_devices.specs.Devices.{CountsErr};
ghost use Rattle.coll_devices.specs.PhysicalLines.{line_feed, IsInLine};

use crate::{MOST_LINE_BYTES, ReadStop, Source};
use memchr::memchr;
use std::alloc::{AllocError, Global};
use std::io;
use std::marker::Model;

// Bytes of the buffer: room for a line of the most bytes, and for as many read ahead.
const BUFFER_BYTES: usize = 2 * MOST_LINE_BYTES;

/// A reader of physical lines, with one buffer of its own.
///
/// It stops where a line has more than 65,536 bytes before its line feed or the end, and where a read answers
/// an error; from then on each call answers the same stop, and reads nothing. Once it has met the end of the input,
/// each call answers the end, and reads nothing. So all lines given before a read error ended in a line feed.
#[derive(Drop)]
pub struct LineReader {
    // Always BUFFER_BYTES long.
    buffer: Vec<u8>,
    // Where the line given stands in the buffer.
    line_start: usize,
    line_end: usize,
    // Where the bytes stand that were read and not given yet.
    start: usize,
    end: usize,
    stop: Option<ReadStop>,
    // Whether a read gave no byte, so that the end of the input was met.
    ended: bool,
}

impl Model for LineReader {
    ghost use Rattle.coll_devices.specs.LineReading.{ReaderState};

    ghost Value = { ReaderState };

    ghost use Rattle.coll_devices.specs.LineBuffer.{reader_state, IsSoundReader};

    ghost view = { reader_state };

    ghost invariant = { IsSoundReader };
}

impl LineReader {
    ghost use Rattle.coll_devices.specs.LineReading.{no_line, Advances, Nexts, Fills, TakesFirstLine};
    ghost use Rattle.std.specs.Borrow.{sem};
    ghost use Rattle.std.specs.Io.BufRead.{Rests};
    ghost use Rattle.coll_devices.specs.contracts.line_reading.LineReader.{the_row};

    /// A reader that has given no line. It makes its buffer here, and takes no memory later.
    pub fn new(alloc: Global) -> Result<Self, AllocError>
        ensures { IfOk result (λ r. r ≡ no_line) }
    {
        Ok(LineReader {
            buffer: zero_bytes(alloc, BUFFER_BYTES)?,
            line_start: 0,
            line_end: 0,
            start: 0,
            end: 0,
            stop: None,
            ended: false,
        })
    }

    /// The line that the last `advance` gave, without its line feed; no bytes where it gave none.
    pub fn line(&self) -> &[u8]
        ensures { result.now ≡ self.now.line }
    {
        &self.buffer[self.line_start..self.line_end]
    }

    /// Goes to the next physical line: true where there is one, false at the end of the input.
    ///
    /// A last line that no line feed ends is given only once a read has met the end, that is, has given no byte.
    /// From then on the reader stands at the end: it reads no more, and each call answers the end.
    pub fn advance<R: Source>(&mut self, input: &mut R) -> Result<bool, ReadStop>
        ensures { Advances self.old self.new (R.left input.old) (R.left input.new)
            (R.failed input.old) (R.failed input.new) result }
    {
        if let Some(stop) = self.stop {
            return Err(stop);
        }
        if self.ended {
            self.forget_line();
            return Ok(false);
        }
        let mut searched = 0;
        'reads: loop {
            if self.take_line(searched) {
                return Ok(true);
            }
            searched = self.held_len();
            if searched > MOST_LINE_BYTES {
                return Err(self.stop_with(ReadStop::LineTooLong));
            }
            match self.fill(input) {
                Ok(0) => return Ok(self.take_rest()),
                Ok(_) => {}
                Err(_) => return Err(self.stop_with(ReadStop::ReadFault)),
            }
        }
    }

    /// The next physical line, or none at the end of the input: `advance`, and then `line`.
    pub fn next<R: Source>(&mut self, input: &mut R) -> Result<Option<&[u8]>, ReadStop>
        ensures* after { sem 𝓛 (Rests the_row self.entry (λ new.
            Nexts self.old new (R.left input.old) (R.left input.new)
            (R.failed input.old) (R.failed input.new) result)) }
    {
        if self.advance(input)? {
            Ok(Some(self.line()))
        } else {
            Ok(None)
        }
    }

    // Takes a line off the bytes held back, if a line feed ends one that is not too long. The first
    // `searched` bytes are known to have none.
    fn take_line(&mut self, searched: usize) -> bool
        requires within { searched ≤ MOST_LINE_BYTES }
        requires held { searched ≤ length self.old.held }
        requires none { IsInLine (take searched self.old.held) }
        ensures found { OnTrue result (TakesFirstLine self.old self.new) }
        ensures unchanged { OnFalse result (self.new ≡ self.old) }
        ensures not_found { OnFalse result (IsInLine (take (MOST_LINE_BYTES + 1) self.old.held)) }
    {
        let from = self.start + searched;
        let limit = self.end.min(self.start + MOST_LINE_BYTES + 1);
        match find_line_feed(&self.buffer[from..limit]) {
            Some(at) => {
                self.line_start = self.start;
                self.line_end = from + at;
                self.start = self.line_end + 1;
                true
            }
            None => false,
        }
    }

    // The number of bytes held back.
    fn held_len(&self) -> usize
        ensures { result ≡ length self.now.held }
    {
        self.end - self.start
    }

    // One read, into the room behind the bytes held back. The line given before is forgotten.
    fn fill<R: Source>(&mut self, input: &mut R) -> io::Result<usize>
        requires { length self.old.held ≤ MOST_LINE_BYTES }
        ensures filled { Fills self.old self.new (R.left input.old) (R.left input.new) result }
        ensures errors { CountsErr (R.failed input.old) (R.failed input.new) result }
    {
        let held = self.end - self.start;
        let buffer: &mut [u8] = &mut self.buffer;
        let start = make_room(buffer, self.start, self.end);
        let result = read_at(input, buffer, start + held);
        self.line_start = 0;
        self.line_end = 0;
        self.start = start;
        self.end = start + held;
        let count = result?;
        self.end += count;
        Ok(count)
    }

    // Gives all bytes held back as the last line, if there are any, and stands at the end from then on.
    fn take_rest(&mut self) -> bool
        ensures after { self.new ≡ record self.old { line = self.old.held; held = []; ended = true } }
        ensures given { result ≡ nat_lt 0 (length self.old.held) }
    {
        self.line_start = self.start;
        self.line_end = self.end;
        self.start = self.end;
        self.ended = true;
        self.line_start < self.line_end
    }

    // Forgets the line given.
    fn forget_line(&mut self)
        ensures { self.new ≡ record self.old { line = [] } }
    {
        self.line_start = 0;
        self.line_end = 0;
    }

    // Stops for good, and forgets the line given.
    fn stop_with(&mut self, stop: ReadStop) -> ReadStop
        ensures after { self.new ≡ record self.old { line = []; stop = Some stop } }
        ensures same { result ≡ stop }
    {
        self.forget_line();
        self.stop = Some(stop);
        stop
    }
}

// So many bytes, for a buffer.
fn zero_bytes(alloc: Global, count: usize) -> Result<Vec<u8>, AllocError>
    ensures { IfOk result (λ bytes. vec_len bytes ≡ count) }
{
    vec![in alloc; 0; count]
}

// Where the first line feed stands.
fn find_line_feed(bytes: &[u8]) -> Option<usize>
    ensures none { IfNone result (IsInLine bytes.now) }
    ensures within { IfSome result (λ at. at < length bytes.now) }
    ensures found { IfSome result (λ at. slice_index bytes.now at ≡ line_feed) }
    ensures first { IfSome result (λ at. IsInLine (take at bytes.now)) }
{
    memchr(b'\n', bytes)
}

// Where the bytes from `start` to `end` begin, once there is room behind them: at the buffer's prefix
// if they were moved, else where they began.
fn make_room(buffer: &mut [u8], start: usize, end: usize) -> usize
    requires order { start ≤ end }
    requires within { end ≤ length buffer.old }
    requires room { end - start < length buffer.old }
    ensures room { result + (end - start) < length buffer.new }
    ensures kept { slice_range buffer.new result (result + (end - start)) ≡ slice_range buffer.old start end }
{
    if end < buffer.len() {
        return start;
    }
    buffer.copy_within(start..end, 0);
    0
}

// One read into the part of the buffer from `at` on.
fn read_at<R: Source>(input: &mut R, buffer: &mut [u8], at: usize) -> io::Result<usize>
    requires { at < length buffer.old }
    ensures bound { IfOk result (λ n. at + n ≤ length buffer.new) }
    ensures prefix { take at buffer.new ≡ take at buffer.old }
    ensures bytes { MatchResult result
        (λ n. Consumes (R.left input.old) (R.left input.new) (slice_range buffer.new at (at + n)))
        (λ _. Keeps (R.left input.old) (R.left input.new)) }
    ensures end { IfOk result (λ n. n ≡ 0 → IsAtEnd (R.left input.new)) }
    ensures errors { CountsErr (R.failed input.old) (R.failed input.new) result }
{
    input.read(&mut buffer[at..])
}
