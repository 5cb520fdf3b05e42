//! A text that is being made, with the spellings of tables.

ghost use Rattle.std.specs.Prelude.{◌<◌};

use std::alloc::{AllocError, Global};

const DIGITS: &[u8; 16] = b"0123456789ABCDEF";

/// A text that is being made.
#[derive(Drop)]
pub(crate) struct Text {
    bytes: Vec<u8>,
}

impl Text {
    /// No text yet, with room for so many bytes.
    pub fn new(alloc: Global, room: usize) -> Result<Text, AllocError> {
        Ok(Text {
            bytes: Vec::with_capacity(alloc, room)?,
        })
    }

    /// The text so far.
    pub fn bytes(&self) -> &[u8] {
        self.bytes.as_slice()
    }

    /// Puts bytes at the end.
    pub fn put(&mut self, piece: &[u8]) -> Result<(), AllocError> {
        self.bytes.extend_from_slice(piece)?;
        Ok(())
    }

    /// Puts a number in decimal digits at the end, of four digits at least.
    pub fn put_number(&mut self, number: usize) -> Result<(), AllocError> {
        let mut rest = number;
        let mut digits = [b'0'; 8];
        for place in 0..8 {
            digits[7 - place] = DIGITS[rest % 10];
            rest /= 10;
        }
        self.put(if number < 10_000 {
            &digits[4..]
        } else {
            &digits[..]
        })
    }

    /// Puts the name of a symbol of a code point at the end: `<S0061>`.
    pub fn put_name(&mut self, prefix: u8, code: u32) -> Result<(), AllocError> {
        self.put(&[b'<', prefix])?;
        self.put_digits(code, if code < 0x1_0000 { 4 } else { 5 })?;
        self.put(b">")
    }

    /// Puts a character by its code point at the end: `<U0061>`.
    pub fn put_code(&mut self, code: u32) -> Result<(), AllocError> {
        self.put(b"<U")?;
        self.put_digits(code, if code < 0x1_0000 { 4 } else { 8 })?;
        self.put(b">")
    }

    /// Puts a character itself at the end.
    pub fn put_char(&mut self, code: u32) -> Result<(), AllocError> {
        match char::from_u32(code) {
            Some(c) => {
                let mut room = [0; 4];
                let spelled = c.encode_utf8(&mut room);
                self.bytes.extend_from_slice(spelled.as_bytes())?;
                Ok(())
            }
            None => Ok(()),
        }
    }

    /// Puts a number in hexadecimal digits at the end, so many of the last of eight.
    pub fn put_digits(&mut self, code: u32, count: usize) -> Result<(), AllocError> {
        let mut rest = code;
        let mut digits = [b'0'; 8];
        for place in 0..8 {
            digits[7 - place] = DIGITS[(rest % 16) as usize];
            rest /= 16;
        }
        match digits.get(8_usize.saturating_sub(count)..) {
            Some(last) => self.put(last),
            None => Ok(()),
        }
    }
}
