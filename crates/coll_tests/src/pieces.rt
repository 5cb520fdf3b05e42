//! Texts that are made of pieces, each in several forms: under other directives, and with other ends of lines.

use std::process::Abort;

/// How a text is written.
#[derive(Clone, Copy)]
pub struct Form {
    /// Its directives.
    pub head: &'static str,
    /// The escape character, which is `@` in a piece.
    pub escape: u8,
    /// The comment character, which is `%` in a piece.
    pub comment: u8,
    /// What ends a line of a piece.
    pub end: &'static str,
}

/// Without directives.
pub const PLAIN: Form = Form {
    head: "",
    escape: b'\\',
    comment: b'#',
    end: "\n",
};

impl Form {
    /// Puts a piece behind a text.
    pub fn push(self, rt: &impl Abort, text: &mut Vec<u8>, piece: &str) {
        for byte in piece.as_bytes() {
            match *byte {
                b'@' => text.push(self.escape).expect(rt, piece),
                b'%' => text.push(self.comment).expect(rt, piece),
                b'\n' => text
                    .extend_from_slice(self.end.as_bytes())
                    .expect(rt, piece),
                other => text.push(other).expect(rt, piece),
            }
        }
    }
}
