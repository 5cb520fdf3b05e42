//! Where a line of a source stands.

/// A line of a text.
#[derive(Clone, Copy, Debug, PartialEq, Eq)]
pub struct SourcePlace {
    /// The number of the text, in the order in which texts were wanted, from 0: the first is the source itself.
    pub text: usize,
    /// The number of the line, from 1; 0 where no line is meant.
    pub line: u32,
}
