//! Texts that are too long to be written out.

use std::alloc::Global;
use std::process::Abort;

/// A prefix, a part so many times, and a rest.
pub fn repeated(
    rt: &impl Abort,
    alloc: Global,
    prefix: &[u8],
    part: &[u8],
    count: usize,
    rest: &[u8],
) -> Vec<u8> {
    let mut text = Vec::new(alloc);
    text.extend_from_slice(prefix).expect(rt, "a long text");
    for _ in 0..count {
        text.extend_from_slice(part).expect(rt, "a long text");
    }
    text.extend_from_slice(rest).expect(rt, "a long text");
    text
}

/// A text that is a part so many times.
pub fn repeated_text(rt: &impl Abort, alloc: Global, part: &str, count: usize) -> String {
    let mut text = String::new(alloc);
    for _ in 0..count {
        text.push_str(part).expect(rt, "a long text");
    }
    text
}
