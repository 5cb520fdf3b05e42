//! How a text ends before its category does (POSIX.1-2017, 7.3).
//!
//! Each reader of a category, of tables, of delta files and of published sources, asks its lexer, and makes a fault of its own of it.

/// Where a text ends that ends before its category does, and how.
#[derive(Clone, Copy, Debug, PartialEq, Eq)]
pub enum EarlyEnd {
    /// In a logical line, of this number, that its last physical line continues.
    LeftOpen(u32),
    /// In the category, behind so many lines.
    WithinCategory(u32),
    /// Before the category, behind so many lines.
    BeforeCategory(u32),
}
