//! The limit of a history.
//!
//! The definitions have it as a number, and `limits_are_stated` says that the constant is the same; it is changed in both.

ghost use Rattle.std.specs.Prelude.{◌≡◌};
ghost use Rattle.coll_history.specs.Limits.{most_remaining};

/// Most statements that remain.
pub(crate) const MOST_REMAINING: usize = 65_535;

/// The limit is the number of the definitions: 65,535 statements that remain.
///
/// It does nothing; its contract says so.
pub fn limits_are_stated()
    ensures { MOST_REMAINING ≡ most_remaining }
{}
