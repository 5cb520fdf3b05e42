//! The limits of a table.
//!
//! The definitions have these limits as numbers, and `limits_are_stated` says that the constants are the same; a limit is
//! changed in both.

ghost use Rattle.std.specs.Prelude.{◌≡◌};
ghost use Rattle.coll_nodes.specs.Limits.{most_entries, most_declarations, most_sections};

/// Most entries of a table, in all sections together.
pub const MOST_ENTRIES: usize = 262_144;

/// Most declarations of a table.
pub const MOST_DECLARATIONS: usize = 262_144;

/// Most sections of a table, the first, which has no name, counted.
pub const MOST_SECTIONS: usize = 1_024;

/// The limits are the numbers of the definitions: 262,144 entries, 262,144 declarations and 1,024 sections.
///
/// It does nothing; its contract says so.
pub fn limits_are_stated()
    ensures entries { MOST_ENTRIES ≡ most_entries }
    ensures declarations { MOST_DECLARATIONS ≡ most_declarations }
    ensures sections { MOST_SECTIONS ≡ most_sections }
{}
