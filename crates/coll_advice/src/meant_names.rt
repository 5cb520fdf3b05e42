//! The name that may be meant by one that a fault is about.
//!
//! Where a name isn't declared, or is that of a target without an entry, a declared name may be meant that is near, and the name of a
//! section where no section has it. What is spelled as a character but for its digits isn't looked for: what to do says how a character
//! is spelled (`spelled_names`).

ghost use Rattle.std.specs.Prelude.{◌≡◌, chars, IfSome};
ghost use Rattle.coll_nodes.specs.TableLayout.{collation};
ghost use Rattle.coll_advice.specs.MeantNames.{IsMeant, may_be_mistyped, names_meant};

use crate::near_names::nearest_name;
use crate::near_sections::nearest_section;
use crate::spelled_names::is_code_point;
use coll_syntax::Id;
use coll_table::Table;

// The numbers of what isn't declared, of a target that has no entry, and of a section that isn't there.
const NOT_DECLARED: u8 = 34;

const TARGET_NOT_PLACED: u8 = 50;

const NO_SUCH_SECTION: u8 = 52;

/// The name that may be meant where a fault with this number is about an identifier: the nearest one of those that it may be, where one
/// is near. It takes no memory.
pub fn meant_name<'a>(table: &'a Table, number: u8, id: &Id) -> Option<&'a str>
    ensures { IfSome result (λ near. IsMeant (names_meant (collation table.now) number) id.now (chars near.now)) }
{
    let Id::Named(name) = id else {
        return None;
    };
    match number {
        NO_SUCH_SECTION => nearest_section(table, name.get()),
        NOT_DECLARED | TARGET_NOT_PLACED if !is_code_point(name.get()) => {
            nearest_name(table, name.get())
        }
        _ => None,
    }
}

/// Whether a fault with this number is about a name that may be mistyped.
pub fn may_be_mistyped(number: u8) -> bool
    ensures { result ≡ may_be_mistyped number }
{
    matches!(number, NOT_DECLARED | TARGET_NOT_PLACED | NO_SUCH_SECTION)
}
