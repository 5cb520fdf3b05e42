//! Lines of a table, made of statements that are within the limits of the language.

ghost use Rattle.std.specs.Prelude.{IfSome};
ghost use Rattle.coll_syntax.specs.Proper.{IsProper, IsProperTableLine};

use coll_lex::{TextBuf, is_name};
use coll_syntax::{Statement, TableLine};

/// The line of a table that says what a statement does; none for a statement that tables don't have.
pub(crate) fn table_line(statement: Statement) -> Option<TableLine>
    requires { IsProper statement }
    ensures { IfSome result IsProperTableLine }
{
    match statement {
        Statement::Symbol(name) => Some(TableLine::Symbol(name)),
        Statement::Element { name, text } => Some(TableLine::Element { name, text }),
        Statement::Equivalence { name, symbol } => Some(TableLine::Equivalence { name, symbol }),
        Statement::Reweight(line) => Some(TableLine::Order(line)),
        Statement::Block { target, lines } => {
            drop(target);
            drop(lines);
            None
        }
        Statement::SectionAfter { moved, after } => {
            drop(moved);
            drop(after);
            None
        }
    }
}

/// The line that begins a section, unless its name is none.
pub(crate) fn section_line(name: TextBuf) -> Option<TableLine>
    ensures { IfSome result IsProperTableLine }
{
    if !is_name(name.get()) {
        drop(name);
        return None;
    }
    Some(TableLine::Section(name))
}
