//! What a table declares, and its order, as lists of points.
//!
//! A point of the order is where a section begins, or where an entry stands; all of them, in order, are the order. What is declared is a
//! list of its own, in which each declaration is a point.

ghost use Rattle.std.specs.Prelude.{◌≡◌, chars, IfOk};
ghost use Rattle.coll_nodes.specs.TableLayout.{collation};
ghost use Rattle.coll_nodes.specs.WalkItems.{visited_by};
ghost use Rattle.coll_syntax.specs.Identifier.{same_name};
ghost use Rattle.coll_differences.specs.Orders.{beginnings, begins_section, has_mark, mark_at, mark_of, marks_declared, marks_in};
ghost use Rattle.coll_differences.specs.Orders.{marks_of, same_mark};

use crate::walked_sameness::is_same_declaration;
use coll_syntax::Id;
use coll_table::{DeclaredItem, Table, WalkItem};
use std::alloc::{AllocError, Global};

/// A point of the order of a table, or of what it declares.
#[derive(Clone, Copy)]
pub enum Point<'a> {
    /// This is declared.
    Declared(DeclaredItem<'a>),
    /// The section with this name begins.
    Section(&'a str),
    /// The entry of this identifier stands.
    Entry(&'a Id),
}

/// What a table declares, point by point.
pub(crate) fn points_declared<'a>(
    alloc: Global,
    table: &'a Table,
) -> Result<Vec<Point<'a>>, AllocError>
    ensures { IfOk result (λ points. marks_of points.items ≡ marks_declared (collation table.now)) }
{
    let mut points = Vec::new(alloc);
    let mut left = table.declared();
    'declared: while let Some(item) = left.next() {
        points.push(Point::Declared(item))?;
    }
    Ok(points)
}

/// The order of a table, point by point.
pub(crate) fn points_of<'a>(alloc: Global, table: &'a Table) -> Result<Vec<Point<'a>>, AllocError>
    ensures { IfOk result (λ points. marks_of points.items ≡ marks_in (collation table.now)) }
{
    let mut points = Vec::new(alloc);
    let mut left = table.walk();
    'points: while let Some(item) = left.next() {
        points.push(point_of(item))?;
    }
    Ok(points)
}

// The point at which a walk visits something.
fn point_of<'a>(item: WalkItem<'a>) -> Point<'a>
    ensures { mark_of result ≡ mark_at (visited_by item.entry) }
{
    match item {
        WalkItem::Section(name) => Point::Section(name),
        WalkItem::Entry(entry) => Point::Entry(entry.id()),
    }
}

/// Where the sections of an order begin.
pub(crate) fn beginnings_of<'a>(
    alloc: Global,
    points: &[Point<'a>],
) -> Result<Vec<Point<'a>>, AllocError>
    ensures { IfOk result (λ found. marks_of found.items ≡ beginnings (marks_of points.now)) }
{
    let mut found = Vec::new(alloc);
    for point in points {
        if begins(*point) {
            found.push(*point)?;
        }
    }
    Ok(found)
}

// Whether a section begins at a point.
fn begins(point: Point<'_>) -> bool
    ensures { result ≡ begins_section (mark_of point.entry) }
{
    match point {
        Point::Declared(_) => false,
        Point::Section(_) => true,
        Point::Entry(_) => false,
    }
}

/// Whether a point is among others. They are looked at one by one.
pub(crate) fn has_point(points: &[Point<'_>], point: Point<'_>) -> bool
    ensures { result ≡ has_mark (marks_of points.now) (mark_of point.entry) }
{
    for other in points {
        if is_same(point, *other) {
            return true;
        }
    }
    false
}

/// Whether two points are the same: declarations that declare the same, sections of one name, or entries of one identifier.
pub(crate) fn is_same(point: Point<'_>, other: Point<'_>) -> bool
    ensures { result ≡ same_mark (mark_of point.entry) (mark_of other.entry) }
{
    match (point, other) {
        (Point::Declared(item), Point::Declared(other)) => is_same_declaration(item, other),
        (Point::Section(name), Point::Section(other)) => is_same_text(name, other),
        (Point::Entry(id), Point::Entry(other)) => id.is_same(other),
        _ => false,
    }
}

/// Whether two texts have the same characters.
pub(crate) fn is_same_text(text: &str, other: &str) -> bool
    ensures { result ≡ same_name (chars text.now) (chars other.now) }
{
    text == other
}
