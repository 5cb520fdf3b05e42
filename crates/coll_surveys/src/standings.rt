//! Where a line of a table stands for a survey: outside of an order, or within one.

ghost use Rattle.std.specs.Prelude.{◌≡◌, if◌then◌else◌};
ghost use Rattle.coll_surveys.specs.TableSurveys.{standing_after, standing_behind_start, standing_in_order};
ghost use Rattle.coll_surveys.specs.TableSurveys.{ends_opened as stated_end, is_in_order as stated_in_order};

use coll_syntax::TableLine;

/// Where a line of a table stands for a survey.
#[derive(Clone, Copy, Drop)]
pub(crate) enum Standing {
    /// Outside of an order.
    Outside,
    /// Within an order that the text opens, also by a line that is refused.
    Within,
    /// Within an order that the survey opened for a line outside of one.
    Opened,
}

impl Standing {
    /// Where the line stands that is behind this one.
    pub fn behind(self, line: &TableLine) -> Standing
        ensures { result ≡ standing_after self line.now }
    {
        match line {
            TableLine::OrderStart { .. } => Standing::Within,
            TableLine::OrderEnd => Standing::Outside,
            TableLine::Section(_) | TableLine::Order(_) => self.behind_in_order(),
            _ => self,
        }
    }

    // The same of a line that stands in an order: where none is open, one is opened for it.
    fn behind_in_order(self) -> Standing
        ensures { result ≡ standing_in_order self }
    {
        match self {
            Standing::Outside | Standing::Opened => Standing::Opened,
            Standing::Within => Standing::Within,
        }
    }

    /// Where the line stands that is behind one which the grammar refuses. An `order_start` opens an order where none is open.
    pub fn behind_refused(self, starts: bool) -> Standing
        ensures { result ≡ (if starts then standing_behind_start self else self) }
    {
        match self {
            Standing::Outside if starts => Standing::Within,
            _ => self,
        }
    }
}

/// Whether a line stands in an order.
pub(crate) fn is_in_order(line: &TableLine) -> bool
    ensures { result ≡ stated_in_order line.now }
{
    matches!(line, TableLine::Section(_) | TableLine::Order(_))
}

/// Whether a line ends an order that was opened for one outside of an order: it opens one of the text, or ends the category.
pub(crate) fn ends_opened(line: &TableLine) -> bool
    ensures { result ≡ stated_end line.now }
{
    matches!(line, TableLine::OrderStart { .. } | TableLine::EndCategory)
}
