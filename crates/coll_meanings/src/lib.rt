//! What the lines of a published source mean, for tables and for tailorings.
//!
//! What a `SourceReader` has read of a source has ellipses between its order lines, and weights that name what stands nowhere. What is
//! made of it, a table or statements over one, takes each of these alike, so this stands here once: what names mean, over a table or over
//! none, which order lines there are, and with which weights. What each name means is for coll_source_names. What of the source each line
//! became is told, and shown by tests alone. A way through the crate:
//!
//! - `meanings`: what names mean over no table, and `table_meanings`, over one that is tailored;
//! - `source_ids`: sets of identifiers;
//! - `ellipses`, with `order_lines`: the characters between two order lines;
//! - `weights`: weights by what is placed.
#![tactic(auto)]

mod ellipses;
mod meanings;
mod order_lines;
mod source_ids;
mod table_meanings;
mod weights;

pub use ellipses::{Ellipses, Run};
pub use meanings::Meanings;
pub use order_lines::{OrderLines, put_before, put_line, put_range};
pub use source_ids::SourceIds;
pub use table_meanings::TableMeanings;
pub use weights::{
    LastNames, PlacedLookUp, TailoredLookUp, WeightLookUp, without_symbol_weights,
    without_weights_of_symbol,
};
