//! The nodes of entries, numbered along their rings.
//!
//! One walk along the rings gives each entry's node its place in an `EntryNumbers`, from 1. When the numbers are those of a body is
//! said in `specs/NodeNumbers.antt`.

ghost use Rattle.std.specs.Prelude.{◌≡◌, ◌<◌, ◌+◌, length, unwrap_or, IfOk, OnOk};
ghost use Rattle.coll_order.specs.declared.places.NodeId.{NodeId};
ghost use Rattle.coll_lookups.specs.EntryNumbers.{number_at};
ghost use Rattle.coll_nodes.specs.NodeNumbers.{last_number, entry_nodes, entry_nodes_in};
ghost use Rattle.coll_nodes.specs.SoundBodies.{IsSection, IsShaped, read_at};
ghost use Rattle.coll_nodes.specs.TableLayout.{content_of, nodes_in, sections_ring};

use crate::contents::Content;
use crate::nodes::Nodes;
use coll_lookups::EntryNumbers;
use coll_order::{NodeId, RingId};
use std::alloc::AllocError;

// Gives the nodes of a ring numbers, one after another behind so many others, and answers the last.
fn number_ring(
    nodes: &Nodes,
    ring: RingId,
    before: u32,
    numbers: &mut EntryNumbers,
) -> Result<u32, AllocError>
    requires ring { ring.index < length nodes.now.layout.rings }
    requires few { before + length (nodes_in nodes.now.layout ring) < 1_000_000 }
    ensures count { IfOk result (λ last. last ≡ before + length (nodes_in nodes.now.layout ring)) }
    ensures numbers { OnOk result ((node : NodeId)
        → number_at numbers.new node ≡ unwrap_or (last_number before (nodes_in nodes.now.layout ring) node) (number_at numbers.old node)) }
{
    nodes.lemma_layout();
    let mut left = nodes.first(ring);
    let mut last = before;
    'entries: while let Some(node) = left {
        last += 1;
        numbers.set(node, last)?;
        left = nodes.next(node);
    }
    Ok(last)
}

// Gives the nodes of a section's entries numbers, one after another behind so many others, and answers the last.
fn number_section(
    nodes: &Nodes,
    section: NodeId,
    before: u32,
    numbers: &mut EntryNumbers,
) -> Result<u32, AllocError>
    requires section { IsSection (length nodes.now.layout.rings) (content_of nodes.now.layout section) }
    requires few { before + length (read_at (entry_nodes_in nodes.now.layout) nodes.now.layout section) < 1_000_000 }
    ensures count { IfOk result (λ last. last ≡ before + length (read_at (entry_nodes_in nodes.now.layout) nodes.now.layout section)) }
    ensures numbers { OnOk result ((node : NodeId)
        → number_at numbers.new node ≡ unwrap_or
        (last_number before (read_at (entry_nodes_in nodes.now.layout) nodes.now.layout section) node) (number_at numbers.old node)) }
{
    match nodes.content(section) {
        Content::Begun { ring, .. } => number_ring(nodes, *ring, before, numbers),
        _ => unreachable!(),
    }
}

/// Gives the nodes of all entries numbers, one after another, from 1.
pub(crate) fn number_sections(
    nodes: &Nodes,
    sections: RingId,
    numbers: &mut EntryNumbers,
) -> Result<(), AllocError>
    requires ring { sections ≡ sections_ring }
    requires shaped { IsShaped nodes.now.layout }
    requires few { length (entry_nodes nodes.now.layout) < 1_000_000 }
    ensures { OnOk result ((node : NodeId)
        → number_at numbers.new node ≡ unwrap_or (last_number 0 (entry_nodes nodes.now.layout) node) (number_at numbers.old node)) }
{
    nodes.lemma_layout();
    let mut left = nodes.first(sections);
    let mut last = 0;
    'sections: while let Some(section) = left {
        last = number_section(nodes, section, last, numbers)?;
        left = nodes.next(section);
    }
    Ok(())
}
