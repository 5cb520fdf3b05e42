//! The entries beside one, and its section.
//!
//! Each is found by the node of the entry and its neighbours. Which entries these are is said over the entries of all sections, in
//! order, by the words of `specs/Beside.antt`.

ghost use Rattle.std.specs.Prelude.{◌≡◌, true, false, chars, option_copied, option_map, IfNone, IfSome};
ghost use Rattle.coll_nodes.specs.NodesBeside.{name_if};

use super::{Body, entry_of};
use crate::Entry;
use crate::contents::Content;
use crate::neighbours::{find_section, node_before, node_behind};
use coll_order::NodeId;
use coll_syntax::Id;

// The name of the section that a node is, if it has one.
fn name_of(node: &Content) -> Option<&str>
    ensures { option_map (λ name. chars name.now) result ≡ name_if node.now }
{
    match node {
        Content::Begun {
            name: Some(name),
            ..
        } => Some(name.get()),
        _ => None,
    }
}

impl Body {
    ghost use Rattle.coll_order.specs.Layout.{is_in};
    ghost use Rattle.coll_syntax.specs.Identifier.{same_id};
    ghost use Rattle.coll_nodes.specs.Beside.{entry_before, entry_behind, last_entry, section_name};
    ghost use Rattle.coll_nodes.specs.NodesBeside.{node_entry};
    ghost use Rattle.coll_nodes.specs.SoundBodies.{has_key, ids_in};
    ghost use Rattle.coll_nodes.specs.Table.{is_placed_in, joined_entries};
    ghost use Rattle.coll_nodes.specs.TableLayout.{sections_at};

    /// The entry directly before that of an identifier, in all sections joined, if both are there.
    pub fn entry_before(&self, id: &Id) -> Option<&Entry>
        ensures { option_copied result ≡ entry_before (joined_entries (sections_at self.now.layout)) id.now }
    {
        self.lemma_layout();
        let node = self.node_placed(id)?;
        let before = node_before(&self.nodes, self.sections, node)?;
        self.entry_at(before)
    }

    /// The entry directly behind that of an identifier, in all sections joined, if both are there.
    pub fn entry_behind(&self, id: &Id) -> Option<&Entry>
        ensures { option_copied result ≡ entry_behind (joined_entries (sections_at self.now.layout)) id.now }
    {
        self.lemma_layout();
        let node = self.node_placed(id)?;
        let behind = node_behind(&self.nodes, self.sections, node)?;
        self.entry_at(behind)
    }

    /// The last entry of all, if there is one.
    pub fn last_entry(&self) -> Option<&Entry>
        ensures { option_copied result ≡ last_entry (joined_entries (sections_at self.now.layout)) }
    {
        self.lemma_layout();
        let last = find_section(&self.nodes, self.sections, None).before?;
        self.entry_at(last)
    }

    /// The name of the section in which the entry of an identifier stands, if there is one, and it has a name.
    pub fn section_name(&self, id: &Id) -> Option<&str>
        ensures { option_map (λ name. chars name.now) result ≡ section_name (sections_at self.now.layout) id.now }
    {
        self.lemma_layout();
        let node = self.node_placed(id)?;
        let ring = self.nodes.ring(node);
        let section = find_section(&self.nodes, self.sections, Some(ring)).section?;
        name_of(self.nodes.content(section))
    }

    // The node of the entry of an identifier, if it has one.
    fn node_placed(&self, id: &Id) -> Option<NodeId>
        ensures some { IfSome result (λ node. has_key same_id ids_in self.now.layout id.now node ≡ true) }
        ensures linked { IfSome result (λ node. is_in self.now.layout.rings node ≡ true) }
        ensures none { IfNone result (is_placed_in (sections_at self.now.layout) id.now ≡ false) }
    {
        self.keys.placed.find(id)
    }

    // The entry that a node is, if it is one.
    fn entry_at(&self, node: NodeId) -> Option<&Entry>
        requires { is_in self.now.layout.rings node ≡ true }
        ensures { option_copied result ≡ node_entry self.now.layout node }
    {
        self.lemma_layout();
        entry_of(self.nodes.content(node))
    }
}
