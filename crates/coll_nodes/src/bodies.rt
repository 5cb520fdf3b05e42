//! The body of a table: what it declares, its sections and their entries, as nodes in rings.
//!
//! A `Body` has the nodes, look-ups by key, and counts. Contracts see its layout (`specs/Bodies.antt`), from which
//! `declared_at` and `sections_at` of `specs/TableLayout.antt` read the table. What stands in which ring, and that the look-ups
//! find just the nodes that stand in a ring, is said in `specs/SoundBodies.antt` and `specs/BodyInvariant.antt`. Here it is read,
//! and gets declarations, sections and entries; what names stand for is in `own_names`, and what is done with one node in
//! `linking`. A new kind of node is a new ring, and a look-up where it has a key.

ghost use Rattle.std.specs.Prelude.{◌≡◌, ◌∷◌, [], Some, None, false, is_some, length, IfOk, OnOk, OnErr, IsSome, IfSome, IfNone, OnSome, option_copied};
ghost use Rattle.coll_syntax.specs.Identifier.{has_name, same_name};
ghost use Rattle.coll_nodes.specs.SoundBodies.{entry_if};

mod elements;
mod linking;
mod neighbouring;
mod numbering;
mod own_names;

use crate::contents::Content;
use crate::counts::Counts;
use crate::node_keys::NodeKeys;
use crate::nodes::Nodes;
use crate::{Declaration, Entry};
use coll_lex::TextBuf;
use coll_lookups::HashKeys;
use coll_order::{NodeId, Place, RingId};
use coll_syntax::Id;
use std::alloc::{AllocError, Global};
use std::marker::Model;

/// The body of a table.
#[derive(Drop)]
pub struct Body {
    nodes: Nodes,
    // The ring of the declarations.
    declarations: RingId,
    // The ring of the sections.
    sections: RingId,
    // The nodes by their keys.
    keys: NodeKeys,
    counts: Counts,
}

impl Model for Body {
    ghost use Rattle.coll_nodes.specs.Bodies.{BodyValue};
    ghost use Rattle.coll_nodes.specs.BodyInvariant.{IsSoundBody};

    ghost Value = { BodyValue };

    ghost view = { λ b. b.nodes };

    ghost invariant = { λ b. IsSoundBody b.nodes.layout b.declarations b.sections b.keys b.counts };
}

// The entry that a node is.
fn entry_of(node: &Content) -> Option<&Entry>
    ensures { option_copied result ≡ entry_if node.now }
{
    match node {
        Content::Placed(entry) => Some(entry),
        _ => None,
    }
}

impl Body {
    ghost use Rattle.coll_order.specs.Changes.{one_step_more};
    ghost use Rattle.coll_nodes.specs.Bodies.{IsLaidOut};
    ghost use Rattle.coll_nodes.specs.Table.{has_text};
    ghost use Rattle.coll_nodes.specs.Moving.{is_free};
    ghost use Rattle.coll_nodes.specs.Placement.{entry_at};
    ghost use Rattle.coll_nodes.specs.SoundLayouts.{IsSoundLayout};
    ghost use Rattle.coll_nodes.specs.SoundBodies.{IsShaped, IsPlaceIn, IsEntryPlace, Adds, with_empty_ring};
    ghost use Rattle.coll_nodes.specs.Table.{name_of, names_of, text_of, texts_of, is_declared, is_known};
    ghost use Rattle.coll_nodes.specs.Table.{is_symbol, is_placed_in, section_names, joined_entries};
    ghost use Rattle.coll_nodes.specs.TableLayout.{content_of, declared_at, sections_at, declarations_ring, sections_ring};
    ghost use Rattle.coll_nodes.specs.WellFormed.{AreDistinct};
    ghost use Rattle.coll_nodes.specs.declared.contents.Content.TheVariants as content;

    /// Nothing declared, and no section. What a text names is looked up under these keys.
    pub fn new(alloc: Global, keys: HashKeys) -> Result<Body, AllocError>
        ensures layout { IfOk result (λ body. body.layout ≡ record { rings = [] ∷ [] ∷ []; nodes = [] }) }
        ensures steps { IfOk result (λ body. body.steps ≡ 0) }
    {
        let mut nodes = Nodes::new(alloc);
        let declarations = nodes.new_ring()?;
        let sections = nodes.new_ring()?;
        let keys = NodeKeys::new(alloc, keys)?;
        Ok(Body {
            nodes,
            declarations,
            sections,
            keys,
            counts: Counts::new(),
        })
    }

    /// A copy, in which each node has its name. It shares the keys of look-ups by name, and has new memory for all else.
    pub fn try_copy(&self, alloc: Global) -> Result<Body, AllocError>
        ensures { IfOk result (λ copy. copy ≡ self.now) }
    {
        let Body {
            nodes,
            declarations,
            sections,
            keys,
            counts,
        } = self;
        Ok(Body {
            nodes: nodes.try_copy(alloc)?,
            declarations: *declarations,
            sections: *sections,
            keys: keys.try_copy(alloc)?,
            counts: *counts,
        })
    }

    /// Where it takes memory.
    pub fn alloc(&self) -> Global {
        self.keys.names.alloc()
    }

    /// The keys that names, strings and characters are looked up under.
    pub fn hash_keys(&self) -> HashKeys {
        self.keys.names.hash_keys()
    }

    /// The nodes.
    pub(crate) fn nodes(&self) -> &Nodes
        ensures { result.now ≡ self.now }
    {
        &self.nodes
    }

    /// The number of ring steps that its changes have taken, modulo 2 to the power 64.
    pub fn steps(&self) -> u64
        ensures { result ≡ self.now.steps }
    {
        self.nodes.steps()
    }

    /// The ring of the declarations.
    pub fn declarations(&self) -> RingId
        ensures { result ≡ declarations_ring }
    {
        self.declarations
    }

    /// The ring of the sections.
    pub fn sections(&self) -> RingId
        ensures { result ≡ sections_ring }
    {
        self.sections
    }

    /// What holds of the layout of every body.
    ///
    /// It does nothing but hand the facts to callers.
    pub fn lemma_layout(&self)
        ensures laid { IsLaidOut self.now.layout }
        ensures shaped { IsShaped self.now.layout }
        ensures sound { IsSoundLayout self.now.layout }
        ensures distinct { AreDistinct same_name (names_of (declared_at self.now.layout)) }
    {
        self.nodes.lemma_named();
        self.nodes.lemma_layout();
    }

    /// Whether a name is declared in any way.
    pub fn declares(&self, name: &TextBuf) -> bool
        ensures { result ≡ is_declared (declared_at self.now.layout) name.now }
    {
        self.keys.names.find(name).is_some()
    }

    /// Whether a collating element has this string.
    pub fn has_text(&self, text: &TextBuf) -> bool
        ensures { result ≡ has_name (texts_of (declared_at self.now.layout)) text.now }
    {
        self.keys.texts.find(text).is_some()
    }

    /// Whether a section has this name.
    pub fn has_section(&self, name: &TextBuf) -> bool
        ensures { result ≡ has_name (section_names (sections_at self.now.layout)) name.now }
    {
        self.keys.sections.find(name).is_some()
    }

    /// Whether an identifier stands in a section.
    pub fn is_placed(&self, id: &Id) -> bool
        ensures { result ≡ is_placed_in (sections_at self.now.layout) id.now }
    {
        self.keys.placed.find(id).is_some()
    }

    /// Whether an identifier stands in a section, as `is_placed` tells it. A name is looked for at a guess first, which is then the
    /// name placed behind it: who asks for names in the order in which they were placed mostly finds them so.
    pub fn is_placed_behind(&self, id: &Id, guess: &mut usize) -> bool
        ensures { result ≡ is_placed_in (sections_at self.now.layout) id.now }
    {
        self.keys.placed.find_behind(id, guess).is_some()
    }

    /// Whether an identifier may stand in a section: a name has to be declared as an own name.
    pub fn is_known(&self, id: &Id) -> bool
        ensures { result ≡ is_known (declared_at self.now.layout) id.now }
    {
        match id {
            Id::Named(name) => self.is_own_name(name),
            _ => true,
        }
    }

    /// Whether an identifier is a collating symbol.
    pub fn is_symbol(&self, id: &Id) -> bool
        ensures { result ≡ is_symbol (declared_at self.now.layout) id.now }
    {
        match id {
            Id::Named(name) => self.is_symbol_name(name),
            _ => false,
        }
    }

    /// The entry of an identifier, if it has one.
    pub fn entry(&self, id: &Id) -> Option<&Entry>
        ensures { option_copied result ≡ entry_at (joined_entries (sections_at self.now.layout)) id.now }
    {
        self.nodes.lemma_layout();
        match self.keys.placed.find(id) {
            Some(node) => entry_of(self.nodes.content(node)),
            None => None,
        }
    }

    /// What a node is, whether it stands in a ring or is loose.
    pub fn content(&self, node: NodeId) -> &Content
        requires { IsSome (content_of self.now.layout node) }
        ensures { content_of self.now.layout node ≡ Some result.now }
    {
        self.nodes.content(node)
    }

    /// The number of declarations.
    pub fn declared_len(&self) -> usize
        ensures { result ≡ length (declared_at self.now.layout) }
    {
        self.counts.declarations
    }

    /// The number of sections.
    pub fn section_len(&self) -> usize
        ensures { result ≡ length (sections_at self.now.layout) }
    {
        self.counts.sections
    }

    /// The number of entries, in all sections together.
    pub fn entry_len(&self) -> usize
        ensures { result ≡ length (joined_entries (sections_at self.now.layout)) }
    {
        self.counts.entries
    }

    /// Puts a declaration directly after a place.
    pub fn declare(&mut self, new: Declaration, place: Place) -> Result<NodeId, AllocError>
        requires name { is_declared (declared_at self.old.layout) (name_of new) ≡ false }
        requires text { has_text (declared_at self.old.layout) (text_of new) ≡ false }
        requires place { IsPlaceIn self.old.layout 0 place }
        ensures ok { IfOk result (λ node. Adds self.old.layout self.new.layout node (content.Declared new) place) }
        ensures steps { OnOk result (self.new.steps ≡ one_step_more self.old.steps) }
        ensures err { OnErr result (self.new ≡ self.old) }
    {
        self.lemma_layout();
        match self.put_free(Content::Declared(new), place)? {
            Some(node) => Ok(node),
            None => unreachable!(),
        }
    }

    /// Puts a declaration directly after a place, unless its name is declared, or an element has its string: then nothing has
    /// changed, and none is answered. The name of a symbol is looked up once.
    pub fn declare_free(
        &mut self,
        new: Declaration,
        place: Place,
    ) -> Result<Option<NodeId>, AllocError>
        requires place { IsPlaceIn self.old.layout 0 place }
        ensures free { IfOk result (λ put. is_some put ≡ is_free self.old.layout (content.Declared new)) }
        ensures ok { IfOk result (λ put. IfSome put (λ node. Adds self.old.layout self.new.layout node (content.Declared new) place)) }
        ensures steps { IfOk result (λ put. OnSome put (self.new.steps ≡ one_step_more self.old.steps)) }
        ensures taken { IfOk result (λ put. IfNone put (self.new ≡ self.old)) }
        ensures err { OnErr result (self.new ≡ self.old) }
    {
        self.put_free(Content::Declared(new), place)
    }

    /// Begins a section without a name directly after a place, and answers its node and its ring.
    pub fn begin_unnamed(&mut self, place: Place) -> Result<(NodeId, RingId), AllocError>
        requires place { IsPlaceIn self.old.layout 1 place }
        ensures ok { IfOk result (λ begun.
            Adds (with_empty_ring self.old.layout) self.new.layout begun.0 (content.Begun None begun.1) place) }
        ensures ring { IfOk result (λ begun. begun.1.index ≡ length self.old.layout.rings) }
        ensures steps { OnOk result (self.new.steps ≡ one_step_more self.old.steps) }
        ensures err { OnErr result (self.new ≡ self.old) }
    {
        self.lemma_layout();
        let (node, ring) = self.make_section(None)?;
        self.put_in(node, place);
        Ok((node, ring))
    }

    /// Begins a section directly after a place, and answers its node and its ring.
    pub fn begin(&mut self, name: TextBuf, place: Place) -> Result<(NodeId, RingId), AllocError>
        requires name { has_name (section_names (sections_at self.old.layout)) name ≡ false }
        requires place { IsPlaceIn self.old.layout 1 place }
        ensures ok { IfOk result (λ begun.
            Adds (with_empty_ring self.old.layout) self.new.layout begun.0 (content.Begun (Some name) begun.1) place) }
        ensures ring { IfOk result (λ begun. begun.1.index ≡ length self.old.layout.rings) }
        ensures steps { OnOk result (self.new.steps ≡ one_step_more self.old.steps) }
        ensures err { OnErr result (self.new ≡ self.old) }
    {
        self.lemma_layout();
        let (node, ring) = self.make_section(Some(name))?;
        self.put_in(node, place);
        Ok((node, ring))
    }

    /// Puts an entry directly after a place.
    pub fn place(&mut self, entry: Entry, place: Place) -> Result<NodeId, AllocError>
        requires id { is_placed_in (sections_at self.old.layout) entry.id ≡ false }
        requires place { IsEntryPlace self.old.layout place }
        ensures ok { IfOk result (λ node. Adds self.old.layout self.new.layout node (content.Placed entry) place) }
        ensures steps { OnOk result (self.new.steps ≡ one_step_more self.old.steps) }
        ensures err { OnErr result (self.new ≡ self.old) }
    {
        self.lemma_layout();
        match self.put_free(Content::Placed(entry), place)? {
            Some(node) => Ok(node),
            None => unreachable!(),
        }
    }

    /// Puts an entry directly after a place, unless its identifier stands in a section: then nothing has changed, and none is
    /// answered. The identifier is looked up once.
    pub fn place_free(&mut self, entry: Entry, place: Place) -> Result<Option<NodeId>, AllocError>
        requires place { IsEntryPlace self.old.layout place }
        ensures free { IfOk result (λ put. is_some put ≡ is_free self.old.layout (content.Placed entry)) }
        ensures ok { IfOk result (λ put. IfSome put (λ node. Adds self.old.layout self.new.layout node (content.Placed entry) place)) }
        ensures steps { IfOk result (λ put. OnSome put (self.new.steps ≡ one_step_more self.old.steps)) }
        ensures taken { IfOk result (λ put. IfNone put (self.new ≡ self.old)) }
        ensures err { OnErr result (self.new ≡ self.old) }
    {
        self.put_free(Content::Placed(entry), place)
    }
}
