//! The collating elements of a body, found by their strings, and their entries.
//!
//! What reads a text asks here for the element that a string is. Nothing here takes memory.

ghost use Rattle.std.specs.Prelude.{◌≡◌, ◌<◌, ℕ, List, None, chars, length, option_copied};
ghost use Rattle.coll_nodes.specs.ElementTexts.{element_name_in};

use super::{Body, entry_of};
use crate::contents::Content;
use crate::{Declaration, Entry};
use coll_lex::TextBuf;

// The name of the element that a node declares, if it is one.
fn name_of_element(node: &Content) -> Option<&TextBuf>
    ensures { option_copied result ≡ element_name_in node.now }
{
    match node {
        Content::Declared(Declaration::Element { name, .. }) => Some(name),
        _ => None,
    }
}

impl Body {
    ghost use Rattle.coll_syntax.specs.declared.identifiers.Id.TheVariants.{Named};
    ghost use Rattle.coll_nodes.specs.ElementTexts.{element_name};
    ghost use Rattle.coll_nodes.specs.Placement.{entry_at};
    ghost use Rattle.coll_nodes.specs.Table.{joined_entries};
    ghost use Rattle.coll_nodes.specs.TableLayout.{declared_at, sections_at};

    /// The name of the collating element that has a string, if one has it.
    pub fn element_name(&self, text: &str) -> Option<&TextBuf>
        ensures { option_copied result ≡ element_name (declared_at self.now.layout) (chars text.now) }
    {
        self.lemma_layout();
        match self.keys.texts.find_text(text) {
            Some(node) => name_of_element(self.nodes.content(node)),
            None => None,
        }
    }

    /// A number of characters: no collating element has a string of more.
    pub fn most_element_characters(&self) -> usize
        ensures { (text : List ℕ) → result < length text → element_name (declared_at self.now.layout) text ≡ None }
    {
        self.lemma_layout();
        self.keys.texts.most_characters()
    }

    /// The entry of a name, if it has one.
    pub fn entry_named(&self, name: &TextBuf) -> Option<&Entry>
        ensures { option_copied result ≡ entry_at (joined_entries (sections_at self.now.layout)) (Named name.now) }
    {
        self.nodes.lemma_layout();
        match self.keys.placed.find_name(name) {
            Some(node) => entry_of(self.nodes.content(node)),
            None => None,
        }
    }
}
