//! What the names that a body declares stand for: their own names.
//!
//! A symbol and an element have a name of their own, and a second name stands for the own name of its symbol
//! (`specs/OwnNames.antt`). Entries and their weights speak of own names alone, so a name that is given from without is looked up
//! here first, by one look-up for each question. Nothing here takes memory; what makes another text is in `coll_statements`.

ghost use Rattle.std.specs.Prelude.{◌≡◌, chars, option_copied, option_map};
ghost use Rattle.coll_nodes.specs.OwnNames.{stands_for};
ghost use Rattle.coll_nodes.specs.SoundBodies.{declaration_if};

use super::Body;
use crate::contents::Content;
use crate::{Declaration, Entry};
use coll_lex::TextBuf;

// The declaration that a node is, if it is one.
fn declaration_of(node: &Content) -> Option<&Declaration>
    ensures { option_copied result ≡ declaration_if node.now }
{
    match node {
        Content::Declared(declaration) => Some(declaration),
        _ => None,
    }
}

// The own name that the name of a declaration stands for.
fn own_name_of(declaration: &Declaration) -> &TextBuf
    ensures { result.now ≡ stands_for declaration.now }
{
    match declaration {
        Declaration::Symbol(name) => name,
        Declaration::Element { name, .. } => name,
        Declaration::Equivalence { symbol, .. } => symbol,
    }
}

impl Body {
    ghost use Rattle.std.specs.List.{list_any};
    ghost use Rattle.std.specs.Option.{option_and_then};
    ghost use Rattle.coll_syntax.specs.declared.identifiers.Id.TheVariants.{Named};
    ghost use Rattle.coll_nodes.specs.OwnNames.{declaration_of as declaration_at, declares_second, own_name};
    ghost use Rattle.coll_nodes.specs.Placement.{entry_at};
    ghost use Rattle.coll_nodes.specs.Table.{is_own_name, is_symbol_name, joined_entries};
    ghost use Rattle.coll_nodes.specs.TableLayout.{declared_at, sections_at};

    /// The declaration of a name, if it is declared.
    pub fn declaration(&self, name: &str) -> Option<&Declaration>
        ensures { option_copied result ≡ declaration_at (declared_at self.now.layout) (chars name.now) }
    {
        self.nodes.lemma_layout();
        match self.keys.names.find_text(name) {
            Some(node) => declaration_of(self.nodes.content(node)),
            None => None,
        }
    }

    /// The declaration of a name, if it is declared, as `declaration` tells it. The name is looked for at a guess first, and the guess
    /// is then the name declared behind it: who asks for names in the order of their declarations mostly finds them so.
    pub fn declaration_behind(&self, name: &str, guess: &mut usize) -> Option<&Declaration>
        ensures { option_copied result ≡ declaration_at (declared_at self.now.layout) (chars name.now) }
    {
        self.nodes.lemma_layout();
        match self.keys.names.find_behind(name, guess) {
            Some(node) => declaration_of(self.nodes.content(node)),
            None => None,
        }
    }

    /// The own name of a declared name.
    pub fn resolve(&self, name: &str) -> Option<&str>
        ensures { option_map (λ own. chars own.now) result ≡ own_name (declared_at self.now.layout) (chars name.now) }
    {
        match self.declaration(name) {
            Some(declaration) => Some(own_name_of(declaration).get()),
            None => None,
        }
    }

    /// The entry of what a declared name stands for, if that has one.
    pub fn entry_of_name(&self, name: &str) -> Option<&Entry>
        ensures { option_copied result ≡ option_and_then (λ own. entry_at (joined_entries (sections_at self.now.layout)) (Named own))
            (own_name (declared_at self.now.layout) (chars name.now)) }
    {
        if let Some(declaration) = self.declaration(name) {
            return self.entry_named(own_name_of(declaration));
        }
        None
    }

    /// Whether a name is declared as an own name.
    pub fn is_own_name(&self, name: &TextBuf) -> bool
        ensures { result ≡ is_own_name (declared_at self.now.layout) name.now }
    {
        self.lemma_layout();
        match self.declaration(name.get()) {
            Some(Declaration::Symbol(_)) => true,
            Some(Declaration::Element { .. }) => true,
            Some(Declaration::Equivalence { .. }) => false,
            None => false,
        }
    }

    /// Whether a name is declared as a collating symbol.
    pub fn is_symbol_name(&self, name: &TextBuf) -> bool
        ensures { result ≡ is_symbol_name (declared_at self.now.layout) name.now }
    {
        self.lemma_layout();
        match self.declaration(name.get()) {
            Some(Declaration::Symbol(_)) => true,
            Some(Declaration::Element { .. }) => false,
            Some(Declaration::Equivalence { .. }) => false,
            None => false,
        }
    }

    /// Whether a name is declared as a second name.
    pub fn is_second_name(&self, name: &TextBuf) -> bool
        ensures { result ≡ list_any (declares_second name.now) (declared_at self.now.layout) }
    {
        self.lemma_layout();
        match self.declaration(name.get()) {
            Some(Declaration::Symbol(_)) => false,
            Some(Declaration::Element { .. }) => false,
            Some(Declaration::Equivalence { .. }) => true,
            None => false,
        }
    }
}
