//! A table that grows.
//!
//! A `BodyBuilder` puts declarations, sections and entries behind those that are there, and answers what is there by look-ups. What
//! contracts see of it are the two lists (`Parts` of `specs/Building.antt`); `into_body` gives the body that has them.
//!
//! It judges two things alone: whether a name, and the string of an element, is free (`declare_free`), and whether an identifier stands
//! in a section already (`place_last`). What else may be put where is for its caller to know. Beside the body, which knows where its
//! declarations end, it keeps the places where the sections and the last of them end (`IsSoundBuilder` of `specs/SoundBodies.antt` of
//! coll_nodes), so that no call walks.

ghost use Rattle.std.specs.Prelude.{◌≡◌, ◌∷◌, ◌++◌, ◌&&◌, [], true, false, not, IfOk, OnOk, OnErr, length, option_copied};
ghost use Rattle.coll_syntax.specs.Identifier.{has_name};

use crate::own_weights::give_own_weights;
use coll_lex::TextBuf;
use coll_lookups::HashKeys;
use coll_nodes::{Body, Declaration, Entry, Walk};
use coll_order::Place;
use coll_syntax::Id;
use std::alloc::{AllocError, Global};
use std::marker::Model;

/// A table that grows.
#[derive(Drop)]
pub(crate) struct BodyBuilder {
    body: Body,
    // The place behind the last section.
    sections_end: Place,
    // The place behind the last entry of the last section.
    entries_end: Place,
}

impl Model for BodyBuilder {
    ghost use Rattle.coll_texts.specs.Building.{Parts};

    ghost Value = { Parts };

    ghost use Rattle.coll_texts.specs.Building.{parts_at};
    ghost use Rattle.coll_nodes.specs.SoundBodies.{IsSoundBuilder};

    ghost view = { λ b. parts_at b.body.layout };

    ghost invariant = { λ b. IsSoundBuilder b.body.layout b.sections_end b.entries_end };
}

impl BodyBuilder {
    ghost use Rattle.std.specs.List.{list_any};
    ghost use Rattle.coll_texts.specs.Building.{no_parts, parts_at};
    ghost use Rattle.coll_texts.specs.OwnWeights.{is_equivalence};
    ghost use Rattle.coll_texts.specs.Loading.{with_last, with_section};
    ghost use Rattle.coll_nodes.specs.Table.{name_of, text_of, texts_of, is_declared, is_known};
    ghost use Rattle.coll_nodes.specs.Table.{is_placed_in, section_names, joined_entries};
    ghost use Rattle.coll_nodes.specs.Table.{has_text};
    ghost use Rattle.coll_nodes.specs.OwnNames.{declaration_of, own_sections};
    ghost use Rattle.coll_nodes.specs.Walks.{visited};

    /// Nothing declared, and an empty first section.
    pub(crate) fn new(alloc: Global, keys: HashKeys) -> Result<BodyBuilder, AllocError>
        ensures { IfOk result (λ builder. builder ≡ no_parts) }
    {
        let mut body = Body::new(alloc, keys)?;
        body.lemma_layout();
        let sections = body.sections();
        match body.begin_unnamed(Place::Head(sections)) {
            Ok((section, ring)) => Ok(BodyBuilder {
                body,
                sections_end: Place::After(section),
                entries_end: Place::Head(ring),
            }),
            Err(error) => {
                drop(body);
                Err(error)
            }
        }
    }

    /// Whether a name is declared in any way.
    pub(crate) fn declares(&self, name: &TextBuf) -> bool
        ensures { result ≡ is_declared self.now.declared name.now }
    {
        self.body.declares(name)
    }

    /// Whether a collating element has this string.
    pub(crate) fn has_text(&self, text: &TextBuf) -> bool
        ensures { result ≡ has_name (texts_of self.now.declared) text.now }
    {
        self.body.has_text(text)
    }

    /// Whether a section has this name.
    pub(crate) fn has_section(&self, name: &TextBuf) -> bool
        ensures { result ≡ has_name (section_names self.now.sections) name.now }
    {
        self.body.has_section(name)
    }

    /// Whether an identifier stands in a section.
    pub(crate) fn is_placed(&self, id: &Id) -> bool
        ensures { result ≡ is_placed_in self.now.sections id.now }
    {
        self.body.is_placed(id)
    }

    /// Whether an identifier stands in a section. A name is looked for at a guess first, which is then the name placed behind it.
    pub(crate) fn is_placed_behind(&self, id: &Id, guess: &mut usize) -> bool
        ensures { result ≡ is_placed_in self.now.sections id.now }
    {
        self.body.is_placed_behind(id, guess)
    }

    /// Whether an identifier may stand in a section: a name has to be declared as an own name.
    pub(crate) fn is_known(&self, id: &Id) -> bool
        ensures { result ≡ is_known self.now.declared id.now }
    {
        self.body.is_known(id)
    }

    /// The declaration of a name, if it is declared.
    pub(crate) fn declaration(&self, name: &TextBuf) -> Option<&Declaration>
        ensures { option_copied result ≡ declaration_of self.now.declared name.now }
    {
        self.body.declaration(name.get())
    }

    /// The declaration of a name, if it is declared. It is looked for at a guess first, which is then the name declared behind it.
    pub(crate) fn declaration_behind(
        &self,
        name: &TextBuf,
        guess: &mut usize,
    ) -> Option<&Declaration>
        ensures { option_copied result ≡ declaration_of self.now.declared name.now }
    {
        self.body.declaration_behind(name.get(), guess)
    }

    /// The number of entries, in all sections together.
    pub(crate) fn len(&self) -> usize
        ensures { result ≡ length (joined_entries self.now.sections) }
    {
        self.body.entry_len()
    }

    /// The number of declarations.
    pub(crate) fn declared_len(&self) -> usize
        ensures { result ≡ length self.now.declared }
    {
        self.body.declared_len()
    }

    /// The number of sections, the first counted.
    pub(crate) fn section_len(&self) -> usize
        ensures { result ≡ length self.now.sections }
    {
        self.body.section_len()
    }

    /// Puts a declaration behind all others.
    pub(crate) fn declare(&mut self, new: Declaration) -> Result<(), AllocError>
        requires name { is_declared self.old.declared (name_of new) ≡ false }
        requires text { has_text self.old.declared (text_of new) ≡ false }
        ensures ok { OnOk result (self.new ≡ record self.old { declared = self.old.declared ++ new ∷ [] }) }
        ensures err { OnErr result (self.new ≡ self.old) }
    {
        self.body.lemma_layout();
        self.body.declare(new, self.body.declared_end())?;
        Ok(())
    }

    /// Puts a declaration behind all others, unless its name is declared, or an element has its string: then nothing has changed.
    /// Answers whether it was put. The name of a symbol is looked up once.
    pub(crate) fn declare_free(&mut self, new: Declaration) -> Result<bool, AllocError>
        ensures free { IfOk result (λ put. put
            ≡ (not (is_declared self.old.declared (name_of new)) && not (has_text self.old.declared (text_of new)))) }
        ensures ok { IfOk result (λ put. put ≡ true → self.new ≡ record self.old { declared = self.old.declared ++ new ∷ [] }) }
        ensures taken { IfOk result (λ put. put ≡ false → self.new ≡ self.old) }
        ensures err { OnErr result (self.new ≡ self.old) }
    {
        self.body.lemma_layout();
        let Some(_) = self.body.declare_free(new, self.body.declared_end())? else {
            return Ok(false);
        };
        Ok(true)
    }

    /// Begins a section behind all others.
    pub(crate) fn begin_section(&mut self, name: TextBuf) -> Result<(), AllocError>
        requires { has_name (section_names self.old.sections) name ≡ false }
        ensures ok { OnOk result (self.new ≡ record self.old { sections = with_section self.old.sections name }) }
        ensures err { OnErr result (self.new ≡ self.old) }
    {
        self.body.lemma_layout();
        let (section, ring) = self.body.begin(name, self.sections_end)?;
        self.sections_end = Place::After(section);
        self.entries_end = Place::Head(ring);
        Ok(())
    }

    /// Puts an entry behind all others, in the last section, unless its identifier stands in a section: then nothing has changed.
    /// Answers whether it was put. The identifier is looked up once.
    pub(crate) fn place_last(&mut self, entry: Entry) -> Result<bool, AllocError>
        ensures free { IfOk result (λ put. put ≡ not (is_placed_in self.old.sections entry.id)) }
        ensures ok { IfOk result (λ put. put ≡ true → self.new ≡ record self.old { sections = with_last self.old.sections entry }) }
        ensures taken { IfOk result (λ put. put ≡ false → self.new ≡ self.old) }
        ensures err { OnErr result (self.new ≡ self.old) }
    {
        self.body.lemma_layout();
        let Some(node) = self.body.place_free(entry, self.entries_end)? else {
            return Ok(false);
        };
        self.entries_end = Place::After(node);
        Ok(true)
    }

    /// Gives each entry its weights by own names. It takes memory only where a second name is declared.
    pub(crate) fn give_own_weights(&mut self) -> Result<(), AllocError>
        ensures ok { OnOk result (self.new ≡ record self.old { sections = own_sections self.old.declared self.old.sections }) }
        ensures err { OnErr result (self.new ≡ self.old) }
        ensures memory { OnErr result (list_any is_equivalence self.old.declared ≡ true) }
    {
        self.body.lemma_layout();
        give_own_weights(&mut self.body)?;
        Ok(())
    }

    /// A walk through the sections and entries so far.
    pub(crate) fn walk(&self) -> Walk<'_>
        ensures { result ≡ visited self.now.sections }
    {
        self.body.walk()
    }

    /// The body of a table of these parts.
    pub(crate) fn into_body(self) -> Body
        ensures { parts_at result.layout ≡ self }
    {
        let BodyBuilder { body, .. } = self;
        body
    }
}
