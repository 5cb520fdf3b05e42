//! Weights by own names.
//!
//! A name in a weight may be declared behind its entry, so it is looked up where the category ends: then each entry whose weights
//! name a second name gets them by own names (`HasOwnWeights` of `specs/OwnWeights.antt`). What takes memory is done first: all
//! such weights are made, each for the node of its entry, and then exchanged. Where no second name is declared, there is nothing to
//! look for.

ghost use Rattle.std.specs.Prelude.{◌≡◌, All, IfOk, OnOk, OnErr, IsTrue, true};
ghost use Rattle.std.specs.List.{list_any};
ghost use Rattle.coll_order.specs.Layout.{is_in};
ghost use Rattle.coll_nodes.specs.Moving.{weighed_nodes};
ghost use Rattle.coll_nodes.specs.OwnNames.{names_second as uses_second};
ghost use Rattle.coll_nodes.specs.SoundBodies.{FirstAloneUnnamed};
ghost use Rattle.coll_nodes.specs.TableLayout.{declared_at, sections_at};
ghost use Rattle.coll_nodes.specs.WalkItems.{declared_by};
ghost use Rattle.coll_texts.specs.OwnWeights.{is_equivalence, StandsIn, IsChangeOf, AreChanges, changed_nodes, HasOwnWeights};
ghost use Rattle.std.specs.Prelude.{Some};

use coll_lex::ListBuf;
use coll_nodes::{Body, DeclaredItem, Entry, WalkItem};
use coll_order::NodeId;
use coll_statements::{names_second, own_weights};
use coll_syntax::Weight;
use std::alloc::AllocError;

/// The node of an entry, and the weights that it is to get.
#[derive(Drop)]
pub(crate) struct Change {
    node: NodeId,
    weights: ListBuf<Weight>,
}

/// Gives each entry its weights by own names. It takes memory only where a second name is declared.
pub(crate) fn give_own_weights(body: &mut Body) -> Result<(), AllocError>
    requires { FirstAloneUnnamed (sections_at body.old.layout) }
    ensures ok { OnOk result (HasOwnWeights body.old.layout body.new.layout) }
    ensures err { OnErr result (body.new ≡ body.old) }
    ensures memory { OnErr result (list_any is_equivalence (declared_at body.old.layout) ≡ true) }
{
    if !has_second_names(body) {
        return Ok(());
    }
    body.lemma_layout();
    let changes = changes_of(body)?;
    exchange_all(body, changes);
    Ok(())
}

// Whether a second name is declared.
fn has_second_names(body: &Body) -> bool
    ensures { result ≡ list_any is_equivalence (declared_at body.now.layout) }
{
    for item in body.declared() {
        if is_second_name(&item) {
            return true;
        }
    }
    false
}

// Whether what is declared is a second name.
fn is_second_name(item: &DeclaredItem<'_>) -> bool
    ensures { result ≡ is_equivalence (declared_by item.now) }
{
    matches!(item, DeclaredItem::Equivalence(..))
}

// The weights by own names of all entries whose weights name a second name.
fn changes_of(body: &Body) -> Result<Vec<Change>, AllocError>
    requires { FirstAloneUnnamed (sections_at body.now.layout) }
    ensures { IfOk result (λ changes. AreChanges body.now.layout changes.items) }
{
    body.lemma_layout();
    let mut changes = Vec::new(body.alloc());
    for item in body.walk() {
        let entry = match item {
            WalkItem::Section(_) => continue,
            WalkItem::Entry(entry) => entry,
        };
        if !have_second_names(body, entry.weights()) {
            continue;
        }
        changes.push(change_of(body, entry)?)?;
    }
    Ok(changes)
}

// Whether weights name something by a second name.
fn have_second_names(body: &Body, weights: &[Weight]) -> bool
    ensures { result ≡ list_any (uses_second (declared_at body.now.layout)) weights.now }
{
    weights.iter().any(|weight| names_second(body, weight))
}

// The node of an entry, and its weights by own names.
fn change_of(body: &Body, entry: &Entry) -> Result<Change, AllocError>
    requires { StandsIn body.now.layout entry.now }
    ensures { IfOk result (λ change. IsChangeOf body.now.layout entry.now change) }
{
    body.lemma_layout();
    let Some(node) = body.entry_node(entry.id()) else {
        unreachable!();
    };
    let weights = own_weights(body, entry.weights())?;
    Ok(Change { node, weights })
}

// Exchanges the weights of these nodes for those that they are to get.
fn exchange_all(body: &mut Body, changes: Vec<Change>)
    requires { All (λ (change : Change). IsTrue (is_in body.old.layout.rings change.node)) changes.items }
    ensures { body.new.layout ≡ record body.old.layout { nodes = changed_nodes changes.items body.old.layout.nodes } }
{
    for change in changes {
        exchange(body, change);
    }
}

// Exchanges the weights of a node for those that it is to get.
fn exchange(body: &mut Body, change: Change)
    requires { is_in body.old.layout.rings change.node ≡ true }
    ensures { body.new.layout ≡ record body.old.layout { nodes = weighed_nodes change.node (Some change.weights) body.old.layout.nodes } }
{
    body.lemma_layout();
    let Change { node, mut weights } = change;
    body.exchange(node, &mut weights);
}
