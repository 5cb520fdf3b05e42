//! Statements are judged, before anything is changed.
//!
//! `check` is `delta` of `specs/Delta.antt` without its table: the refusals of a statement in their order, each asked of the table
//! as it stands, once the statement is taken by own names. The weights of a block are looked up in the table that results: an
//! identifier is placed there where it is placed now, or has a line in the block (`specs/Judging.antt`). What only judges gives a
//! refusal or none. Memory is taken for a statement that uses a second name, which is copied, and for a block whose target is
//! placed, and for no other: what may lack it gives an `AllocError` beside the refusal, and `check` joins the two. A new statement,
//! or a new refusal of one, is a case of `own_delta` first.

ghost use Rattle.std.specs.Prelude.{◌≡◌, ◌≢◌, ◌∷◌, [], true, IsOk, Err, Some, None, IfOk, IfErr, OnOk, OnErr, length, nat_le, not, ◌-◌};
ghost use Rattle.std.specs.List.{flat_map};
ghost use Rattle.coll_syntax.specs.Proper.{IsProper};
ghost use Rattle.coll_table.specs.Delta.{all_moved, block_delta, declaration_refusal, delta, ids_given};
ghost use Rattle.coll_table.specs.Delta.{lines_refusal, own_delta, reweight_delta, reweight_refusal};
ghost use Rattle.coll_table.specs.Delta.{reweighted, section_refusal, unless_refused, weights_refusal};
ghost use Rattle.coll_nodes.specs.Causes.{refused_if};
ghost use Rattle.coll_nodes.specs.Entries.{given_weights, weight_ids};
ghost use Rattle.coll_table.specs.Judging.{entries_added, HaveSame, MayNameOwn, id_refusal, ids_refusal};
ghost use Rattle.coll_table.specs.Judging.{judging_takes_memory, line_ids, own_judging_takes_memory};
ghost use Rattle.coll_nodes.specs.Limits.{most_declarations, most_entries};
ghost use Rattle.coll_nodes.specs.Table.{entries_of, is_known, is_placed};
ghost use Rattle.coll_nodes.specs.TableLayout.{collation};
ghost use Rattle.coll_nodes.specs.declared.declarations.Declaration.TheVariants as declaration;
ghost use Rattle.coll_table.specs.declared.refusals.Refusal.TheVariants.{Full, NotDeclared, OutOfMemory};

use crate::{Refusal, Table};
use coll_lex::TextBuf;
use coll_lookups::IdSet;
use coll_nodes::{MOST_DECLARATIONS, MOST_ENTRIES};
use coll_statements::{given_len, names_only};
use coll_syntax::{Id, OrderLine, Statement, Weight};
use std::alloc::AllocError;

impl Table {
    /// Judges a statement as `apply` would, and changes nothing.
    ///
    /// The answer is the first refusal of the statement, if it has one. It takes memory for a block whose target is placed, for the
    /// identifiers of its lines, and for a statement that uses a second name, for a copy by own names, and for no other. Where memory
    /// is refused, the answer is `OutOfMemory`, in place of any other.
    #[tactic(auto, unfolding(crate::specs::Delta::delta))]
    pub fn check(&self, statement: &Statement) -> Result<(), Refusal>
        requires proper { IsProper statement.now }
        ensures ok { OnOk result (IsOk (delta (collation self.now) statement.now)) }
        ensures err { IfErr result (λ refusal. refusal ≢ OutOfMemory → delta (collation self.now) statement.now ≡ Err refusal) }
        ensures memory { IfErr result (λ refusal. refusal ≡ OutOfMemory → judging_takes_memory (collation self.now) statement.now ≡ true) }
    {
        match self.own_statement(statement)? {
            Some(own) => self.check_own(&own),
            None => self.check_own(statement),
        }
    }

    /// Judges a statement of own names, as `check` does.
    #[tactic(auto, unfolding(crate::specs::Delta::own_delta))]
    pub(super) fn check_own(&self, statement: &Statement) -> Result<(), Refusal>
        requires proper { IsProper statement.now }
        ensures ok { OnOk result (IsOk (own_delta (collation self.now) statement.now)) }
        ensures err { IfErr result (λ refusal. refusal ≢ OutOfMemory → own_delta (collation self.now) statement.now ≡ Err refusal) }
        ensures memory { IfErr result (λ refusal. refusal ≡ OutOfMemory → own_judging_takes_memory (collation self.now) statement.now
            ≡ true) }
    {
        match statement {
            Statement::Symbol(name) => or_refused(self.symbol_refusal(name)),
            Statement::Element { name, text } => or_refused(self.element_refusal(name, text)),
            Statement::Equivalence { name, symbol } => {
                or_refused(self.equivalence_refusal(name, symbol))
            }
            Statement::Block { target, lines } => {
                let refusal = self.block_refusal(target, lines.get())?;
                or_refused(refusal)
            }
            Statement::SectionAfter { moved, after } => or_refused(self.section_refusal(
                moved, after,
            )),
            Statement::Reweight(line) => or_refused(self.reweight_refusal(line)),
        }
    }

    // Why the declaration of a collating symbol is refused, if it is.
    #[tactic(auto, unfolding(coll_nodes::specs::TableLayout::collation))]
    fn symbol_refusal(&self, name: &TextBuf) -> Option<Refusal>
        ensures { result ≡ declaration_refusal (collation self.now) (declaration.Symbol name.now) }
    {
        if self.body.declares(name) {
            return Some(Refusal::DeclaredTwice);
        }
        self.room_refusal()
    }

    // Why the declaration of a collating element is refused, if it is.
    #[tactic(auto, unfolding(coll_nodes::specs::TableLayout::collation))]
    fn element_refusal(&self, name: &TextBuf, text: &TextBuf) -> Option<Refusal>
        ensures { result ≡ declaration_refusal (collation self.now) (declaration.Element name.now text.now) }
    {
        if self.body.declares(name) {
            return Some(Refusal::DeclaredTwice);
        }
        if self.body.has_text(text) {
            return Some(Refusal::StringTwice);
        }
        self.room_refusal()
    }

    // Why the declaration of a second name is refused, if it is.
    #[tactic(auto, unfolding(coll_nodes::specs::TableLayout::collation))]
    fn equivalence_refusal(&self, name: &TextBuf, symbol: &TextBuf) -> Option<Refusal>
        ensures { result ≡ declaration_refusal (collation self.now) (declaration.Equivalence name.now symbol.now) }
    {
        if self.body.declares(name) {
            return Some(Refusal::DeclaredTwice);
        }
        if !self.body.is_own_name(symbol) {
            return Some(Refusal::NotDeclared);
        }
        if !self.body.is_symbol_name(symbol) {
            return Some(Refusal::NotASymbol);
        }
        self.room_refusal()
    }

    // Why one declaration more is refused, if it is.
    #[tactic(auto, unfolding(coll_nodes::specs::TableLayout::collation))]
    fn room_refusal(&self) -> Option<Refusal>
        ensures { result ≡ refused_if (nat_le most_declarations (length (collation self.now).declared)) Full None }
    {
        if self.declared_len() >= MOST_DECLARATIONS {
            return Some(Refusal::Full);
        }
        None
    }

    // Why a section isn't moved, if it isn't.
    #[tactic(auto, unfolding(coll_nodes::specs::TableLayout::collation))]
    fn section_refusal(&self, moved: &TextBuf, after: &TextBuf) -> Option<Refusal>
        ensures { result ≡ section_refusal (collation self.now) moved.now after.now }
    {
        if !self.body.has_section(moved) {
            return Some(Refusal::NoSuchSection);
        }
        if !self.body.has_section(after) {
            return Some(Refusal::NoSuchSection);
        }
        if moved.get() == after.get() {
            return Some(Refusal::SectionAfterItself);
        }
        None
    }

    // Why an order line outside a block is refused, if it is.
    fn reweight_refusal(&self, line: &OrderLine) -> Option<Refusal>
        ensures { reweight_delta (collation self.now) line.now ≡ unless_refused result (reweighted (collation self.now) line.now) }
    {
        if let Some(refusal) = self.reweight_line_refusal(line) {
            return Some(refusal);
        }
        let none = IdSet::new(self.alloc(), self.hash_keys());
        self.lemma_well_formed();
        let refusal = self.given_refusal(&none, line);
        drop(none);
        refusal
    }

    // The same, the identifiers in its weights aside.
    fn reweight_line_refusal(&self, line: &OrderLine) -> Option<Refusal>
        ensures { result ≡ reweight_refusal (collation self.now) line.now }
    {
        if !self.is_known(&line.id) {
            return Some(Refusal::NotDeclared);
        }
        if !self.is_placed(&line.id) {
            return Some(Refusal::NotPlaced);
        }
        if line.weights.is_none() {
            return Some(Refusal::NoWeights);
        }
        self.weights_refusal(line)
    }

    // Why the number of weights that a line gives is refused, if it is.
    fn weights_refusal(&self, line: &OrderLine) -> Option<Refusal>
        ensures { result ≡ weights_refusal (collation self.now) line.now None }
    {
        if line.weights.is_some() && self.is_symbol(&line.id) {
            return Some(Refusal::SymbolWithWeights);
        }
        if given_len(&line.weights) > self.rules().len() {
            return Some(Refusal::TooManyWeights);
        }
        None
    }

    // Why a block is refused, if it is.
    fn block_refusal(&self, target: &Id, lines: &[OrderLine]) -> Result<Option<Refusal>, AllocError>
        ensures refusal { IfOk result (λ refusal. block_delta (collation self.now) target.now lines.now
            ≡ unless_refused refusal (all_moved (collation self.now) target.now lines.now)) }
        ensures placed { OnErr result (is_placed (collation self.now) target.now ≡ true) }
    {
        if !self.is_placed(target) {
            return Ok(Some(Refusal::TargetNotPlaced));
        }
        let mut ids = IdSet::new(self.alloc(), self.hash_keys());
        let answer = self.placed_refusal(&mut ids, target, lines);
        drop(ids);
        answer
    }

    // The same where the target is placed, with the identifiers of the target and of the lines put in where there are none yet.
    fn placed_refusal(
        &self,
        ids: &mut IdSet,
        target: &Id,
        lines: &[OrderLine],
    ) -> Result<Option<Refusal>, AllocError>
        requires none { ids.old ≡ [] }
        requires placed { is_placed (collation self.now) target.now ≡ true }
        ensures { IfOk result (λ refusal. block_delta (collation self.now) target.now lines.now
            ≡ unless_refused refusal (all_moved (collation self.now) target.now lines.now)) }
    {
        if let Some(refusal) = self.lines_refusal(ids, target, lines)? {
            return Ok(Some(refusal));
        }
        self.lemma_well_formed();
        if !self.has_room(lines) {
            return Ok(Some(Refusal::Full));
        }
        Ok(self.all_given_refusal(ids, lines))
    }

    // Whether there is room for the entries that these lines add: certainly where there is some for all lines, and none is looked up.
    fn has_room(&self, lines: &[OrderLine]) -> bool
        ensures { result ≡ nat_le (entries_added (collation self.now) lines.now)
            (most_entries - length (entries_of (collation self.now))) }
    {
        self.lemma_well_formed();
        let room = MOST_ENTRIES - self.len();
        if lines.len() <= room {
            return true;
        }
        self.added_len(lines) <= room
    }

    // Why the first line of a block that is refused is, the identifiers in the weights aside. Each is put in where it is looked up:
    // there alone memory is taken.
    fn lines_refusal(
        &self,
        ids: &mut IdSet,
        target: &Id,
        lines: &[OrderLine],
    ) -> Result<Option<Refusal>, AllocError>
        requires { ids.old ≡ [] }
        ensures refusal { IfOk result (λ refusal. refusal ≡ lines_refusal (collation self.now) (target.now ∷ []) lines.now) }
        ensures ids { IfOk result (λ refusal. refusal ≡ None → HaveSame ids.new (target.now ∷ line_ids lines.now)) }
    {
        ids.insert(target)?;
        for line in lines {
            if !ids.put_free(&line.id)? {
                return Ok(Some(Refusal::TwiceInBlock));
            }
            if let Some(refusal) = self.new_line_refusal(line) {
                return Ok(Some(refusal));
            }
        }
        Ok(None)
    }

    // Why a line of a block is refused, if it is, whose identifier stands in no line before it.
    fn new_line_refusal(&self, line: &OrderLine) -> Option<Refusal>
        ensures { result ≡ refused_if (not (is_known (collation self.now).declared line.now.id)) NotDeclared
            (weights_refusal (collation self.now) line.now None) }
    {
        if !self.is_known(&line.id) {
            return Some(Refusal::NotDeclared);
        }
        self.weights_refusal(line)
    }

    // The number of lines whose identifiers aren't placed yet.
    fn added_len(&self, lines: &[OrderLine]) -> usize
        ensures { result ≡ entries_added (collation self.now) lines.now }
    {
        let mut added = 0;
        for line in lines {
            if !self.is_placed(&line.id) {
                added += 1;
            }
        }
        added
    }

    // Why the first identifier that may not stand in the weights of these lines may not, where more is placed.
    fn all_given_refusal(&self, more: &IdSet, lines: &[OrderLine]) -> Option<Refusal>
        requires { MayNameOwn (collation self.now) more.now lines.now }
        ensures { result ≡ ids_refusal (collation self.now) more.now (ids_given lines.now) }
    {
        for line in lines {
            if let Some(refusal) = self.given_refusal(more, line) {
                return Some(refusal);
            }
        }
        None
    }

    // The same of one line, whose own identifier may stand in a weight.
    fn given_refusal(&self, more: &IdSet, line: &OrderLine) -> Option<Refusal>
        requires { id_refusal (collation self.now) more.now line.now.id ≡ None }
        ensures { result ≡ ids_refusal (collation self.now) more.now (flat_map weight_ids (given_weights line.now.weights)) }
    {
        match &line.weights {
            Some(weights) => self.named_refusal(more, &line.id, weights.get()),
            None => None,
        }
    }

    // The same of weights, in which this identifier may stand.
    fn named_refusal(&self, more: &IdSet, own: &Id, weights: &[Weight]) -> Option<Refusal>
        requires { id_refusal (collation self.now) more.now own.now ≡ None }
        ensures { result ≡ ids_refusal (collation self.now) more.now (flat_map weight_ids weights.now) }
    {
        for weight in weights {
            if let Some(refusal) = self.weight_refusal(more, own, weight) {
                return Some(refusal);
            }
        }
        None
    }

    // The same of one weight: nothing is looked up for one that names only this identifier.
    fn weight_refusal(&self, more: &IdSet, own: &Id, weight: &Weight) -> Option<Refusal>
        requires { id_refusal (collation self.now) more.now own.now ≡ None }
        ensures { result ≡ ids_refusal (collation self.now) more.now (weight_ids weight.now) }
    {
        if names_only(own, weight) {
            return None;
        }
        match weight {
            Weight::Names(ids) => self.ids_refusal(more, ids.get()),
            _ => None,
        }
    }

    // The same of identifiers.
    fn ids_refusal(&self, more: &IdSet, ids: &[Id]) -> Option<Refusal>
        ensures { result ≡ ids_refusal (collation self.now) more.now ids.now }
    {
        for id in ids {
            if let Some(refusal) = self.id_refusal(more, id) {
                return Some(refusal);
            }
        }
        None
    }

    // Why an identifier may not stand in a weight, where more is placed, if it may not: what is placed now was declared, so a
    // second look is taken only at what isn't.
    fn id_refusal(&self, more: &IdSet, id: &Id) -> Option<Refusal>
        ensures { result ≡ id_refusal (collation self.now) more.now id.now }
    {
        self.lemma_well_formed();
        if self.is_placed(id) {
            return None;
        }
        if !self.is_known(id) {
            return Some(Refusal::NotDeclared);
        }
        if more.contains(id) {
            return None;
        }
        Some(Refusal::WeightNotPlaced)
    }
}

// A refusal, if there is one.
fn or_refused(refusal: Option<Refusal>) -> Result<(), Refusal>
    ensures ok { OnOk result (refusal ≡ None) }
    ensures err { IfErr result (λ it. refusal ≡ Some it) }
{
    match refusal {
        Some(refusal) => Err(refusal),
        None => Ok(()),
    }
}
