//! What a line at fault is about: the identifier that it declares, places or moves.

use crate::findings::About;
use crate::foreign_words::foreign_word;
use coll_advice::Found;
use coll_lex::{Line, TextBuf, Token};
use coll_syntax::{Id, SyntaxFault, TableLine, id_of};
use coll_texts::LoadCause;
use std::alloc::{AllocError, Global};

/// An identifier that a fault is about.
pub fn about_id(id: Id) -> About {
    About::Id { id, near: None }
}

/// What a fault of a statement is about.
pub fn about_found(found: &Found) -> Result<About, AllocError> {
    match &found.id {
        Some(id) => {
            let id = id.clone()?;
            Ok(about_id(id))
        }
        None => Ok(About::Nothing),
    }
}

/// A name that a fault is about.
pub(crate) fn about_name(name: &TextBuf) -> Result<About, AllocError> {
    let name = name.try_copy()?;
    Ok(about_id(Id::Named(name)))
}

/// What a line is about that the grammar refuses: a keyword of another dialect, or else the first identifier among its first two tokens.
pub fn refused_subject(
    alloc: Global,
    line: &Line,
    fault: SyntaxFault,
) -> Result<About, AllocError> {
    if let SyntaxFault::UnknownStatement = fault {
        return unknown_subject(alloc, line);
    }
    let mut tokens = line.tokens.get().iter();
    match token_subject(alloc, tokens.next())? {
        About::Nothing => token_subject(alloc, tokens.next()),
        about => Ok(about),
    }
}

// What a line is about of which the first token begins no line.
fn unknown_subject(alloc: Global, line: &Line) -> Result<About, AllocError> {
    let tokens = line.tokens.get();
    match foreign_word(tokens) {
        Some(word) => Ok(About::Word(word)),
        None => token_subject(alloc, tokens.first()),
    }
}

// The identifier that a token spells, if there is a token, and it spells one.
fn token_subject(alloc: Global, token: Option<&Token>) -> Result<About, AllocError> {
    let Some(token) = token else {
        return Ok(About::Nothing);
    };
    match id_of(alloc, token)? {
        Some(id) => Ok(about_id(id)),
        None => Ok(About::Nothing),
    }
}

/// What a line of a table is about that is refused for a cause.
pub fn table_subject(line: &TableLine, cause: LoadCause) -> Result<About, AllocError> {
    match line {
        TableLine::Symbol(name) => about_name(name),
        TableLine::Element { name, .. } => about_name(name),
        TableLine::Equivalence { name, symbol } => match cause {
            LoadCause::NotDeclared | LoadCause::NotASymbol => about_name(symbol),
            _ => about_name(name),
        },
        TableLine::OrderStart {
            section: Some(name),
            ..
        } => about_name(name),
        TableLine::OrderStart { section: None, .. } => Ok(About::Nothing),
        TableLine::Section(name) => about_name(name),
        TableLine::Order(order) => {
            let id = order.id.clone()?;
            Ok(about_id(id))
        }
        TableLine::OrderEnd | TableLine::Script | TableLine::EndCategory => Ok(About::Nothing),
    }
}
