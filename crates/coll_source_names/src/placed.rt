//! What an order places, by what was found of it.
//!
//! An identifier is looked up once (`Meanings::found`): a name that is declared has a number from then on, and so whether it is placed,
//! which is asked of each order line and of each identifier in a weight, takes no other look at its name. Characters are
//! found by code point, and so none is hashed (`CharSet`).

use coll_lookups::{CharSet, HashKeys};
use std::alloc::{AllocError, Global};

/// What was found of an identifier.
#[derive(Clone, Copy)]
pub enum Found {
    /// It is a character.
    Char(char),
    /// It is `UNDEFINED`.
    Undefined,
    /// It is the name of a symbol, which has this number.
    Symbol(usize),
    /// It is the name of an element, which has this number.
    Element(usize),
    /// It is a name that stands for something else, which has this number.
    Second(usize),
    /// It is no name, can't be declared, and has been named by an order line. It has this number among such.
    NoName(usize),
    /// It is a name that isn't declared.
    Unknown,
}

/// What an order places.
#[derive(Drop)]
pub struct Placed {
    // Whether a name is placed, by its number. One of a larger number isn't.
    names: Vec<bool>,
    // The same of what is no name.
    no_names: Vec<bool>,
    chars: CharSet,
    undefined: bool,
}

impl Placed {
    /// Nothing is placed. It takes no memory. Nothing is hashed, so the keys serve nothing.
    pub fn new(alloc: Global, keys: HashKeys) -> Placed {
        let _ = keys;
        Placed {
            names: Vec::new(alloc),
            no_names: Vec::new(alloc),
            chars: CharSet::new(alloc),
            undefined: false,
        }
    }

    /// Puts in what was found, and answers whether it wasn't there. A name that isn't declared is never there.
    pub fn put(&mut self, found: Found) -> Result<bool, AllocError> {
        match found {
            Found::Char(c) => self.chars.put(c),
            Found::Undefined => Ok(!std::mem::replace(&mut self.undefined, true)),
            Found::Symbol(number) => put_number(&mut self.names, number),
            Found::Element(number) => put_number(&mut self.names, number),
            Found::Second(number) => put_number(&mut self.names, number),
            Found::NoName(number) => put_number(&mut self.no_names, number),
            Found::Unknown => Ok(true),
        }
    }

    /// Whether what was found is there.
    pub fn contains(&self, found: Found) -> bool {
        match found {
            Found::Char(c) => self.chars.contains(c),
            Found::Undefined => self.undefined,
            Found::Symbol(number) => has_number(&self.names, number),
            Found::Element(number) => has_number(&self.names, number),
            Found::Second(number) => has_number(&self.names, number),
            Found::NoName(number) => has_number(&self.no_names, number),
            Found::Unknown => false,
        }
    }
}

// Puts in a number, and answers whether it wasn't there.
fn put_number(placed: &mut Vec<bool>, number: usize) -> Result<bool, AllocError> {
    for _ in placed.len()..=number {
        placed.push(false)?;
    }
    match placed.get_mut(number) {
        Some(is_placed) => Ok(!std::mem::replace(is_placed, true)),
        None => Ok(true),
    }
}

// Whether a number is there.
fn has_number(placed: &[bool], number: usize) -> bool {
    placed.get(number).copied().unwrap_or(false)
}
