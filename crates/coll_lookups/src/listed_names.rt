//! Names in the order in which they came in, found by hash or at a guess.
//!
//! A `ListedNames` has each of its names twice: in a map, which tells its place by hash, and in a list, in which a name is looked at where
//! it is guessed to stand. So a guess that is right needs no hash, and a copy shares both (`node_names`). The simple form is `place`, by
//! hash, to which `place_by_guess` leaves a guess that is wrong; both have the same clauses. The map is that of `std`: whoever has a table
//! has a `ListedNames`, and a map that keeps an order would be loaded by every proof about it.

ghost use Rattle.std.specs.Prelude.{◌≡◌, [], Some, position, is_some, unwrap_or, IfOk, OnOk, OnErr};
ghost use Rattle.std.specs.HashMap.{get, IsUnchanged, Updates};
ghost use Rattle.std.specs.List.{list_any, position_or_len};
ghost use Rattle.std.specs.Str.{bytes_eq};
ghost use Rattle.coll_lookups.specs.NameKeys.{bytes_of, same_bytes};
ghost use Rattle.coll_lookups.specs.NodeMaps.{with_key};

use crate::WordKeys;
use crate::name_keys::{NameKey, NameText};
use std::alloc::{AllocError, Global};
use std::collections::HashMap;
use std::marker::Model;

/// Names as keys, each once, in the order in which they came in.
#[derive(Drop)]
pub(crate) struct ListedNames {
    keys: Vec<NameKey>,
    // The place of each.
    places: HashMap<NameKey, usize, WordKeys>,
}

impl Model for ListedNames {
    ghost use Rattle.std.specs.Prelude.{List};
    ghost use Rattle.std.specs.List.{IsDistinct};
    ghost use Rattle.coll_lookups.specs.NameKeys.{same_bytes};
    ghost use Rattle.coll_lookups.specs.NodeMaps.{HasPlacesOf};
    ghost use Rattle.coll_lookups.specs.declared.name_keys.NameKey.{NameKey};

    ghost Value = { List NameKey };

    ghost view = { λ n. n.keys.items };

    ghost invariant = { λ n. IsDistinct same_bytes n.keys.items × HasPlacesOf n.keys.items n.places };
}

impl ListedNames {
    /// No names. It takes no memory.
    pub(crate) fn new(alloc: Global, keys: WordKeys) -> ListedNames
        ensures { result ≡ [] }
    {
        ListedNames {
            keys: Vec::new(alloc),
            places: HashMap::with_hasher(alloc, keys),
        }
    }

    /// The keys that names are looked up under.
    pub(crate) fn word_keys(&self) -> &WordKeys {
        self.places.hasher()
    }

    /// The place of a name, if it is there. It takes no memory.
    pub(crate) fn place(&self, name: &str) -> Option<usize>
        ensures index { result ≡ position (λ key. bytes_eq name.now (bytes_of key)) self.now }
        ensures found { is_some result ≡ list_any (λ key. bytes_eq name.now (bytes_of key)) self.now }
    {
        match self.places.get(NameText { text: name }) {
            Some(place) => Some(*place),
            None => None,
        }
    }

    /// The place of a name, as `place` tells it. It is looked for at a guess first, and there no hash is needed.
    pub(crate) fn place_by_guess(&self, name: &str, guess: usize) -> Option<usize>
        ensures index { result ≡ position (λ key. bytes_eq name.now (bytes_of key)) self.now }
        ensures found { is_some result ≡ list_any (λ key. bytes_eq name.now (bytes_of key)) self.now }
    {
        if let Some(key) = self.keys.as_slice().get(guess) {
            if name == key.text() {
                return Some(guess);
            }
        }
        self.place(name)
    }

    /// Puts a name behind all others, if it isn't there yet. Answers its place. Where memory is refused, nothing has changed.
    pub(crate) fn put(&mut self, key: NameKey) -> Result<usize, AllocError>
        ensures place { IfOk result (λ place. place ≡ position_or_len (same_bytes key) self.old) }
        ensures ok { OnOk result (self.new ≡ with_key same_bytes self.old key) }
        ensures err { OnErr result (self.new ≡ self.old) }
    {
        let last = self.keys.len();
        self.keys.reserve(1)?;
        let copy = key.clone()?;
        let place = put_place(&mut self.places, copy, last)?;
        if place == last {
            self.keys.push_reserved(key);
        }
        Ok(place)
    }
}

// The place of a name, which is this one from now on if it wasn't there: one look-up both asks and puts it in.
fn put_place(
    places: &mut HashMap<NameKey, usize, WordKeys>,
    key: NameKey,
    last: usize,
) -> Result<usize, AllocError>
    ensures place { IfOk result (λ place. place ≡ unwrap_or (get same_bytes places.old key) last) }
    ensures ok { IfOk result (λ place. Updates same_bytes places.old places.new key (Some place)) }
    ensures err { OnErr result (IsUnchanged places.old places.new) }
{
    let place = *places.entry(key)?.or_insert(last);
    Ok(place)
}

impl Clone for ListedNames {
    ghost is_clone = { λ names copy. copy ≡ names };

    fn clone(&self) -> Result<ListedNames, AllocError> {
        let keys = self.keys.clone()?;
        let places = self.places.clone()?;
        Ok(ListedNames { keys, places })
    }
}
