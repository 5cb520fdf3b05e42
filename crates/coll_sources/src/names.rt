//! Names that are looked up by hash.

ghost use Rattle.std.specs.Prelude.{◌≡◌, ◌∷◌, ℕ, true, cond, List, [], map, string_bytes, IfOk, OnOk};
ghost use Rattle.std.specs.List.{list_any};
ghost use Rattle.std.specs.Str.{bytes_eq};
ghost use Rattle.std.specs.HashSet.{contains_text};
ghost use Rattle.indexmap.specs.IndexSet.{IsEmpty};

use coll_lookups::HashKeys;
use indexmap::IndexSet;
use std::alloc::{AllocError, Global};

/// A name alone.
pub(crate) fn only_one(
    alloc: Global,
    keys: HashKeys,
    name: &str,
) -> Result<IndexSet<String, HashKeys>, AllocError>
    ensures { IfOk result (λ all. map string_bytes all.keys ≡ name.now ∷ []) }
{
    let name = String::from_str(alloc, name)?;
    let mut all = IndexSet::with_hasher(alloc, keys);
    match all.insert(name) {
        Ok(_) => Ok(all),
        Err(refused) => {
            drop(all);
            Err(AllocError::from(refused))
        }
    }
}

/// All of these names.
pub(crate) fn all_names(
    alloc: Global,
    keys: HashKeys,
    names: &[&str],
) -> Result<IndexSet<String, HashKeys>, AllocError>
    ensures { IfOk result (λ all. (name : List ℕ) → contains_text all name ≡ list_any (λ word. bytes_eq name word.now) names.now) }
{
    let mut all = IndexSet::with_hasher(alloc, keys);
    match put_names(alloc, &mut all, names) {
        Ok(()) => Ok(all),
        Err(error) => {
            drop(all);
            Err(error)
        }
    }
}

// Puts names where none is yet.
fn put_names(
    alloc: Global,
    all: &mut IndexSet<String, HashKeys>,
    names: &[&str],
) -> Result<(), AllocError>
    requires { IsEmpty all.old }
    ensures { OnOk result ((name : List ℕ) → contains_text all.new name ≡ list_any (λ word. bytes_eq name word.now) names.now) }
{
    for name in names {
        put_name(alloc, all, name)?;
    }
    Ok(())
}

/// Puts a name among others.
pub(crate) fn put_name(
    alloc: Global,
    all: &mut IndexSet<String, HashKeys>,
    name: &str,
) -> Result<(), AllocError>
    ensures { OnOk result ((word : List ℕ) → contains_text all.new word ≡ cond (bytes_eq name.now word) true (contains_text all.old word)) }
{
    all.insert(String::from_str(alloc, name)?)?;
    Ok(())
}
