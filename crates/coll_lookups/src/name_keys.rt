//! A name as the key of a look-up by hash.
//!
//! A `NameKey` is compared and hashed by the bytes of its name, and so it is found by a `NameText` too (`specs/NameKeys.antt`). A
//! name that lies in its value lies in the key itself, so that most keys take no memory. A name is hashed by one write of its bytes,
//! with nothing behind them: no key has a part that could follow. What is hashed may change, for both alike.

ghost use Rattle.std.specs.Prelude.{◌≡◌, IfOk};
ghost use Rattle.std.specs.Cmp.Lexicographic.{bytes_decides, nat_list_eq_equiv};
ghost use Rattle.std.specs.Cmp.{on_equiv, on_per, partial_equiv_from_equiv};
ghost use Rattle.std.specs.Str.{bytes_eq};
ghost use Rattle.std.proofs.Common.{ap};
ghost use Rattle.coll_lookups.specs.NameKeys.{bytes_of, one_write, same_bytes, text_bytes, IsReadBack};

use coll_lex::TextBuf;
use indexmap::Equivalent;
use std::alloc::AllocError;
use std::collections::hash_map;
use std::hash::{Hash, Hasher};

/// A name as a key.
#[derive(Drop)]
pub struct NameKey {
    name: TextBuf,
}

impl NameKey {
    /// A copy of a name. One that lies in its value takes no memory.
    pub fn copied(name: &TextBuf) -> Result<NameKey, AllocError>
        ensures name { IfOk result (λ key. key.name ≡ name.now) }
        ensures text { IfOk result IsReadBack }
    {
        // The name is lent for what is then known of it: its characters are read back from its bytes.
        let _bytes = name.get();
        let name = name.try_copy()?;
        Ok(NameKey { name })
    }

    /// Lends the text.
    #[inline]
    pub fn text(&self) -> &str
        ensures { result.now ≡ bytes_of self.now }
    {
        self.name.get()
    }
}

impl Clone for NameKey {
    ghost is_clone = { λ key copy. copy.name ≡ key.name };

    fn clone(&self) -> Result<NameKey, AllocError> {
        NameKey::copied(&self.name)
    }
}

impl PartialEq for NameKey {
    ghost eq = { same_bytes };

    ghost laws = { on_per bytes_of (partial_equiv_from_equiv nat_list_eq_equiv) };

    #[inline]
    fn eq(&self, other: &NameKey) -> bool {
        self.name.get() == other.name.get()
    }
}

impl Eq for NameKey {
    ghost laws = { on_equiv bytes_of nat_list_eq_equiv };
}

impl Hash for NameKey {
    ghost hash_input = { λ key. one_write (bytes_of key) };

    ghost respects_eq = { λ a b same. ap one_write ((bytes_decides (bytes_of a) (bytes_of b)).0 same) };

    #[inline]
    fn hash<H: Hasher>(&self, state: &mut H) {
        state.write(self.name.get().as_bytes());
    }
}

/// The text of a name, by which its key is found.
#[derive(Clone, Copy)]
pub struct NameText<'a> {
    /// The text.
    pub text: &'a str,
}

impl<'a> NameText<'a> {
    // Whether a key has this text.
    #[inline]
    fn is_text_of(&self, key: &NameKey) -> bool
        ensures { result ≡ bytes_eq self.now.text.now (bytes_of key.now) }
    {
        self.text == key.name.get()
    }
}

impl<'a> PartialEq for NameText<'a> {
    ghost eq = { λ a b. bytes_eq a.text.now b.text.now };

    ghost laws = { on_per text_bytes (partial_equiv_from_equiv nat_list_eq_equiv) };

    #[inline]
    fn eq(&self, other: &NameText<'a>) -> bool {
        self.text == other.text
    }
}

impl<'a> Eq for NameText<'a> {
    ghost laws = { on_equiv text_bytes nat_list_eq_equiv };
}

impl<'a> Hash for NameText<'a> {
    ghost hash_input = { λ text. one_write (text_bytes text) };

    ghost respects_eq = { λ a b same. ap one_write ((bytes_decides (text_bytes a) (text_bytes b)).0 same) };

    #[inline]
    fn hash<H: Hasher>(&self, state: &mut H) {
        state.write(self.text.as_bytes());
    }
}

// Maps of `indexmap`, and those of `std`, find a name by its text.
impl<'a> Equivalent<NameKey> for NameText<'a> {
    ghost equivalent = { λ text key. bytes_eq text.text.now (bytes_of key) };

    ghost respects_hash = { λ text key same. ap one_write ((bytes_decides (text_bytes text) (bytes_of key)).0 same) };

    ghost respects_eq = { λ text a b. nat_list_eq_equiv.congr (text_bytes text) (bytes_of a) (bytes_of b) };

    #[inline]
    fn equivalent(&self, key: &NameKey) -> bool {
        self.is_text_of(key)
    }
}

impl<'a> hash_map::Equivalent<NameKey> for NameText<'a> {
    ghost equivalent = { λ text key. bytes_eq text.text.now (bytes_of key) };

    ghost respects_hash = { λ text key same. ap one_write ((bytes_decides (text_bytes text) (bytes_of key)).0 same) };

    ghost respects_eq = { λ text a b. nat_list_eq_equiv.congr (text_bytes text) (bytes_of a) (bytes_of b) };

    #[inline]
    fn equivalent(&self, key: &NameKey) -> bool {
        self.is_text_of(key)
    }
}
