//! Texts and lists that are handed out in tokens, statements and tables.
//!
//! `TextBuf` is a text that contracts see as the list of its characters, and `ListBuf` a list that they see as
//! its members. The bytes of a short text lie in the value itself, so that most names take no memory; all else is in the
//! `String` or `Vec` inside. `Gathered` is a text that grows, whose room serves one text after another. The views of both
//! texts decode the bytes, so that a name or a string is the same list in a contract as in the definition of a token.
//! A new method here has to keep to these views, and to allocate only where it says so. How many bytes are short may change.

ghost use Rattle.std.specs.Prelude.{◌≡◌, ◌==◌, [], ◌∷◌, ◌++◌, length, chars, string_bytes, encode_utf8_all, IfOk, OnOk, OnErr};
ghost use Rattle.std.specs.Borrow.{sem};
ghost use Rattle.std.specs.List.{AllZip};
ghost use Rattle.coll_lex.specs.Buffers.{LendsMembers};

use arrayvec::ArrayString;
use std::alloc::{AllocError, Global};
use std::marker::Model;

// Most bytes of a text that lies in the value itself: most names are as short.
const SHORT_BYTES: usize = 16;

// The room that is taken for the first character of a text that grows: all keywords and most names fit in it.
const FIRST_ROOM: usize = 24;

// The members that a list has room for once it gets its first: most lines have no more tokens.
const FIRST_MEMBERS: usize = 8;

// Where the bytes of a text lie: in the value itself, where they are few, or else in memory.
#[derive(Debug, Drop)]
enum Bytes {
    Short(ArrayString<SHORT_BYTES>),
    Long(String),
}

impl Bytes {
    ghost use Rattle.std.specs.Prelude.{IsUtf8};
    ghost use Rattle.coll_lex.specs.Buffers.{text_bytes};

    // Lends the text.
    fn as_str(&self) -> &str
        ensures value { result.now ≡ text_bytes self.now }
        ensures text { IsUtf8 (text_bytes self.now) }
    {
        match self {
            Bytes::Short(text) => text.as_str(),
            Bytes::Long(text) => text.as_str(),
        }
    }

    // A copy of a text. It takes memory for a long one.
    fn copied(alloc: Global, text: &str) -> Result<Bytes, AllocError>
        ensures { IfOk result (λ copy. text_bytes copy ≡ text.now) }
    {
        match ArrayString::from(text) {
            Ok(short) => Ok(Bytes::Short(short)),
            Err(_) => {
                let long = String::from_str(alloc, text)?;
                Ok(Bytes::Long(long))
            }
        }
    }

    // A copy. It takes memory for what is long.
    fn try_copy(&self) -> Result<Bytes, AllocError>
        ensures { IfOk result (λ copy. text_bytes copy ≡ text_bytes self.now) }
    {
        match self {
            Bytes::Short(text) => Ok(Bytes::Short(*text)),
            Bytes::Long(text) => {
                let copy = text.clone()?;
                Ok(Bytes::Long(copy))
            }
        }
    }
}

/// A text, which contracts see as the list of its characters.
#[derive(Debug)]
pub struct TextBuf {
    bytes: Bytes,
}

// Written out, so that each place that drops a text is one call, and no step for each kind of text.
impl Drop for TextBuf {
    #[inline]
    fn drop(self) {
        let TextBuf { bytes } = self;
        drop(bytes);
    }
}

impl Model for TextBuf {
    ghost use Rattle.std.specs.Prelude.{List, ℕ, chars};
    ghost use Rattle.coll_lex.specs.Buffers.{text_bytes};

    ghost Value = { List ℕ };

    ghost view = { λ t. chars (text_bytes t.bytes) };
}

impl TextBuf {
    /// Wraps a text. It takes no memory.
    pub fn new(text: String) -> TextBuf
        ensures { result ≡ chars (string_bytes text) }
    {
        TextBuf {
            bytes: Bytes::Long(text),
        }
    }

    /// A copy of a text. A short one takes no memory.
    pub fn copied(alloc: Global, text: &str) -> Result<TextBuf, AllocError>
        ensures { IfOk result (λ copy. copy ≡ chars text.now) }
    {
        let bytes = Bytes::copied(alloc, text)?;
        Ok(TextBuf { bytes })
    }

    /// Lends the text, which is UTF-8.
    pub fn get(&self) -> &str
        ensures characters { chars result.now ≡ self.now }
        ensures bytes { encode_utf8_all self.now ≡ result.now }
    {
        self.bytes.as_str()
    }

    /// A copy of the text. A short one takes no memory.
    pub fn try_copy(&self) -> Result<TextBuf, AllocError>
        ensures { IfOk result (λ copy. copy ≡ self.now) }
    {
        let bytes = self.bytes.try_copy()?;
        Ok(TextBuf { bytes })
    }
}

/// A text that is gathered character by character, and whose room stays for the next one. Contracts see it as the list of its
/// characters.
#[derive(Drop)]
pub(crate) struct Gathered {
    text: String,
}

impl Model for Gathered {
    ghost use Rattle.std.specs.Prelude.{List, ℕ, chars, string_bytes};

    ghost Value = { List ℕ };

    ghost view = { λ t. chars (string_bytes t.text) };
}

impl Gathered {
    /// A text of no characters. It takes no memory.
    pub(crate) fn empty(alloc: Global) -> Gathered
        ensures { result ≡ [] }
    {
        Gathered {
            text: String::new(alloc),
        }
    }

    /// Lends the text, which is UTF-8.
    pub(crate) fn get(&self) -> &str
        ensures { chars result.now ≡ self.now }
    {
        self.text.as_str()
    }

    /// Whether the text has no characters.
    pub(crate) fn is_empty(&self) -> bool
        ensures { result ≡ (length self.now == 0) }
    {
        self.get().is_empty()
    }

    /// Puts a character at the end. A refused growth leaves the text as it was.
    pub(crate) fn push(&mut self, c: char) -> Result<(), AllocError>
        ensures ok { OnOk result (self.new ≡ self.old ++ c ∷ []) }
        ensures err { OnErr result (self.new ≡ self.old) }
    {
        self.begin()?;
        self.text.push(c)?;
        Ok(())
    }

    /// Puts a text at the end. A refused growth leaves the text as it was.
    pub(crate) fn push_str(&mut self, more: &str) -> Result<(), AllocError>
        ensures ok { OnOk result (self.new ≡ self.old ++ chars more.now) }
        ensures err { OnErr result (self.new ≡ self.old) }
    {
        self.begin()?;
        self.text.push_str(more)?;
        Ok(())
    }

    /// Begins another text in the same room.
    pub(crate) fn clear(&mut self)
        ensures { self.new ≡ [] }
    {
        self.text.clear();
    }

    // Takes room for the first characters of a text that has none yet.
    fn begin(&mut self) -> Result<(), AllocError>
        ensures { self.new ≡ self.old }
    {
        if self.text.is_empty() {
            self.text.reserve(FIRST_ROOM)?;
        }
        Ok(())
    }
}

/// A list, which contracts see as its members.
#[derive(Debug, Drop)]
pub struct ListBuf<X> {
    items: Vec<X>,
}

impl<X> Model for ListBuf<X> {
    ghost use Rattle.std.specs.Prelude.{List};

    ghost Value = { List X };

    ghost view = { λ b. b.items.items };
}

impl<X> ListBuf<X> {
    /// Wraps a list. It takes no memory.
    pub fn new(items: Vec<X>) -> ListBuf<X>
        ensures { result ≡ items.items }
    {
        ListBuf { items }
    }

    /// Lends the members.
    pub fn get(&self) -> &[X]
        ensures { result.now ≡ self.now }
    {
        self.items.as_slice()
    }

    /// Lends the members to be changed. Their number stays.
    pub fn get_mut(&mut self) -> &mut [X]
        ensures* writes_back { sem 𝓛 (LendsMembers X.row self.entry result) }
        ensures value { result.now ≡ self.old }
    {
        self.items.as_mut_slice()
    }

    /// Hands the list over. It takes no memory.
    pub fn into_items(self) -> Vec<X>
        ensures { result.items ≡ self }
    {
        self.items
    }

    /// A list of no members. It takes no memory.
    pub(crate) fn empty(alloc: Global) -> ListBuf<X>
        ensures { result ≡ [] }
    {
        ListBuf {
            items: Vec::new(alloc),
        }
    }

    /// Whether the list has no members.
    pub(crate) fn is_empty(&self) -> bool
        ensures { result ≡ (length self.now == 0) }
    {
        self.items.is_empty()
    }
}

impl<X: Clone> Clone for ListBuf<X> {
    ghost is_clone = { λ list copy. AllZip X.is_clone list copy };

    fn clone(&self) -> Result<ListBuf<X>, AllocError> {
        let items = self.items.clone()?;
        Ok(ListBuf { items })
    }
}

impl<X: Drop> ListBuf<X> {
    /// Puts a member at the end. A refused growth drops it, and leaves the list as it was.
    #[inline(always)]
    pub(crate) fn push(&mut self, item: X) -> Result<(), AllocError>
        ensures ok { OnOk result (self.new ≡ self.old ++ item ∷ []) }
        ensures err { OnErr result (self.new ≡ self.old) }
    {
        self.begin()?;
        self.items.push(item)?;
        Ok(())
    }
    // Takes room for the first members of a list that has none yet.
    fn begin(&mut self) -> Result<(), AllocError>
        ensures { self.new ≡ self.old }
    {
        if self.items.is_empty() {
            self.items.reserve(FIRST_MEMBERS)?;
        }
        Ok(())
    }
}
