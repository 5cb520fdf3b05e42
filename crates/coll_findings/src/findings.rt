//! The faults of a text. All of this is plain data.

ghost use Rattle.std.specs.Prelude.{◌≡◌};
ghost use Rattle.coll_findings.specs.ToldFaults.{are_same, is_told_by_id, same_subject};

use crate::foreign_words::ForeignWord;
use coll_advice::sentence_for;
use coll_faults::RunFault;
use coll_lex::TextBuf;
use coll_syntax::Id;

/// The number of what isn't declared. It is told once of each identifier.
pub(crate) const NOT_DECLARED: u8 = 34;

/// The number of what a weight names and has no entry. It is told once of each identifier.
pub(crate) const WEIGHT_NOT_PLACED: u8 = 38;

/// What a fault is about.
#[derive(Drop)]
pub enum About {
    /// No identifier.
    Nothing,
    /// This identifier; where it isn't declared, perhaps with a declared name that is near.
    Id {
        /// The identifier.
        id: Id,
        /// The name that may be meant.
        near: Option<TextBuf>,
    },
    /// A keyword of another dialect.
    Word(ForeignWord),
}

impl About {
    // Whether another fault of a line is about the same. A line begins with one keyword.
    fn is_same(&self, other: &About) -> bool
        ensures { result ≡ same_subject self.now other.now }
    {
        match (self, other) {
            (About::Nothing, About::Nothing) => true,
            (About::Id { id, .. }, About::Id { id: other, .. }) => id.is_same(other),
            (About::Word(_), About::Word(_)) => true,
            _ => false,
        }
    }
}

/// A fault of one of the texts.
#[derive(Drop)]
pub struct FoundFault {
    /// The fault as a batch answers it: in a block with the line of its `reorder-after`.
    pub fault: RunFault,
    /// The number of its own line, from 1, or 0 where it comes from none. In a block it is that of the line at fault.
    pub line: u32,
    /// What it is about.
    pub about: About,
    /// What to do.
    pub sentence: &'static str,
}

impl FoundFault {
    /// A fault at a line of its own, with what to do: what is said of it, or else by its number and by what it is about.
    pub fn new(fault: RunFault, line: u32, about: About, said: Option<&'static str>) -> FoundFault
        ensures fault { result.fault ≡ fault }
        ensures line { result.line ≡ line }
        ensures about { result.about ≡ about }
    {
        let sentence = match said {
            Some(said) => said,
            None => sentence_by(fault.fault.number(), &about),
        };
        FoundFault {
            fault,
            line,
            about,
            sentence,
        }
    }

    /// Whether another fault is this one: it has the same number and is about the same, at the same line of the same input, or, where an
    /// identifier is told once, at any.
    pub(crate) fn is_same(&self, other: &FoundFault) -> bool
        ensures { result ≡ are_same self.now other.now }
    {
        (self.line == other.line || self.is_told_by_id())
            && self.fault.input == other.fault.input
            && self.fault.fault.number() == other.fault.fault.number()
            && self.about.is_same(&other.about)
    }

    // Whether it is told once of an identifier, and not once of each line.
    fn is_told_by_id(&self) -> bool
        ensures { result ≡ is_told_by_id self.now }
    {
        match &self.about {
            About::Id { .. } => matches!(
                self.fault.fault.number(),
                NOT_DECLARED | WEIGHT_NOT_PLACED
            ),
            About::Nothing | About::Word(_) => false,
        }
    }
}

// What to do about a fault by its number and by what it is about.
fn sentence_by(number: u8, about: &About) -> &'static str {
    let id = match about {
        About::Id { id, .. } => Some(id),
        About::Nothing | About::Word(_) => None,
    };
    sentence_for(number, id).unwrap_or("")
}
