//! How many statements stand in a file, how many that remain do not, and whether those that remain are what a file has.
//!
//! Those that stand in a file are counted from the first statement that remains, on into those that were taken back and may be put
//! again: neither `:undo` nor `:redo` changes which these are. A statement that is accepted stands behind those before it, and drops
//! those that might be put again; one that is withdrawn is taken from among them, and drops these too. So it is with those that were
//! read or written last, of which all have to be there (`specs/Stored.antt`).

ghost use Rattle.std.specs.Prelude.{◌≡◌, ◌-◌, Some, max};
ghost use Rattle.coll_edit.specs.Stored.{behind_request as stated_behind, behind_withdrawal as stated_withdrawal, is_last as stated_last, kept_to, stored_in};

use coll_edit_messages::Asked;

/// How many statements stand in a file, from the first on.
#[derive(Clone, Copy)]
pub(crate) struct Stored {
    count: u32,
    // How many were read or written last, if all of them are still there.
    last: Option<u32>,
}

impl Stored {
    /// What stands there where that was noted, and else all of so many that remain, since they are those of delta files.
    pub fn noted(stored: Option<Stored>, remaining: u32) -> Stored
        ensures { result ≡ stored_in stored remaining }
    {
        match stored {
            Some(stored) => stored,
            None => Stored {
                count: remaining,
                last: Some(remaining),
            },
        }
    }

    /// What stands there behind a request, before which so many remained, and behind which so many remain.
    pub fn behind_request(self, asked: Asked, before: u32, now: u32) -> Stored
        ensures { result ≡ stated_behind self asked before now }
    {
        match asked {
            Asked::Statement if before < now => Stored {
                count: self.count.min(before),
                last: kept_to(self.last, before),
            },
            Asked::Withdrawal(number) if now < before => self.behind_withdrawal(number, now),
            _ => self,
        }
    }

    // What stands there once the statement with a number was withdrawn, behind which so many remain.
    fn behind_withdrawal(self, number: u32, remaining: u32) -> Stored
        ensures { result ≡ stated_withdrawal self number remaining }
    {
        let kept = if number <= self.count {
            self.count.saturating_sub(1)
        } else {
            self.count
        };
        Stored {
            count: kept.min(remaining),
            last: kept_to(self.last, number.saturating_sub(1)),
        }
    }

    /// What stands there once those that remain were written.
    pub fn behind_write(self, remaining: u32) -> Stored
        ensures { result ≡ record { count = max self.count remaining; last = Some remaining } }
    {
        Stored {
            count: self.count.max(remaining),
            last: Some(remaining),
        }
    }

    /// How many of those that remain stand in no file.
    pub fn missing(self, remaining: u32) -> u32
        ensures { result ≡ remaining - self.count }
    {
        remaining.saturating_sub(self.count)
    }

    /// Whether those that remain, so many, are what was read or written last.
    pub fn is_last(self, remaining: u32) -> bool
        ensures { result ≡ stated_last self.last remaining }
    {
        match self.last {
            Some(count) => count == remaining,
            None => false,
        }
    }
}

// So many statements, where all of them are among the first of so many.
fn kept_to(count: Option<u32>, most: u32) -> Option<u32>
    ensures { result ≡ kept_to count most }
{
    match count {
        Some(count) if count <= most => Some(count),
        _ => None,
    }
}
