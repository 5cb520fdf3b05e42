//! The replies to `:key` and `:compare`: the whole answer is formed before the first byte is written.

ghost use Rattle.std.specs.Prelude.{◌≡◌, ◌++◌, ◌∷◌, [], Bool, true};
ghost use Rattle.coll_devices.specs.Devices.{CountsErr, Sends, Writes};
ghost use Rattle.coll_key.specs.WrittenKey.{has_key_form, written_key};
ghost use Rattle.coll_bench.specs.Replies.{order_word, reply_if};
ghost use Rattle.coll_requests.specs.declared.session_lines.Command.TheVariants.{Key, Compare};
ghost use Rattle.coll_requests.specs.declared.requests.Request.TheVariants.{Command};

use super::write_refused;
use crate::ranked_sessions::RankedSession;
use coll_devices::{Sink, WriteStop, write_bytes};
use coll_faults::Fault;
use coll_key::write_key;
use coll_lex::TextBuf;
use coll_syntax::Rule;
use std::alloc::Global;
use std::cmp::Ordering;

/// Writes the sort key of a text. A text that is too long, and lack of memory, are refused.
pub(crate) fn answer_key<W: Sink>(
    alloc: Global,
    session: &mut RankedSession,
    text: &TextBuf,
    out: &mut W,
) -> Result<(), WriteStop>
    ensures answered { (starved : Bool)
        × Sends (W.taken out.old) (W.taken out.new) (reply_if starved session.old.history (Command (Key text.now))) result }
    ensures unchanged { session.new ≡ session.old }
    ensures errors { CountsErr (W.failed out.old) (W.failed out.new) result }
{
    match session.key(alloc, text.get()) {
        Ok(key) => {
            let wrote = write_key_ended(out, session.session().table().rules(), &key);
            drop(key);
            wrote
        }
        Err(fault) => write_refused(out, Fault::Key(fault)),
    }
}

/// Writes a key, which has the form of one, and the line's end. Where a write fails, the device has taken a prefix of it.
pub(crate) fn write_key_ended<W: Sink>(
    out: &mut W,
    rules: &[Rule],
    key: &[u64],
) -> Result<(), WriteStop>
    requires { has_key_form rules.now key.now ≡ true }
    ensures { Writes (W.taken out.old) (W.taken out.new) (W.failed out.old) (W.failed out.new)
        (written_key rules.now key.now ++ 10 ∷ []) result }
{
    write_key(rules, key, out)?;
    write_bytes(out, b"\n")
}

/// Writes the order of two texts. A text that is too long, and lack of memory, are refused.
pub(crate) fn answer_compare<W: Sink>(
    alloc: Global,
    session: &mut RankedSession,
    text: &TextBuf,
    other: &TextBuf,
    out: &mut W,
) -> Result<(), WriteStop>
    ensures answered { (starved : Bool)
        × Sends (W.taken out.old) (W.taken out.new) (reply_if starved session.old.history (Command (Compare text.now other.now))) result }
    ensures unchanged { session.new ≡ session.old }
    ensures errors { CountsErr (W.failed out.old) (W.failed out.new) result }
{
    match session.compare(alloc, text.get(), other.get()) {
        Ok(order) => write_order(out, order),
        Err(fault) => write_refused(out, Fault::Key(fault)),
    }
}

/// Writes the word of an order, and the line's end. Where a write fails, the device has taken a prefix of it.
pub(crate) fn write_order<W: Sink>(out: &mut W, order: Ordering) -> Result<(), WriteStop>
    ensures { Writes (W.taken out.old) (W.taken out.new) (W.failed out.old) (W.failed out.new) (order_word order ++ 10 ∷ []) result }
{
    match order {
        Ordering::Less => write_bytes(out, b"less\n"),
        Ordering::Equal => write_bytes(out, b"equal\n"),
        Ordering::Greater => write_bytes(out, b"greater\n"),
    }
}
