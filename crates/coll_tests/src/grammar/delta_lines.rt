//! Lines of deltas.

ghost use Rattle.coll_lex.specs.Names.{AreTokens};

use super::{Place, assert_rows, past_element, past_id, past_named, past_order, past_two};
use crate::assertions::past;
use coll_lex::Line;
use coll_syntax::{DeltaLine, parse_delta_line};
use std::alloc::Global;
use std::process::Abort;

/// What is left of a wanted text behind what a line says as one of a delta.
pub fn past_line<'a>(rt: &impl Abort, alloc: Global, wanted: &'a str, line: &Line) -> &'a str
    requires { AreTokens line.now.tokens }
{
    let read = parse_delta_line(alloc, line);
    let rest = match &read {
        Ok(line) => past_read(rt, wanted, line),
        Err(fault) => past(rt, wanted, fault.name()),
    };
    drop(read);
    rest
}

fn past_read<'a>(rt: &impl Abort, wanted: &'a str, line: &DeltaLine) -> &'a str {
    match line {
        DeltaLine::Symbol(name) => past_named(rt, wanted, "symbol ", name.get()),
        DeltaLine::Element { name, text } => past_element(rt, wanted, name.get(), text.get()),
        DeltaLine::Equivalence { name, symbol } => {
            past_two(rt, wanted, "second ", name.get(), symbol.get())
        }
        DeltaLine::Script => past(rt, wanted, "script"),
        DeltaLine::Category => past(rt, wanted, "LC_COLLATE"),
        DeltaLine::EndCategory => past(rt, wanted, "END"),
        DeltaLine::Copy => past(rt, wanted, "copy"),
        DeltaLine::ReorderAfter(target) => past_id(rt, past(rt, wanted, "after "), target),
        DeltaLine::ReorderEnd => past(rt, wanted, "end"),
        DeltaLine::SectionAfter { moved, after } => {
            past_two(rt, wanted, "section ", moved.get(), after.get())
        }
        DeltaLine::Order(line) => past_order(rt, wanted, line),
    }
}

const ROWS: &str = r#"-- Declarations and lines without effect.
collating-symbol <X> => symbol <X>
collating-symbol <X> <X> => ExtraOperand
collating-element <ch> from "ch" => element <ch> ch
collating-element <ch> from "c" => ElementLength
symbol-equivalence <A> <B> => second <A> <B>
symbol-equivalence <A> => MissingOperand
symbol-equivalence <A> B => BadOperand
symbol-equivalence <A> <B> <C> => ExtraOperand
script <N> => script
script N => BadOperand
LC_COLLATE => LC_COLLATE
LC_COLLATE LC_COLLATE => ExtraOperand
END LC_COLLATE => END
END => MissingOperand
END LC_CTYPE => BadOperand
copy "iso14651_t1" => copy
copy "" => copy
copy "<X>a" => copy
copy => MissingOperand
copy iso14651_t1 => BadOperand
copy <X> => BadOperand
copy "x" "y" => ExtraOperand
-- Blocks and sections.
reorder-after <U0061> => after a
reorder\-after ä => after ä
reorder-after<BASE> # note => after <BASE>
reorder-after UNDEFINED => after UNDEFINED
reorder-after => MissingOperand
reorder-after ab => BadOperand
reorder-after IGNORE => BadOperand
reorder-after "a" => BadOperand
reorder-after ; => BadOperand
reorder-after a b => ExtraOperand
reorder-afterwards a => UnknownStatement
reorder-end => end
reorder-end , => ExtraOperand
reorder-section-after <S> <T> => section <S> <T>
reorder-section-after <Q> <Q> => section <Q> <Q>
reorder-section-after => MissingOperand
reorder-section-after <S> => MissingOperand
reorder-section-after <S> T => BadOperand
reorder-section-after <U0053> <T> => BadOperand
reorder-section-after <S> <U0054> => BadOperand
reorder-section-after <S>,<T> => BadOperand
reorder-section-after <S> <T> <R> => ExtraOperand
-- Order lines and first tokens.
<BASE> => order <BASE>
UNDEFINED <BASE> => order UNDEFINED with (<BASE>)
<ch> <ch>;<BASE>;<MIN>;IGNORE => order <ch> with (<ch>) (<BASE>) (<MIN>) I
<U0062> <U0062>;;;; => order b with (b) - - - -
:; => order : with - -
:<X> => order : with (<X>)
a b c => ExtraOperand
a UNDEFINED => BadOperand
bogus => UnknownStatement
order_start forward => UnknownStatement
order_end => UnknownStatement
section <N> => UnknownStatement
; => UnknownStatement
"a" => UnknownStatement
:undo => UnknownStatement"#;

#[test]
fn each_line_says_what_is_wanted(rt: HostRuntime) {
    assert_rows(&rt, rt.alloc(), Place::Delta, ROWS);
}
