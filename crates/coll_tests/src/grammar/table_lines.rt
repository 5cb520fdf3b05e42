//! Lines of tables.

ghost use Rattle.coll_lex.specs.Names.{AreTokens};

use super::{Place, assert_rows, past_element, past_named, past_order, past_rules, past_two};
use crate::assertions::{past, past_name};
use coll_lex::{Line, TextBuf};
use coll_syntax::{Rules, TableLine, parse_table_line};
use std::alloc::Global;
use std::process::Abort;

/// What is left of a wanted text behind what a line says as one of a table.
pub fn past_line<'a>(rt: &impl Abort, alloc: Global, wanted: &'a str, line: &Line) -> &'a str
    requires { AreTokens line.now.tokens }
{
    let read = parse_table_line(alloc, line);
    let rest = match &read {
        Ok(line) => past_read(rt, wanted, line),
        Err(fault) => past(rt, wanted, fault.name()),
    };
    drop(read);
    rest
}

fn past_read<'a>(rt: &impl Abort, wanted: &'a str, line: &TableLine) -> &'a str {
    match line {
        TableLine::Symbol(name) => past_named(rt, wanted, "symbol ", name.get()),
        TableLine::Element { name, text } => past_element(rt, wanted, name.get(), text.get()),
        TableLine::Equivalence { name, symbol } => {
            past_two(rt, wanted, "second ", name.get(), symbol.get())
        }
        TableLine::OrderStart { section, rules } => past_start(rt, wanted, section, rules),
        TableLine::OrderEnd => past(rt, wanted, "order_end"),
        TableLine::Section(name) => past_named(rt, wanted, "section ", name.get()),
        TableLine::Script => past(rt, wanted, "script"),
        TableLine::EndCategory => past(rt, wanted, "END"),
        TableLine::Order(line) => past_order(rt, wanted, line),
    }
}

// The name of the section, if it has one, and the rules, if they are given.
fn past_start<'a>(
    rt: &impl Abort,
    wanted: &'a str,
    section: &Option<TextBuf>,
    rules: &Option<Rules>,
) -> &'a str {
    let mut rest = past(rt, wanted, "start");
    if let Some(name) = section {
        rest = past_name(rt, past(rt, rest, " "), name.get());
    }
    match rules {
        Some(rules) => past_rules(rt, rest, rules.get()),
        None => rest,
    }
}

const ROWS: &str = r#"-- Declarations.
collating-symbol <X> => symbol <X>
collating-symbol<X># note => symbol <X>
collating-symbol => MissingOperand
collating-symbol <U0058> => BadOperand
collating-symbol X => BadOperand
collating-symbol "X" => BadOperand
collating-symbol ; => BadOperand
collating-symbol <X> <Y> => ExtraOperand
collating-symbol <X>; => ExtraOperand
symbol-equivalence <A> <B> => second <A> <B>
symbol-equivalence<A><B># note => second <A> <B>
symbol-equivalence <A> <A> => second <A> <A>
symbol\-equivalence <A> <B> => second <A> <B>
symbol-equivalence => MissingOperand
symbol-equivalence <A> => MissingOperand
symbol-equivalence A <B> => BadOperand
symbol-equivalence <A> B => BadOperand
symbol-equivalence <U0041> <B> => BadOperand
symbol-equivalence <A> <U0042> => BadOperand
symbol-equivalence <A>;<B> => BadOperand
symbol-equivalence <A> "B" => BadOperand
symbol-equivalence <A> <B> <C> => ExtraOperand
symbol-equivalence <A> <B>; => ExtraOperand
symbol-equivalences <A> <B> => UnknownStatement
collating-element <ch> from "<U0063><U0068>" => element <ch> ch
collating-element <ch> from "c\h" => element <ch> ch
collating-element => MissingOperand
collating-element <ch> => MissingOperand
collating-element <ch> from => MissingOperand
collating-element <U0063> from "ch" => BadOperand
collating-element ch from "ch" => BadOperand
collating-element <ch> for "ch" => BadOperand
collating-element <ch> "ch" => BadOperand
collating-element <ch> from <ch> => BadOperand
collating-element <ch> from ch => BadOperand
collating-element <ch> from "ch" "ch" => ExtraOperand
-- Strings of elements.
collating-element <p> from "" => EmptyString
collating-element <p> from "" x => EmptyString
collating-element <p> from "a" => ElementLength
collating-element <p> from "ab" => element <p> ab
collating-element <p> from "abcdefghijklmnop" => element <p> abcdefghijklmnop
collating-element <p> from "abcdefghijklmnopq" => ElementLength
collating-element <p> from "abcdefghijklmnopq" x => ElementLength
collating-element <p> from "a<X>" => BadOperand
collating-element <p> from "<X>" => BadOperand
collating-element <p> from "abcdefghijklmnopq<X>" => BadOperand
collating-element <p> from "ä😀" => element <p> ä😀
-- Rules of a table.
order_start => start
\order_start => start
order_start forward => start forward
order_start backward => start backward
order_start position => start forward,position
order_start forward,position => start forward,position
order_start position,forward => start forward,position
order_start backward,position => start backward,position
order_start position , backward => start backward,position
order_start forward;backward;forward;forward,position => start forward backward forward forward,position
order_start forward; => BadRule
order_start ;forward => BadRule
order_start ; => BadRule
order_start forward <N> => BadRule
order_start forward backward => BadRule
order_start forward,backward => BadRule
order_start forward,backward;forward => BadRule
order_start position,position => BadRule
order_start forward, => BadRule
order_start , => BadRule
order_start backward,position,forward => BadRule
order_start "forward" => BadRule
order_start a => BadRule
order_start forwards => BadRule
-- Fifth operands and sections.
order_start forward;forward;forward;forward;forward => TooManyLevels
order_start forward;forward;forward;forward; => TooManyLevels
order_start forward;forward;forward;forward;<N> bogus, => TooManyLevels
order_start forward;forward;forward;forward,;forward => BadRule
order_start forward;;forward;forward;forward => BadRule
order_start <N> => start <N>
order_start <N>;backward => start <N> backward
order_start <N>;forward;position => start <N> forward forward,position
order_start <N>; => BadRule
order_start <N>;<M> => BadRule
order_start <N> forward => ExtraOperand
order_start <N>,forward => ExtraOperand
order_start <N> <M> => ExtraOperand
order_start <U004E> => BadOperand
order_start <U004E>;forward => BadOperand
order_end => order_end
order_end , => ExtraOperand
section <N> => section <N>
section => MissingOperand
section N => BadOperand
section <U004E> => BadOperand
section <N> <M> => ExtraOperand
script <N> => script
script => MissingOperand
script "N" => BadOperand
script <N>; => ExtraOperand
-- Ends and first tokens.
END LC_COLLATE => END
END => MissingOperand
END LC_CTYPE => BadOperand
END <LC_COLLATE> => BadOperand
END LC_COLLATE LC_COLLATE => ExtraOperand
a => order a
: => order :
<U0061> => order a
<BASE> => order <BASE>
UNDEFINED => order UNDEFINED
bogus => UnknownStatement
IGNORE => UnknownStatement
; => UnknownStatement
, => UnknownStatement
"a" => UnknownStatement
LC_COLLATE => UnknownStatement
copy "x" => UnknownStatement
reorder-after a => UnknownStatement
reorder-end => UnknownStatement
reorder-section-after <S> <T> => UnknownStatement
-- Weights of order lines.
<U0061> <U0061>;<BASE>;"<S>a";IGNORE => order a with (a) (<BASE>) (<S>a) I
a ; => order a with - -
a b; => order a with (b) -
a ;;b;;; => order a with - - (b) - - -
a a => order a with (a)
a "a" => order a with (a)
a "aa" => order a with (aa)
a "IGNORE" => order a with (IGNORE)
a IG\NORE => order a with I
UNDEFINED ;IGNORE => order UNDEFINED with - I
<X> <X> => order <X> with (<X>)
a "abcdefghijklmnopqrstuvwxyz012345" => order a with (abcdefghijklmnopqrstuvwxyz012345)
a "abcdefghijklmnopqrstuvwxyz0123456" => WeightTooLong
a "" => EmptyString
a b;"" c => EmptyString
-- Tokens where a semicolon is wanted.
a b c => ExtraOperand
a b <X> => ExtraOperand
a b <U0062> => ExtraOperand
a b IGNORE => ExtraOperand
a IGNORE b => ExtraOperand
a b "c" => ExtraOperand
a b "" => ExtraOperand
a b "abcdefghijklmnopqrstuvwxyz0123456" => ExtraOperand
a b;c d;ef => ExtraOperand
a b UNDEFINED => BadOperand
a b cd => BadOperand
a b,c => BadOperand
<U0062>..<U0064> => BadOperand
a UNDEFINED => BadOperand
a , => BadOperand
a bc => BadOperand
a b;;cd => BadOperand
a bc;"" => BadOperand"#;

#[test]
fn each_line_says_what_is_wanted(rt: HostRuntime) {
    assert_rows(&rt, rt.alloc(), Place::Table, ROWS);
}
