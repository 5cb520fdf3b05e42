//! Physical lines and the answers to them, in the order of POSIX.1-2017, 7.3: continuation, characters made literal,
//! directives, symbols, strings, and the line that begins the category. A new rule of lines is a new row.
//!
//! A table of lines is one constant text, of which each paragraph is a text that is lexed by itself. A row has a physical line,
//! `=>`, and the answer: a dash where there is no logical line yet, the number of the line and its tokens, or the name of the
//! fault. A word is shown as it is, a symbol in brackets, a character between apostrophes, and a string in quotation marks. The
//! last row has the answer to the end. A row that begins with `--` says what the others show.

use crate::assertions::{assert_same, past, past_char, past_name};
use crate::long_texts::repeated;
use coll_lex::{Chars, LexFault, Lexer, Line, Piece, Token};
use std::alloc::Global;
use std::mem;
use std::process::Abort;

// What is left of a wanted text behind a string.
fn past_string<'a>(rt: &impl Abort, wanted: &'a str, pieces: &[Piece]) -> &'a str {
    let mut rest = past(rt, wanted, "\"");
    for piece in pieces {
        rest = match piece {
            Piece::Char(c) => past_char(rt, rest, *c),
            Piece::Name(name) => past_name(rt, rest, name.get()),
        };
    }
    past(rt, rest, "\"")
}

// .. behind a token.
fn past_token<'a>(rt: &impl Abort, wanted: &'a str, token: &Token) -> &'a str {
    match token {
        Token::Word(word) => past(rt, wanted, word.get()),
        Token::Symbol(name) => past_name(rt, wanted, name.get()),
        Token::Char(c) => past(rt, past_char(rt, past(rt, wanted, "'"), *c), "'"),
        Token::Text(pieces) => past_string(rt, wanted, pieces.get()),
        Token::Semicolon => past(rt, wanted, ";"),
        Token::Comma => past(rt, wanted, ","),
    }
}

// Asserts that a line is the one that is wanted. Its number has one digit.
fn assert_line(rt: &impl Abort, line: &Line, wanted: &str) {
    let number = char::from_digit(line.number, 10).expect(rt, wanted);
    let mut rest = past(rt, past_char(rt, wanted, number), ":");
    for token in line.tokens.get() {
        rest = past_token(rt, past(rt, rest, " "), token);
    }
    assert_same(rt, wanted, rest, "");
}

fn assert_fed(rt: &impl Abort, lexer: &mut Lexer, line: &str, wanted: &str) {
    let given = lexer.feed(line.as_bytes());
    match &given {
        Ok(Some(line)) => assert_line(rt, line, wanted),
        Ok(None) => assert_same(rt, "no line", "-", wanted),
        Err(fault) => assert_same(rt, "a fault", fault.name(), wanted),
    }
    drop(given);
}

// The end of a text leaves no line open. Another text begins then.
fn assert_end(rt: &impl Abort, alloc: Global, lexer: &mut Lexer, wanted: &str) {
    let given = match lexer.finish() {
        Ok(()) => "end",
        Err(fault) => fault.name(),
    };
    assert_same(rt, wanted, (given, lexer.pending()), (wanted, None));
    drop(mem::replace(lexer, new_lexer(rt, alloc)));
}

fn new_lexer(rt: &impl Abort, alloc: Global) -> Lexer {
    Lexer::new(alloc).expect(rt, "a lexer")
}

fn assert_row(rt: &impl Abort, alloc: Global, lexer: &mut Lexer, row: &str) {
    match row.split_once(" => ") {
        Some((line, wanted)) => assert_fed(rt, lexer, line, wanted),
        None if row.is_empty() || row.starts_with("--") => (),
        None => assert_end(rt, alloc, lexer, row),
    }
}

fn assert_rows(rt: &impl Abort, alloc: Global, rows: &str) {
    let mut lexer = new_lexer(rt, alloc);
    for row in rows.split('\n') {
        assert_row(rt, alloc, &mut lexer, row);
    }
    drop(lexer);
}

const LINES: &str = r#"-- Words, strings and symbols go on in the next line.
a\ => -
b "x\ => -
y" <p\>q> # c => 1: ab "xy" <p>q>
end

<a\ => -
b>;\ => -
,c => 1: <ab> ; , c
end

"<a\ => -
b>" => 1: "<ab>"
end

\ => -
\ => -
a => 1: a
end

-- A comment is not continued.
# x \ => -
b => 2: b
end

a # x \ => 1: a
b => 2: b
end

a\# x \ => -
b => 1: a# x b
end

# "a <b => -
\# c => 2: # c
end

-- The text ends where a line is continued.
a \ => -
DanglingEscape

"a \ => -
DanglingEscape

a \ => -
 => 1: a
end

-- Directives choose the two characters.
escape_char / => -
comment_char % => -
a/;b%c => 3: a;b
end

comment_char % \ => -
a%b => 2: a
end

comment_char # => -
escape_char \ => -
a\#b#c => 3: a#b
end

-- A directive may be at fault, and then chooses nothing.
comment_char \ => BadCharDirective
a#b => 2: a
end

comment_char => BadCharDirective
a#b => 2: a
end

comment_char %x => BadCharDirective
a#b => 2: a
end

escape_char # => BadCharDirective
a#b => 2: a
end

escape_char a => BadCharDirective
a#b => 2: a
end

comment_char %\ => BadCharDirective
a#b => 2: a
end

comment_char " => BadCharDirective
a#b => 2: a
end

-- What looks like a directive may be text.
a \ => -
comment_char % => 1: a comment_char %
b%c => 3: b%c
end

comment\_char % => 1: comment_char %
b%c => 2: b%c
end

comment_char; => 1: comment_char ;
comment_char<X> => 2: comment_char <X>
comment_char# => 3: comment_char
end

-- Carriage returns and escapes at the end.
a\\ => 1: a\
b => 2: b
end

-- Symbols are decided after unescaping.
<U0061><U00000061><U61><u0061> => 1: 'a' 'a' <U61> <u0061>
end

<U110000> => BadCodePoint
<UD800> => BadCodePoint
<UFFFFFFFF> => BadCodePoint
end

-- A name has at most 64 characters: here one of 64, which have two bytes each, and one of 65.
<éééééééééééééééééééééééééééééééééééééééééééééééééééééééééééééééé> => 1: <éééééééééééééééééééééééééééééééééééééééééééééééééééééééééééééééé>
end

<ééééééééééééééééééééééééééééééééééééééééééééééééééééééééééééééééé> => BadName
end

-- Strings hold characters and names.
"\n" => 1: "n"
"a\d065" => CharacterConstant
"a => OpenString
"<a => OpenSymbol
end

"<S><U0061> #;,\"" => 1: "<S>a #;,""
"" => 2: ""
a"b"c => 3: a "b" c
end

"<> => EmptySymbol
"<U110000>" => BadCodePoint
end

-- Words end before separators.
IG\NORE => 1: IGNORE
or\der_end => CharacterConstant
\0 => CharacterConstant
\8\; => 4: 8;
end

-- After a fault the next line begins a new one.
a\d \ => CharacterConstant
b => 2: b
end

a \ => -
b\d \ => CharacterConstant
c => 3: c
end

-- Spellings of names and characters are read back under the characters that they are written for.
comment_char % => -
escape_char / => -
<BASE> => 3: <BASE>
<a/>b> => 4: <a>b>
<///>> => 5: </>>
<a"%<é> => 6: <a"%<é>
<U61> => 7: <U61>
end

comment_char % => -
escape_char / => -
<U0061> => 3: 'a'
<U0025> => 4: '%'
<U002F> => 5: '/'
<U00E9> => 6: 'é'
<U0010ABCD> => 7: '􊯍'
end"#;

// Lines with characters that are written as escapes here, or a blank at the end of the row.
const LINES_WITH_ESCAPES: &str = "-- Directives choose the two characters.
  comment_char\t%  what follows => -
a%b => 2: a
end

-- What looks like a directive may be text.
comment_char\r\r => 1: comment_char\r
end

-- Carriage returns and escapes at the end.
a\\\r => -
b\r => 1: ab
end

a\\\r\r => 1: a\r
b\rc => 2: b\rc
end

a\\  => 1: a\x20
\\  => 2: \x20
end

-- Symbols are decided after unescaping.
<\\U0041><U000000061><U00e9><U00E9><UD7FF><U10FFFF> => 1: 'A' <U000000061> 'é' 'é' '\u{d7ff}' '\u{10ffff}'
end

<> => EmptySymbol
<a b> => BadName
<a\tb> => BadName
<\u{7f}> => BadName
<\u{1}> => BadName
<a => OpenSymbol
end

<\u{80}\u{a0}> => 1: <\u{80}\u{a0}>
<\\d\\x\\0> => 2: <dx0>
<a\"b<#;,> => 3: <a\"b<#;,>
end

-- Words end before separators.
a;b,c<d>e\"f\"g#h => 1: a ; b , c <d> e \"f\" g
> a>b => 2: > a>b
 \t  => -
end

-- Spellings of characters are read back.
<U0000> => 1: '\0'
<UFFFF> => 2: '\u{ffff}'
<U00010000> => 3: '\u{10000}'
<U0010ABCD> => 4: '\u{10abcd}'
<U0010FFFF> => 5: '\u{10ffff}'
end";

#[test]
fn each_line_has_its_answer(rt: HostRuntime) {
    assert_rows(&rt, rt.alloc(), LINES);
    assert_rows(&rt, rt.alloc(), LINES_WITH_ESCAPES);
}

// What a line is handed to.
enum To {
    // The category.
    Feed,
    // What stands before it. The answer is whether the line begins it.
    Outside,
}

use To::{Feed, Outside};

// The prefix of a line, the number of blanks behind it, whether it gives a logical line or begins the category, or its fault, and
// the number of the first line of the one that is open then.
type Call = (
    To,
    &'static [u8],
    usize,
    Result<bool, LexFault>,
    Option<u32>,
);

const CALLS: &[Call] = &[
    // The open line has the number of its first line.
    (Feed, b"# nothing", 0, Ok(false), None),
    (Feed, b"a \\", 0, Ok(false), Some(2)),
    (Feed, b"b \\", 0, Ok(false), Some(2)),
    (Feed, b"c", 0, Ok(true), None),
    // Each line is tested as text: a continued line, and then lines that end it, as they aren't UTF-8, whatever else they are.
    (Feed, b"a \\", 0, Ok(false), Some(5)),
    (Feed, b"# \xff", 0, Err(LexFault::NotUtf8), None),
    (
        Feed,
        b"comment_char % \xff",
        0,
        Err(LexFault::NotUtf8),
        None,
    ),
    (Feed, b"a\\d \xff", 0, Err(LexFault::NotUtf8), None),
    // The comment character is the one at first.
    (Feed, b"#", 0, Ok(false), None),
    (Feed, b"%", 0, Ok(true), None),
    // A line has at most 65,536 bytes.
    (Feed, b"", 65_536, Ok(false), None),
    (Feed, b"", 65_537, Err(LexFault::LineTooLong), None),
    (Outside, b"", 65_536, Ok(false), None),
    (Outside, b"", 65_537, Err(LexFault::LineTooLong), None),
    // The lengths of joined lines are added: two bytes that continue the line, 65,534, two more, and 65,535.
    (Feed, b"\\\r", 0, Ok(false), Some(15)),
    (Feed, b"", 65_534, Ok(false), None),
    (Feed, b"\\\r", 0, Ok(false), Some(17)),
    (Feed, b"", 65_535, Err(LexFault::LineTooLong), None),
    // The category begins by its bytes. A directive among the lines before counts from the next line on.
    (Outside, b"LC_COLLATE;", 0, Ok(false), None),
    (Outside, b"LC_COLLATE \\", 0, Ok(false), None),
    (Outside, b"LC_COLLATE%x", 0, Ok(false), None),
    (Outside, b"LC_COLLATES", 0, Ok(false), None),
    (Outside, b"LC\\_COLLATE", 0, Ok(false), None),
    (Outside, b"\xff\"<\\", 0, Ok(false), None),
    (Outside, b" \tLC_COLLATE\r", 0, Ok(true), None),
    (Outside, b"LC_COLLATE  # \xff", 0, Ok(true), None),
    (Outside, b"comment_char % \xff", 0, Ok(false), None),
    (Outside, b"LC_COLLATE%x", 0, Ok(true), None),
    (
        Outside,
        b"escape_char \xff",
        0,
        Err(LexFault::BadCharDirective),
        None,
    ),
    (Outside, b"escape_char /", 0, Ok(false), None),
];

// Whether a line gives a logical line.
fn feed(lexer: &mut Lexer, line: &[u8]) -> Result<bool, LexFault> {
    let given = lexer.feed(line);
    let is_given = matches!(&given, Ok(Some(_)));
    match given.err() {
        Some(fault) => Err(fault),
        None => Ok(is_given),
    }
}

fn assert_call(rt: &impl Abort, alloc: Global, lexer: &mut Lexer, call: &Call) {
    let (to, prefix, blanks, wanted, pending) = call;
    let line = repeated(rt, alloc, prefix, b" ", *blanks, b"");
    let given = match to {
        Feed => feed(lexer, &line),
        Outside => lexer.outside(&line),
    };
    assert_same(rt, "the answer", given, *wanted);
    assert_same(rt, "the open line", lexer.pending(), *pending);
    drop(line);
}

#[test]
fn each_call_has_its_answer(rt: HostRuntime) {
    let mut lexer = new_lexer(&rt, rt.alloc());
    assert_same(&rt, "at first", lexer.pending(), None);
    for call in CALLS {
        assert_call(&rt, rt.alloc(), &mut lexer, call);
    }
    let Chars { comment, escape } = lexer.chars();
    drop(lexer);
    assert_same(&rt, "the comment character", comment, '%');
    assert_same(&rt, "the escape character", escape, '/');
}

// And not one more.
#[test]
fn a_text_has_at_most_4194304_lines(rt: HostRuntime) {
    let mut lexer = new_lexer(&rt, rt.alloc());
    for _ in 0..4_194_304 {
        assert_same(&rt, "a line", feed(&mut lexer, b""), Ok(false));
    }
    let refused = Err(LexFault::TooManyLines);
    assert_same(&rt, "one more", feed(&mut lexer, b""), refused);
    assert_same(&rt, "and another", feed(&mut lexer, b""), refused);
    drop(lexer);
}
