//! The lines that stand beside those of a session: what each of them asks for.
//!
//! Such a line is one physical line, and is read with `#` and `\`, whichever characters the text has chosen, and with each `#` within a
//! word as a character of it (`word_signs`), so that a name of a file is spelled as it is. A new line is a variant of `OwnLine`, a case
//! of `own_words` and of `own_words` in `specs/OwnLines.antt`, of `answer_lent` or `write_answer` in `editors`, and a line of the help.

ghost use Rattle.std.specs.Prelude.{◌≡◌, ◌≢◌, Ok, Err, Some, IfOk, IfErr, Result};
ghost use Rattle.coll_lex.specs.LogicalLines.{first_state};
ghost use Rattle.coll_syntax.specs.Operands.{only, id_in, read_as};
ghost use Rattle.coll_syntax.specs.declared.syntax_faults.SyntaxFault.{SyntaxFault};
ghost use Rattle.coll_syntax.specs.declared.syntax_faults.SyntaxFault.TheVariants as syntax;
ghost use Rattle.coll_edit.specs.OwnLines.{own_line as stated_line, own_of as stated_of, own_read as stated_read, own_words as stated_words};
ghost use Rattle.coll_edit.specs.OwnLines.{argued as stated_argued, if_fits as stated_fits, text_in, two_texts as stated_two, help_of};
ghost use Rattle.coll_edit.specs.declared.own_lines.OwnLine.{OwnLine};
ghost use Rattle.coll_edit.specs.declared.own_lines.OwnLine.TheVariants as own;

use crate::word_signs::with_signs;
use coll_lex::{LexFault, Lexer, Piece, TextBuf, Token};
use coll_syntax::{Id, SyntaxFault, characters, ended, id_of, is_word};
use std::alloc::Global;

/// A line that stands beside those of a session.
#[derive(Drop)]
pub enum OwnLine {
    /// `:show ID`: an entry, with what stands beside it.
    Show(Id),
    /// `:key TEXT`, where the text stands without quotes.
    Key(TextBuf),
    /// `:compare TEXT TEXT`, where a text stands without quotes.
    Compare(TextBuf, TextBuf),
    /// `:explain TEXT TEXT`: why the texts compare as they do.
    Explain(TextBuf, TextBuf),
    /// `:delta`: the statements that remain, as the text of a delta file.
    Delta,
    /// `:write FILE`: the same, into a new file.
    Write(TextBuf),
    /// `:words FILE`: a list of words in the order now.
    Words(TextBuf),
    /// `:help`: what may be typed.
    Help,
    /// `:help NUMBER`: the fault with the number, and what to do.
    HelpNumber(TextBuf),
    /// `:quit`: the end.
    Quit,
    /// Such a line whose arguments are refused.
    Wrong(SyntaxFault),
}

/// The line of `edit` that a physical line is, if it is one.
pub(crate) fn own_line(alloc: Global, line: &[u8]) -> Option<OwnLine>
    ensures { result ≢ Some (own.Wrong syntax.OutOfMemory) → result ≡ stated_line line.now }
{
    match with_signs(alloc, line) {
        Ok(line) => {
            let read = read_alone(alloc, line.as_slice());
            drop(line);
            read
        }
        Err(_) => Some(OwnLine::Wrong(SyntaxFault::OutOfMemory)),
    }
}

// The line of `edit` that a line with its signs is, if it is one.
fn read_alone(alloc: Global, line: &[u8]) -> Option<OwnLine>
    ensures { result ≢ Some (own.Wrong syntax.OutOfMemory) → result ≡ stated_read line.now }
{
    match Lexer::new(alloc) {
        Ok(mut lexer) => {
            let read = read_line(alloc, &mut lexer, line);
            drop(lexer);
            read
        }
        Err(_) => Some(OwnLine::Wrong(SyntaxFault::OutOfMemory)),
    }
}

// The line of `edit` that a line with its signs is, by a lexer that no line was handed to.
fn read_line(alloc: Global, lexer: &mut Lexer, line: &[u8]) -> Option<OwnLine>
    requires { lexer.old ≡ first_state }
    ensures { result ≢ Some (own.Wrong syntax.OutOfMemory) → result ≡ stated_read line.now }
{
    match lexer.feed(line) {
        Ok(Some(line)) => {
            let read = own_of(alloc, line.tokens.get());
            drop(line);
            read
        }
        Ok(None) => None,
        Err(LexFault::OutOfMemory) => Some(OwnLine::Wrong(SyntaxFault::OutOfMemory)),
        Err(_) => None,
    }
}

// The line of `edit` that tokens are, if they are one.
fn own_of(alloc: Global, tokens: &[Token]) -> Option<OwnLine>
    ensures { result ≢ Some (own.Wrong syntax.OutOfMemory) → result ≡ stated_of tokens.now }
{
    match tokens.split_first() {
        Some((word, arguments)) => own_words(alloc, word, arguments),
        None => None,
    }
}

// The line of `edit` with this word and these arguments, if there is one.
#[tactic(auto, unfolding(crate::specs::OwnLines::own_words))]
fn own_words(alloc: Global, word: &Token, arguments: &[Token]) -> Option<OwnLine>
    ensures { result ≢ Some (own.Wrong syntax.OutOfMemory) → result ≡ stated_words word.now arguments.now }
{
    if is_word(word, ":show") {
        return argued(show(alloc, arguments));
    }
    if is_word(word, ":key") {
        return if_fits(key(alloc, arguments));
    }
    if is_word(word, ":compare") {
        return if_fits(compare(alloc, arguments));
    }
    if is_word(word, ":explain") {
        return argued(explain(alloc, arguments));
    }
    if is_word(word, ":delta") {
        return argued(ended(OwnLine::Delta, arguments));
    }
    if is_word(word, ":write") {
        return argued(write(alloc, arguments));
    }
    if is_word(word, ":words") {
        return argued(words(alloc, arguments));
    }
    if is_word(word, ":help") {
        return argued(help(alloc, arguments));
    }
    if is_word(word, ":quit") {
        return argued(ended(OwnLine::Quit, arguments));
    }
    None
}

// A line that is `edit`'s, whatever its arguments are.
fn argued(read: Result<OwnLine, SyntaxFault>) -> Option<OwnLine>
    ensures { (stated : Result OwnLine SyntaxFault) → IfOk read (λ line. stated ≡ Ok line)
        → IfErr read (λ fault. fault ≢ syntax.OutOfMemory → stated ≡ Err fault)
        → result ≢ Some (own.Wrong syntax.OutOfMemory) → result ≡ stated_argued stated }
{
    match read {
        Ok(line) => Some(line),
        Err(fault) => Some(OwnLine::Wrong(fault)),
    }
}

// A line that is `edit`'s where its arguments fit, and else is left to the session.
fn if_fits(read: Result<OwnLine, SyntaxFault>) -> Option<OwnLine>
    ensures { (stated : Result OwnLine SyntaxFault) → IfOk read (λ line. stated ≡ Ok line)
        → IfErr read (λ fault. fault ≢ syntax.OutOfMemory → stated ≡ Err fault)
        → result ≢ Some (own.Wrong syntax.OutOfMemory) → result ≡ stated_fits stated }
{
    match read {
        Ok(line) => Some(line),
        Err(SyntaxFault::OutOfMemory) => Some(OwnLine::Wrong(SyntaxFault::OutOfMemory)),
        Err(_) => None,
    }
}

// `:show`, by its arguments.
fn show(alloc: Global, arguments: &[Token]) -> Result<OwnLine, SyntaxFault>
    ensures ok { IfOk result (λ line. read_as own.Show (only id_in arguments.now) ≡ Ok line) }
    ensures err { IfErr result (λ fault. fault ≢ syntax.OutOfMemory → read_as own.Show (only id_in arguments.now) ≡ Err fault) }
{
    let Some((argument, rest)) = arguments.split_first() else {
        return Err(SyntaxFault::MissingOperand);
    };
    match id_of(alloc, argument)? {
        Some(id) => ended(OwnLine::Show(id), rest),
        None => Err(SyntaxFault::BadOperand),
    }
}

// `:key`, by its arguments.
fn key(alloc: Global, arguments: &[Token]) -> Result<OwnLine, SyntaxFault>
    ensures ok { IfOk result (λ line. read_as own.Key (only text_in arguments.now) ≡ Ok line) }
    ensures err { IfErr result (λ fault. fault ≢ syntax.OutOfMemory → read_as own.Key (only text_in arguments.now) ≡ Err fault) }
{
    let text = only_text(alloc, arguments)?;
    Ok(OwnLine::Key(text))
}

// `:compare`, by its arguments.
fn compare(alloc: Global, arguments: &[Token]) -> Result<OwnLine, SyntaxFault>
    ensures ok { IfOk result (λ line. read_as (λ texts. own.Compare texts.0 texts.1) (stated_two arguments.now) ≡ Ok line) }
    ensures err { IfErr result (λ fault. fault ≢ syntax.OutOfMemory
        → read_as (λ texts. own.Compare texts.0 texts.1) (stated_two arguments.now) ≡ Err fault) }
{
    let (first, second) = two_texts(alloc, arguments)?;
    Ok(OwnLine::Compare(first, second))
}

// `:explain`, by its arguments.
fn explain(alloc: Global, arguments: &[Token]) -> Result<OwnLine, SyntaxFault>
    ensures ok { IfOk result (λ line. read_as (λ texts. own.Explain texts.0 texts.1) (stated_two arguments.now) ≡ Ok line) }
    ensures err { IfErr result (λ fault. fault ≢ syntax.OutOfMemory
        → read_as (λ texts. own.Explain texts.0 texts.1) (stated_two arguments.now) ≡ Err fault) }
{
    let (first, second) = two_texts(alloc, arguments)?;
    Ok(OwnLine::Explain(first, second))
}

// `:write`, by its arguments.
fn write(alloc: Global, arguments: &[Token]) -> Result<OwnLine, SyntaxFault>
    ensures ok { IfOk result (λ line. read_as own.Write (only text_in arguments.now) ≡ Ok line) }
    ensures err { IfErr result (λ fault. fault ≢ syntax.OutOfMemory → read_as own.Write (only text_in arguments.now) ≡ Err fault) }
{
    let name = only_text(alloc, arguments)?;
    Ok(OwnLine::Write(name))
}

// `:words`, by its arguments.
fn words(alloc: Global, arguments: &[Token]) -> Result<OwnLine, SyntaxFault>
    ensures ok { IfOk result (λ line. read_as own.Words (only text_in arguments.now) ≡ Ok line) }
    ensures err { IfErr result (λ fault. fault ≢ syntax.OutOfMemory → read_as own.Words (only text_in arguments.now) ≡ Err fault) }
{
    let name = only_text(alloc, arguments)?;
    Ok(OwnLine::Words(name))
}

// `:help`, by its arguments, of which there may be none.
fn help(alloc: Global, arguments: &[Token]) -> Result<OwnLine, SyntaxFault>
    ensures ok { IfOk result (λ line. help_of arguments.now ≡ Ok line) }
    ensures err { IfErr result (λ fault. fault ≢ syntax.OutOfMemory → help_of arguments.now ≡ Err fault) }
{
    if arguments.is_empty() {
        return Ok(OwnLine::Help);
    }
    let number = only_text(alloc, arguments)?;
    Ok(OwnLine::HelpNumber(number))
}

// The one argument of a line, a text.
fn only_text(alloc: Global, arguments: &[Token]) -> Result<TextBuf, SyntaxFault>
    ensures ok { IfOk result (λ line. only text_in arguments.now ≡ Ok line) }
    ensures err { IfErr result (λ fault. fault ≢ syntax.OutOfMemory → only text_in arguments.now ≡ Err fault) }
{
    let Some((argument, rest)) = arguments.split_first() else {
        return Err(SyntaxFault::MissingOperand);
    };
    let text = text_of(alloc, argument)?;
    ended(text, rest)
}

// The two arguments of a line, both texts.
fn two_texts(alloc: Global, arguments: &[Token]) -> Result<(TextBuf, TextBuf), SyntaxFault>
    ensures ok { IfOk result (λ line. stated_two arguments.now ≡ Ok line) }
    ensures err { IfErr result (λ fault. fault ≢ syntax.OutOfMemory → stated_two arguments.now ≡ Err fault) }
{
    let Some((first, later)) = arguments.split_first() else {
        return Err(SyntaxFault::MissingOperand);
    };
    let Some((second, rest)) = later.split_first() else {
        return Err(SyntaxFault::MissingOperand);
    };
    let first = text_of(alloc, first)?;
    let second = text_of(alloc, second)?;
    ended((first, second), rest)
}

// The text that an argument is: a word, a character, or a string without names.
fn text_of(alloc: Global, argument: &Token) -> Result<TextBuf, SyntaxFault>
    ensures ok { IfOk result (λ line. text_in argument.now ≡ Ok line) }
    ensures err { IfErr result (λ fault. fault ≢ syntax.OutOfMemory → text_in argument.now ≡ Err fault) }
{
    match argument {
        Token::Word(word) => {
            let text = TextBuf::copied(alloc, word.get())?;
            Ok(text)
        }
        Token::Char(c) => characters(alloc, &[Piece::Char(*c)]),
        Token::Text(pieces) => characters(alloc, pieces.get()),
        _ => Err(SyntaxFault::BadOperand),
    }
}
