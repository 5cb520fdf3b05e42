//! The commands of a session: the words that begin with `:`, and their arguments.
//!
//! A command is `command_of` of `specs/Commands.antt`, by its word and its arguments. A word that isn't known comes before wrong
//! arguments, and of these one that is missing comes first, then one of the wrong kind, then one that is left over. The
//! texts of a command are copies, in new memory; a command without texts takes none. A number is a numeral, of which
//! `numerals` knows.

ghost use Rattle.std.specs.Prelude.{◌≡◌, ◌≢◌, Ok, Err, IsTrue, IfOk, IfErr, chars};
ghost use Rattle.coll_syntax.specs.Operands.{ended as spelled_end, only};
ghost use Rattle.coll_syntax.specs.declared.syntax_faults.SyntaxFault.TheVariants as syntax;
ghost use Rattle.coll_requests.specs.Commands.{is_command as spells_command, is_command_word as spells_command_word};
ghost use Rattle.coll_requests.specs.Commands.{command_of as spelled_command, argued, key_of, compare_of, withdraw_of, text_in};
ghost use Rattle.coll_requests.specs.Commands.{two_texts as spelled_two, command_takes_memory, begins_with_string, is_string};
ghost use Rattle.coll_requests.specs.declared.request_faults.RequestFault.TheVariants as fault;

use crate::numerals::only_number;
use crate::request_faults::RequestFault;
use crate::session_lines::Command;
use coll_lex::{TextBuf, Token};
use coll_syntax::{SyntaxFault, characters, ended, is_word};
use std::alloc::Global;

/// Whether a line is a command, by its first token.
pub(crate) fn is_command(first: &Token) -> bool
    ensures { result ≡ spells_command first.now }
{
    match first {
        Token::Word(word) => is_command_word(word.get()),
        _ => false,
    }
}

// Whether a text has more than one character, of which the first is `:`.
fn is_command_word(text: &str) -> bool
    ensures { result ≡ spells_command_word (chars text.now) }
{
    let mut rest = text.chars();
    let Some(first) = rest.next() else {
        return false;
    };
    match rest.next() {
        Some(_) => first == ':',
        None => false,
    }
}

/// The command of a line, by its word and its arguments, or why it is none.
#[tactic(auto, unfolding(crate::specs::Commands::command_of, crate::specs::Commands::command_takes_memory))]
pub(crate) fn command_of(
    alloc: Global,
    word: &Token,
    arguments: &[Token],
) -> Result<Command, RequestFault>
    ensures ok { IfOk result (λ command. spelled_command word.now arguments.now ≡ Ok command) }
    ensures err { IfErr result (λ refused. refused ≢ fault.Syntax syntax.OutOfMemory → spelled_command word.now arguments.now
        ≡ Err refused) }
    ensures memory { IfErr result (λ refused. refused ≡ fault.Syntax syntax.OutOfMemory
        → IsTrue (command_takes_memory word.now arguments.now)) }
{
    if is_word(word, ":undo") {
        return alone(Command::Undo, arguments);
    }
    if is_word(word, ":redo") {
        return alone(Command::Redo, arguments);
    }
    if is_word(word, ":list") {
        return alone(Command::List, arguments);
    }
    if is_word(word, ":print") {
        return alone(Command::Print, arguments);
    }
    if is_word(word, ":key") {
        return key(alloc, arguments);
    }
    if is_word(word, ":compare") {
        return compare(alloc, arguments);
    }
    if is_word(word, ":history") {
        return alone(Command::History, arguments);
    }
    if is_word(word, ":check") {
        return alone(Command::Check, arguments);
    }
    if is_word(word, ":withdraw") {
        return withdraw(arguments);
    }
    Err(RequestFault::UnknownCommand)
}

// A command that takes no arguments.
fn alone(command: Command, arguments: &[Token]) -> Result<Command, RequestFault>
    ensures { result ≡ argued (spelled_end command arguments.now) }
{
    match ended(command, arguments) {
        Ok(command) => Ok(command),
        Err(fault) => Err(RequestFault::Syntax(fault)),
    }
}

// `:key`, by its arguments.
fn key(alloc: Global, arguments: &[Token]) -> Result<Command, RequestFault>
    ensures ok { IfOk result (λ command. argued (key_of arguments.now) ≡ Ok command) }
    ensures err { IfErr result (λ refused. refused ≢ fault.Syntax syntax.OutOfMemory → argued (key_of arguments.now) ≡ Err refused) }
    ensures memory { IfErr result (λ refused. refused ≡ fault.Syntax syntax.OutOfMemory → IsTrue (begins_with_string arguments.now)) }
{
    match only_text(alloc, arguments) {
        Ok(text) => Ok(Command::Key(text)),
        Err(fault) => Err(RequestFault::Syntax(fault)),
    }
}

// `:compare`, by its arguments.
fn compare(alloc: Global, arguments: &[Token]) -> Result<Command, RequestFault>
    ensures ok { IfOk result (λ command. argued (compare_of arguments.now) ≡ Ok command) }
    ensures err { IfErr result (λ refused. refused ≢ fault.Syntax syntax.OutOfMemory → argued (compare_of arguments.now) ≡ Err refused) }
    ensures memory { IfErr result (λ refused. refused ≡ fault.Syntax syntax.OutOfMemory → IsTrue (begins_with_string arguments.now)) }
{
    match two_texts(alloc, arguments) {
        Ok((first, second)) => Ok(Command::Compare(first, second)),
        Err(fault) => Err(RequestFault::Syntax(fault)),
    }
}

// `:withdraw`, by its arguments.
fn withdraw(arguments: &[Token]) -> Result<Command, RequestFault>
    ensures command { result ≡ argued (withdraw_of arguments.now) }
    ensures spared { IfErr result (λ refused. refused ≢ fault.Syntax syntax.OutOfMemory) }
{
    match only_number(arguments) {
        Ok(number) => Ok(Command::Withdraw(number)),
        Err(fault) => Err(RequestFault::Syntax(fault)),
    }
}

// The one argument of a command, a text.
fn only_text(alloc: Global, arguments: &[Token]) -> Result<TextBuf, SyntaxFault>
    ensures ok { IfOk result (λ text. only text_in arguments.now ≡ Ok text) }
    ensures err { IfErr result (λ refused. refused ≢ syntax.OutOfMemory → only text_in arguments.now ≡ Err refused) }
    ensures memory { IfErr result (λ refused. refused ≡ syntax.OutOfMemory → IsTrue (begins_with_string arguments.now)) }
{
    let Some((argument, rest)) = arguments.split_first() else {
        return Err(SyntaxFault::MissingOperand);
    };
    let text = text_of(alloc, argument)?;
    ended(text, rest)
}

// The two arguments of a command, both texts. One that is missing comes before one of the wrong kind.
fn two_texts(alloc: Global, arguments: &[Token]) -> Result<(TextBuf, TextBuf), SyntaxFault>
    ensures ok { IfOk result (λ texts. spelled_two arguments.now ≡ Ok (texts.0, texts.1)) }
    ensures err { IfErr result (λ refused. refused ≢ syntax.OutOfMemory → spelled_two arguments.now ≡ Err refused) }
    ensures memory { IfErr result (λ refused. refused ≡ syntax.OutOfMemory → IsTrue (begins_with_string arguments.now)) }
{
    let Some((first, later)) = arguments.split_first() else {
        return Err(SyntaxFault::MissingOperand);
    };
    let Some((second, rest)) = later.split_first() else {
        return Err(SyntaxFault::MissingOperand);
    };
    let first = text_of(alloc, first)?;
    let second = text_of(alloc, second)?;
    ended((first, second), rest)
}

// The characters of an argument that is a string without names.
fn text_of(alloc: Global, argument: &Token) -> Result<TextBuf, SyntaxFault>
    ensures ok { IfOk result (λ text. text_in argument.now ≡ Ok text) }
    ensures err { IfErr result (λ refused. refused ≢ syntax.OutOfMemory → text_in argument.now ≡ Err refused) }
    ensures memory { IfErr result (λ refused. refused ≡ syntax.OutOfMemory → IsTrue (is_string argument.now)) }
{
    let Token::Text(pieces) = argument else {
        return Err(SyntaxFault::BadOperand);
    };
    characters(alloc, pieces.get())
}
