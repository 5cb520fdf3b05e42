//! The commands of an edit, by what is typed for them: which one is meant, and how it is written.
//!
//! A further command is a row here.

use coll_advice::is_near;
use coll_lex::Token;

// The commands, of those that begin alike the one first that its first letter is to mean, and how each is written.
const COMMANDS: &[(&str, &str)] = &[
    (
        ":undo",
        "write :undo alone, for the last statement; :withdraw K takes back the one with the number K",
    ),
    (":redo", "write :redo alone"),
    (
        ":help",
        "write :help, alone or with the number of a refusal",
    ),
    (":history", "write :history alone"),
    (
        ":delta",
        "write :delta alone; :write FILE puts the statements into a file",
    ),
    (
        ":write",
        "write :write FILE, a name with blanks or one of ; , # in quotes, and \\< for <",
    ),
    (
        ":words",
        "write :words FILE, a name with blanks or one of ; , # in quotes, and \\< for <",
    ),
    (
        ":withdraw",
        "write :withdraw K, with a number that :history tells",
    ),
    (
        ":show",
        "write :show ID, a character or a name between < and >",
    ),
    (
        ":key",
        "write :key TEXT, a text with blanks or one of ; , # in quotes, and \\< for <",
    ),
    (
        ":compare",
        "write :compare TEXT TEXT, a text with blanks or one of ; , # in quotes, and \\< for <",
    ),
    (":check", "write :check alone"),
    (
        ":explain",
        "write :explain TEXT TEXT, a text with blanks or one of ; , # in quotes, and \\< for <",
    ),
    (":list", "write :list alone"),
    (":print", "write :print alone"),
    (":quit", "write :quit alone"),
];

// The longest word that is looked up among them.
const LONGEST_COMMAND: usize = 16;

/// How the command is written that a line begins with.
pub(crate) fn form_of(word: &Token) -> Option<&'static str> {
    let Token::Word(word) = word else {
        return None;
    };
    for (command, form) in COMMANDS {
        if *command == word.get() {
            return Some(*form);
        }
    }
    None
}

/// The command that a word with a colon is near to or begins, or that one without a colon lacks it for.
pub(crate) fn command_meant(word: &Token) -> Option<&'static str> {
    let Token::Word(word) = word else {
        return None;
    };
    if word.get().len() > LONGEST_COMMAND {
        return None;
    }
    for (command, _) in COMMANDS {
        if is_meant(command, word.get()) {
            return Some(*command);
        }
    }
    None
}

// Whether a command is meant by a word, which isn't the command.
fn is_meant(command: &str, word: &str) -> bool {
    if word.starts_with(':') {
        return command != word && (command.starts_with(word) || is_near(command, word));
    }
    match command.strip_prefix(':') {
        Some(name) => name.eq_ignore_ascii_case(word),
        None => false,
    }
}
