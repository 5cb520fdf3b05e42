//! The words of a command line are read, and come to a task and to the names of files; or to help, to the version, or to a fault.

ghost use Rattle.std.specs.Prelude.{◌≡◌, ◌<◌, Bool, true, Option, map, string_bytes, vec_len, IfOk, IfErr, IfSome};
ghost use Rattle.clap.specs.Words.{Text, app_of, kind_of, subcommand_name_of, takes};
ghost use Rattle.coll_command_line.specs.CommandLine.{command_line};
ghost use Rattle.coll_command_line.specs.Reading.{Asks, Says, named_by};

use crate::arguments::{
    DELTA, FIRST, NAME, OTHER, SECOND, SOURCE, TABLE, TEXT, VERSION, WORDS, command,
};
use crate::subcommands::Subcommand;
use crate::tasks::{Task, task_of};
use clap::error::ErrorKind;
use clap::{ArgMatches, Command};
use std::alloc::{AllocError, Global};

/// What the words of a command line ask for.
#[derive(Drop)]
pub struct Asked<'a> {
    /// What is done with the table, or with the source.
    pub task: Task,
    /// The names of the files: that of the table, if one is read, and then those of the delta files, in their order, and of the
    /// words, of the source, or of the other table.
    pub files: Vec<&'a str>,
}

/// What the words of a command line come to where they ask for no work on a table.
#[derive(Drop)]
pub enum Unasked {
    /// Help was asked for, or the words aren't those of a subcommand. The text is `clap`'s.
    Told(clap::Error),
    /// The version was asked for.
    Version,
    /// Memory was refused while the words were read.
    OutOfMemory,
}

/// Reads the words of a command line, of which the first is the program's name.
pub fn read_command_line<'a>(alloc: Global, words: &'a [String]) -> Result<Asked<'a>, Unasked>
    ensures task { IfOk result (λ request. Asks (named_by (map string_bytes words.now)) request.task) }
    ensures files { IfOk result (λ request. 0 < vec_len request.files) }
    ensures unasked { IfErr result (Says (takes command_line (map string_bytes words.now)) (named_by (map string_bytes words.now))) }
{
    match command(alloc) {
        Ok(mut command) => read_by(alloc, &mut command, words),
        Err(_) => Err(Unasked::OutOfMemory),
    }
}

// Reads words by what may stand on a command line.
fn read_by<'a>(
    alloc: Global,
    command: &mut Command<'a>,
    words: &'a [String],
) -> Result<Asked<'a>, Unasked>
    ensures task { app_of command.old ≡ command_line
        → IfOk result (λ request. Asks (named_by (map string_bytes words.now)) request.task) }
    ensures files { IfOk result (λ request. 0 < vec_len request.files) }
    ensures unasked { app_of command.old ≡ command_line
        → IfErr result (Says (takes command_line (map string_bytes words.now)) (named_by (map string_bytes words.now))) }
{
    match command.try_get_matches_from_mut(words) {
        Ok(matches) => asked_for(alloc, command, &matches),
        Err(error) => Err(refused(error)),
    }
}

// What words come to that were refused.
fn refused(error: clap::Error) -> Unasked
    ensures { (passes : Bool) (name : Option Text) → (passes ≡ true → kind_of error ≡ ErrorKind.OutOfMemory) → Says passes name result }
{
    if error.kind() == ErrorKind::OutOfMemory {
        Unasked::OutOfMemory
    } else {
        Unasked::Told(error)
    }
}

// What the words that were found ask for.
fn asked_for<'a>(
    alloc: Global,
    command: &mut Command<'a>,
    matches: &ArgMatches<'a>,
) -> Result<Asked<'a>, Unasked>
    ensures task { IfOk result (λ request. Asks (subcommand_name_of matches.now) request.task) }
    ensures files { IfOk result (λ request. 0 < vec_len request.files) }
    ensures unasked { IfErr result (Says true (subcommand_name_of matches.now)) }
{
    match request_of(alloc, matches) {
        Ok(Some(request)) => Ok(request),
        Ok(None) => Err(no_request(command, matches)),
        Err(_) => Err(Unasked::OutOfMemory),
    }
}

// What words come to that ask for no work on a table.
fn no_request<'a>(command: &mut Command<'a>, matches: &ArgMatches<'a>) -> Unasked
    ensures { Says true (subcommand_name_of matches.now) result }
{
    match matches.subcommand() {
        Some((VERSION, _)) => Unasked::Version,
        _ => no_subcommand(command),
    }
}

// What is told where no subcommand is named.
fn no_subcommand<'a>(command: &mut Command<'a>) -> Unasked
    ensures { (name : Option Text) → Says true name result }
{
    let text = "a subcommand and its words are wanted";
    match command.error(ErrorKind::MissingSubcommand, text) {
        Ok(error) => Unasked::Told(error),
        Err(_) => Unasked::OutOfMemory,
    }
}

// What the words that were found ask for; nothing where a word is missing, which `command` rules out.
fn request_of<'a>(alloc: Global, matches: &ArgMatches<'a>) -> Result<Option<Asked<'a>>, AllocError>
    ensures task { IfOk result (λ asked. IfSome asked (λ request. Asks (subcommand_name_of matches.now) request.task)) }
    ensures files { IfOk result (λ asked. IfSome asked (λ request. 0 < vec_len request.files)) }
{
    let Some((name, found)) = matches.subcommand() else {
        return Ok(None);
    };
    let (Some(subcommand), Some(table)) = (Subcommand::named(name), found.get_str(TABLE)) else {
        return Ok(None);
    };
    match task_of(alloc, subcommand, texts_of(alloc, found)?.as_slice())? {
        Some(task) => request_on(task, files_of(alloc, table, found)),
        None => Ok(None),
    }
}

// What is done with a table, and with which files, if there was memory for their names.
fn request_on<'a>(
    task: Task,
    named: Result<Vec<&'a str>, AllocError>,
) -> Result<Option<Asked<'a>>, AllocError>
    requires { IfOk named (λ files. 0 < vec_len files) }
    ensures task { IfOk result (λ asked. IfSome asked (λ request. request.task ≡ task)) }
    ensures files { IfOk result (λ asked. IfSome asked (λ request. 0 < vec_len request.files)) }
{
    match named {
        Ok(files) => Ok(Some(Asked { task, files })),
        Err(refused) => Err(refused),
    }
}

// The names of the files: that of the table or of what stands in its place, and then those of the delta files, of the words, of the
// source, or of the other table.
fn files_of<'a>(
    alloc: Global,
    table: &'a str,
    found: &ArgMatches<'a>,
) -> Result<Vec<&'a str>, AllocError>
    ensures { IfOk result (λ files. 0 < vec_len files) }
{
    let mut files = Vec::new(alloc);
    files.push(table)?;
    for name in [DELTA, WORDS, SOURCE, OTHER] {
        files.extend_from_slice(found.get_strs(name).unwrap_or(&[]))?;
    }
    Ok(files)
}

// The texts that were given to a subcommand.
fn texts_of<'a>(alloc: Global, found: &ArgMatches<'a>) -> Result<Vec<&'a str>, AllocError> {
    let mut texts = Vec::new(alloc);
    for name in [TEXT, FIRST, SECOND, NAME] {
        texts.extend_from_slice(found.get_strs(name).unwrap_or(&[]))?;
    }
    Ok(texts)
}
