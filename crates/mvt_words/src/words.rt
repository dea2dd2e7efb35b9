//! The words of the command line, as clap reads them.
ghost use Rattle.std.specs.Prelude.{◌≡◌, ◌≢◌, [], false, codes, map, string_bytes, IfOk, IfErr, IsOkAnd, OnOk};
ghost use Rattle.clap.specs.declared.builder.command.Command.TheViews.{out-Command as fields_of};
ghost use Rattle.clap.specs.Words.{app_of, found_of, new_app, rows_of, subcommand_rows_of};
ghost use Rattle.mvt_words.specs.Words.{mvt, bare_mvt, extract_app, files_app, has_flag, task_in, task_named as named, task_of_matches, task_of_subcommand, texts_given, faults_in, files_in, files_named as named_files, files_of_matches, files_of_subcommand};
ghost use Rattle.mvt_words.specs.Refused as spec;
ghost use Rattle.mvt_words.specs.Words as words_spec;
ghost use Rattle.mvt_words.specs.Refused.{EndsWith, IsUsage, advice_on, usage_text};

use clap::error::ErrorKind;
use clap::{Arg, ArgAction, ArgMatches, Command, Error};
use mvt_places::shell_word;
use mvt_tasks::{Names, Task};
use std::alloc::{AllocError, Global};
use std::rt::Env;
use std::{env, io};

/// What a line asks for, and the files that it names, which are then checked instead of the input.
#[derive(Debug, Drop)]
pub struct Asked {
    pub task: Task,
    pub files: Names,
}

/// Why a line isn't run.
#[derive(Debug, Drop)]
pub enum Refusal {
    /// The words are refused; the text says why, or is the help that they ask for.
    Usage(String),
    Memory,
}

impl From<AllocError> for Refusal {
    ghost use Rattle.mvt_words.specs.declared.words.Refusal.TheVariants.{Memory};

    ghost from_gives = { λ _ refusal. refusal ≡ Memory };

    fn from(_: AllocError) -> Self {
        Refusal::Memory
    }
}

/// The words that the program was started with.
///
/// # Errors
///
/// `Usage` for a word that isn't UTF-8; `Memory`.
pub fn arguments(rt: &(impl Env + AllocGlobal)) -> Result<Vec<String>, Refusal>
    ensures { IfErr result (λ refusal. IsUsage refusal
        → usage_text refusal ≡ codes "error: an argument isn't UTF-8\n") }
{
    match env::args(rt) {
        Ok(words) => Ok(words.collect(rt.alloc())?),
        Err(error) if error.kind() == io::ErrorKind::InvalidData => {
            let text = String::from_str(rt.alloc(), "error: an argument isn't UTF-8\n")?;
            Err(Refusal::Usage(text))
        }
        Err(_) => Err(Refusal::Memory),
    }
}

/// The command `mvt` with its subcommands.
fn mvt_command<'a>(alloc: Global) -> Result<Command<'a>, AllocError>
    ensures { IfOk result (λ command. app_of command ≡ mvt) }
{
    let fields = bare_command(alloc, "fields", "Lists the top-level fields of the input");
    let show = bare_command(alloc, "show", "Shows the tile as JSON");
    let draw = bare_command(alloc, "draw", "Draws the tile as a picture in SVG");
    let check = files_command(
        alloc,
        "check",
        "Checks the tile, or each of the files, and reports on it (the default)",
        "The name of a file to check in place of the input",
    )?;
    let explain = files_command(
        alloc,
        "explain",
        "Checks the tile, or each of the files, and says where and why it is refused",
        "The name of a file to explain in place of the input",
    )?;
    let lint = files_command(
        alloc,
        "lint",
        "Says what viewers stumble over in the tile, or in each of the files",
        "The name of a file to lint in place of the input",
    )?;
    let rewrite = bare_command(alloc, "rewrite", "Writes the tile in its canonical form");
    let mend = bare_command(
        alloc,
        "mend",
        "Writes the tile in its canonical form, with repeated points and turned rings mended",
    );
    let extract = extract_command(alloc)?;
    flags_command(alloc)?
        .subcommand(fields)?
        .subcommand(show)?
        .subcommand(draw)?
        .subcommand(check)?
        .subcommand(explain)?
        .subcommand(lint)?
        .subcommand(rewrite)?
        .subcommand(mend)?
        .subcommand(extract)
}

/// The command `mvt` without its subcommands.
fn flags_command<'a>(alloc: Global) -> Result<Command<'a>, AllocError>
    ensures { IfOk result (λ command. app_of command ≡ bare_mvt) }
{
    let version = Arg::new(alloc, "version")
        .long("version")
        .short('V')
        .action(ArgAction::SetTrue)
        .help("Print version");
    Command::new(alloc, "mvt")
        .about("Reads a Mapbox Vector Tile from standard input")
        .arg(version)
}

/// A subcommand that takes no words of its own.
fn bare_command<'a>(alloc: Global, name: &'a str, about: &'a str) -> Command<'a>
    ensures shape { app_of result ≡ new_app name.entry.now }
    ensures local { (fields_of result).has_globals ≡ false }
{
    Command::new(alloc, name).about(about)
}

/// A subcommand that takes the names of files, by its name.
fn files_command<'a>(
    alloc: Global,
    name: &'a str,
    about: &'a str,
    help: &'a str,
) -> Result<Command<'a>, AllocError>
    ensures shape { IfOk result (λ command. app_of command ≡ files_app name.entry.now) }
    ensures local { IfOk result (λ command. (fields_of command).has_globals ≡ false) }
{
    let files = Arg::new(alloc, "file")
        .action(ArgAction::Append)
        .num_args(1..)
        .help(help);
    Command::new(alloc, name).about(about).arg(files)
}

/// The subcommand `extract`, which takes one name or more.
fn extract_command<'a>(alloc: Global) -> Result<Command<'a>, AllocError>
    ensures shape { IfOk result (λ command. app_of command ≡ extract_app) }
    ensures local { IfOk result (λ command. (fields_of command).has_globals ≡ false) }
{
    let names = Arg::new(alloc, "name")
        .action(ArgAction::Append)
        .num_args(1..)
        .required(true)
        .help("The name of a layer");
    Command::new(alloc, "extract")
        .about("Writes the named layers in their canonical form")
        .arg(names)
}

/// The refusal for an error of clap's, by its kind and its text, for which memory may be wanting.
fn refusal_of(kind: ErrorKind, text: Result<String, AllocError>) -> Refusal
    ensures usage { IsUsage result → kind ≢ ErrorKind.OutOfMemory }
    ensures printed { kind ≢ ErrorKind.OutOfMemory
        → IfOk text (λ text. result ≡ Refusal.Usage text) }
    ensures text { IsUsage result → IsOkAnd text (λ text. result ≡ Refusal.Usage text) }
{
    if kind == ErrorKind::OutOfMemory {
        return Refusal::Memory;
    }
    match text {
        Ok(text) => Refusal::Usage(text),
        Err(AllocError) => Refusal::Memory,
    }
}

/// What the words ask for; the first word is the program's name. An empty list of words, and a line
/// without a subcommand, ask for a check.
///
/// # Errors
///
/// `Usage` for words that are refused or ask for help, with what is to be printed; `Memory`.
pub fn read_words(alloc: Global, words: &[String]) -> Result<Asked, Refusal>
    ensures task { IfOk result (λ asked. asked.task ≡ task_in (map string_bytes words.now)) }
    ensures files { IfOk result (λ asked. asked.files ≡ files_in (map string_bytes words.now)) }
    ensures ok { OnOk result (faults_in (map string_bytes words.now) ≡ []) }
    ensures usage { IfErr result (λ refusal. IsUsage refusal
        → faults_in (map string_bytes words.now) ≢ []) }
    ensures advice { IfErr result (λ refusal. IsUsage refusal
        → EndsWith (advice_on (map string_bytes words.now)) (usage_text refusal)) }
{
    if words.is_empty() {
        let files = Names::new(Vec::new(alloc));
        let task = Task::Check;
        return Ok(Asked { task, files });
    }
    match mvt_command(alloc)?.try_get_matches_from(words) {
        Ok(matches) => Ok(read_matches(alloc, &matches)?),
        Err(error) => Err(refusal_of(error.kind(), told(alloc, &error, words))),
    }
}

/// What clap says of words that it refuses, and below it what was perhaps meant.
fn told(alloc: Global, error: &Error, words: &[String]) -> Result<String, AllocError>
    ensures { IfOk result (λ text. EndsWith (advice_on (map string_bytes words.now))
        (string_bytes text)) }
{
    let mut text = error.to_string(alloc)?;
    let advice = advice(alloc, words)?;
    text.push_str(advice.as_str())?;
    Ok(text)
}

/// What was perhaps meant, in a line: a file in the place of a command is to be checked.
fn advice(alloc: Global, words: &[String]) -> Result<String, AllocError>
    ensures { IfOk result (λ text. string_bytes text ≡ advice_on (map string_bytes words.now)) }
{
    match words {
        [_, word, ..] => advice_to(alloc, word.as_str()),
        _ => Ok(String::new(alloc)),
    }
}

/// What was perhaps meant by the word in the place of a command.
fn advice_to(alloc: Global, word: &str) -> Result<String, AllocError>
    ensures { IfOk result (λ text. string_bytes text ≡ spec.advice_to word.now) }
{
    if is_file_name(word.as_bytes()) {
        let word = shell_word(alloc, word)?;
        format!(in alloc; "\ndid you mean: mvt check {word}\n")
    } else {
        Ok(String::new(alloc))
    }
}

/// Whether a word looks like the name of a file: it has a dot or a slash, and no hyphen before it.
fn is_file_name(word: &[u8]) -> bool
    ensures { result ≡ spec.is_file_name word.now }
{
    !word.starts_with(b"-") && (word.contains(&b'.') || word.contains(&b'/'))
}

/// What clap's matches ask for.
fn read_matches(alloc: Global, matches: &ArgMatches<'_>) -> Result<Asked, AllocError>
    ensures task { IfOk result (λ asked. asked.task ≡ task_of_matches
        (rows_of (found_of matches.now)) (subcommand_rows_of matches.now)) }
    ensures files { IfOk result (λ asked. asked.files ≡ files_of_matches
        (rows_of (found_of matches.now)) (subcommand_rows_of matches.now)) }
{
    if has_version(matches) {
        return Ok(Asked {
            task: Task::Version,
            files: Names::new(Vec::new(alloc)),
        });
    }
    Ok(Asked {
        task: task_of(alloc, matches)?,
        files: files_of(alloc, matches)?,
    })
}

/// Whether the version is asked for.
fn has_version(matches: &ArgMatches<'_>) -> bool
    ensures { result ≡ has_flag (codes "version") (rows_of (found_of matches.now)) }
{
    match matches.get_strs("version") {
        Some(texts) => is_true(texts),
        None => false,
    }
}

/// Whether a flag was given, by its texts.
fn is_true(texts: &[&str]) -> bool
    ensures { result ≡ words_spec.is_true (map (λ text. text.now) texts.now) }
{
    match texts {
        [text] => *text == "true",
        _ => false,
    }
}

/// The task that clap's matches tell.
fn task_of(alloc: Global, matches: &ArgMatches<'_>) -> Result<Task, AllocError>
    ensures { IfOk result (λ task. task ≡ task_of_subcommand (subcommand_rows_of matches.now)) }
{
    match matches.subcommand() {
        Some((name, given)) => task_named(alloc, name, given),
        None => Ok(Task::Check),
    }
}

/// The task of a subcommand, which was given these words.
fn task_named(alloc: Global, name: &str, given: &ArgMatches<'_>) -> Result<Task, AllocError>
    ensures { IfOk result (λ task. task ≡ named name.now (rows_of (found_of given.now))) }
{
    match name {
        "fields" => Ok(Task::Fields),
        "show" => Ok(Task::Show),
        "draw" => Ok(Task::Draw),
        "explain" => Ok(Task::Explain),
        "lint" => Ok(Task::Lint),
        "rewrite" => Ok(Task::Rewrite),
        "mend" => Ok(Task::Mend),
        "extract" => Ok(Task::Extract(texts_of(alloc, given, "name")?)),
        _ => Ok(Task::Check),
    }
}

/// The files that clap's matches tell.
fn files_of(alloc: Global, matches: &ArgMatches<'_>) -> Result<Names, AllocError>
    ensures { IfOk result (λ files. files ≡ files_of_subcommand (subcommand_rows_of matches.now)) }
{
    match matches.subcommand() {
        Some((name, given)) => files_named(alloc, name, given),
        None => Ok(Names::new(Vec::new(alloc))),
    }
}

/// The files of a subcommand, which was given these words.
fn files_named(alloc: Global, name: &str, given: &ArgMatches<'_>) -> Result<Names, AllocError>
    ensures { IfOk result (λ files. files ≡ named_files name.now (rows_of (found_of given.now))) }
{
    match name {
        "check" => texts_of(alloc, given, "file"),
        "explain" => texts_of(alloc, given, "file"),
        "lint" => texts_of(alloc, given, "file"),
        _ => Ok(Names::new(Vec::new(alloc))),
    }
}

/// The texts that a subcommand was given under a key.
fn texts_of(alloc: Global, matches: &ArgMatches<'_>, key: &str) -> Result<Names, AllocError>
    ensures { IfOk result (λ names. names ≡ texts_given key.now (rows_of (found_of matches.now))) }
{
    match matches.get_strs(key) {
        Some(texts) => copied(alloc, texts),
        None => Ok(Names::new(Vec::new(alloc))),
    }
}

fn copied(alloc: Global, texts: &[&str]) -> Result<Names, AllocError>
    ensures { IfOk result (λ names. names ≡ map (λ text. text.now) texts.now) }
{
    let mut names = Vec::new(alloc);
    for text in texts {
        names.push(String::from_str(alloc, text)?)?;
    }
    Ok(Names::new(names))
}
