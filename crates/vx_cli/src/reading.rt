ghost use Rattle.std.specs.Prelude.{◌≡◌, ◌∷◌, IfOk, IfErr, IfSome, IfNone, IsErrOf, true, Some, codes, is_some};
ghost use Rattle.clap.specs.Words.{IsParsedFrom, app_of, found_of, first_of, first_value, is_simple_and_free, matches_of, rows_of};
ghost use Rattle.clap.specs.Walk.{texts};
ghost use Rattle.vx_cli.specs.Commands.{IsCommand, IsTaken, NamesValidate, is_set};
ghost use Rattle.vx_cli.specs.Faults.{Reports};

use crate::cli_fault::CliFault;
use crate::command::Command;
use crate::grammars::{run_grammar, validate_grammar};
use clap::ArgMatches;
use clap::error::ErrorKind;
use std::alloc::{AllocError, Global};
use vx_value::{Text, TextList};

/// The command that a list of words is. The words leave out the program's own name.
///
/// Where the first word is `validate`, the others are its one FILE. Every other list of words runs a pipeline: it has
/// `-c FILE` or `--config FILE`, once, and may have the flags `--once` and `--stats`, each once. The value of a long option is the next word, or
/// follows `=`; the value of a short one is the next word, or follows at once, and then one `=` in front of it is left out.
///
/// `Usage` comes exactly where the words are in no command's grammar. Want of memory comes at any words.
pub fn read_words(alloc: Global, words: &TextList) -> Result<Command, CliFault>
    ensures command { IfOk result (IsCommand words.now) }
    ensures fault { IfErr result (Reports words.now) }
{
    let words = borrowed(alloc, words.as_slice())?;
    match behind_validate(words.as_slice()) {
        Some(rest) => read_validate(alloc, rest),
        None => read_run(alloc, words.as_slice()),
    }
}

/// The words, borrowed one by one.
fn borrowed(alloc: Global, words: &[Text]) -> Result<Vec<&str>, AllocError>
    ensures { IfOk result (λ list. texts list.items ≡ words.now) }
{
    let mut list = Vec::new(alloc);
    for word in words {
        list.push(word.as_str())?;
    }
    Ok(list)
}

/// The words behind the first word `validate`. `None` exactly where that isn't the first word.
fn behind_validate<'a>(words: &'a [&'a str]) -> Option<&'a [&'a str]>
    ensures some { IfSome result (λ rest. NamesValidate (texts words.entry.now) (texts rest.now)) }
    ensures none { IfNone result ((rest : _) → NamesValidate (texts words.entry.now) rest → ⊥) }
{
    let (first, rest) = words.split_first()?;
    if *first == "validate" {
        Some(rest)
    } else {
        None
    }
}

/// The command that runs a pipeline, by its words.
fn read_run<'a>(alloc: Global, words: &'a [&'a str]) -> Result<Command, CliFault>
    requires { (rest : _) → NamesValidate (texts words.now) rest → ⊥ }
    ensures command { IfOk result (IsCommand (texts words.entry.now)) }
    ensures fault { IfErr result (Reports (texts words.entry.now)) }
{
    let matches = matches_of(run_grammar(alloc)?, words)?;
    let config = value_of(alloc, &matches, "config")?;
    let once = is_set(&matches, "once");
    let stats = is_set(&matches, "stats");
    Ok(Command::Run {
        config,
        once,
        stats,
    })
}

/// The command that judges a configuration, by its words.
fn read_validate<'a>(alloc: Global, words: &'a [&'a str]) -> Result<Command, CliFault>
    ensures command { IfOk result (IsCommand (codes "validate" ∷ texts words.entry.now)) }
    ensures fault { IfErr result (Reports (codes "validate" ∷ texts words.entry.now)) }
{
    let matches = matches_of(validate_grammar(alloc)?, words)?;
    let path = value_of(alloc, &matches, "path")?;
    Ok(Command::Validate { path })
}

/// What a command reads in some words.
fn matches_of<'a>(
    command: clap::Command<'a>,
    words: &'a [&'a str],
) -> Result<ArgMatches<'a>, CliFault>
    requires { is_simple_and_free (app_of command) ≡ true }
    ensures taken { IfOk result (λ _. IsTaken (app_of command.entry) (texts words.entry.now)) }
    ensures parsed { IfOk result (IsParsedFrom command.entry) }
    ensures rows { IfOk result (λ matches.
        rows_of (found_of matches) ≡ matches_of (app_of command.entry) (texts words.entry.now)) }
    ensures usage { IsErrOf result CliFault.Usage →
        IsTaken (app_of command.entry) (texts words.entry.now) → ⊥ }
{
    match command.try_get_matches_from(words) {
        Ok(matches) => Ok(matches),
        Err(error) => Err(fault_of(error.kind())),
    }
}

/// The fault for a kind of error.
fn fault_of(kind: ErrorKind) -> CliFault
    ensures { result ≡ CliFault.Usage → kind ≡ ErrorKind.OutOfMemory → ⊥ }
{
    match kind {
        ErrorKind::OutOfMemory => CliFault::WantOfMemory,
        _ => CliFault::Usage,
    }
}

/// The value of an argument that has one.
fn value_of(alloc: Global, matches: &ArgMatches<'_>, name: &str) -> Result<Text, CliFault>
    requires { is_some (first_value (found_of matches.now) name.now) ≡ true }
    ensures value { IfOk result
        (λ value. first_of name.now (rows_of (found_of matches.now)) ≡ Some value) }
    ensures fault { IfErr result (λ fault. fault ≡ CliFault.WantOfMemory) }
{
    match matches.get_str(name) {
        Some(value) => Ok(Text::copy_of(alloc, value)?),
        None => unreachable!(),
    }
}

/// Whether a flag is given.
fn is_set(matches: &ArgMatches<'_>, name: &str) -> bool
    ensures { result ≡ is_set (first_of name.now (rows_of (found_of matches.now))) }
{
    match matches.get_str(name) {
        Some(value) => value == "true",
        None => false,
    }
}
