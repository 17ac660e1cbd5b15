ghost use Rattle.std.specs.Prelude.{◌≡◌, [], IfOk, codes, false};
ghost use Rattle.clap.specs.Words.{app_of, rule_of};
ghost use Rattle.vx_cli.specs.Building.{GivesValue, IsBare, IsNamed, IsRequired};
ghost use Rattle.vx_cli.specs.Grammars.{config_option, flag, grammar_of, path_word, required_value, run_grammar, validate_grammar};

use clap::{Arg, ArgAction, Command};
use std::alloc::{AllocError, Global};

/// The command that runs a pipeline.
pub fn run_grammar<'a>(alloc: Global) -> Result<Command<'a>, AllocError>
    ensures grammar { IfOk result (λ command. app_of command ≡ run_grammar) }
    ensures value { IfOk result (λ command. GivesValue command (codes "config")) }
{
    let command = grammar(alloc, "run");
    command
        .arg(config_option(alloc))?
        .arg(flag(alloc, "once"))?
        .arg(flag(alloc, "stats"))
}

/// The command that judges a configuration.
pub fn validate_grammar<'a>(alloc: Global) -> Result<Command<'a>, AllocError>
    ensures grammar { IfOk result (λ command. app_of command ≡ validate_grammar) }
    ensures value { IfOk result (λ command. GivesValue command (codes "path")) }
{
    let command = grammar(alloc, "validate");
    command.arg(required_value(alloc, "path"))
}

/// A command without arguments, and without the words for help and version.
fn grammar<'a>(alloc: Global, name: &'a str) -> Command<'a>
    ensures grammar { app_of result ≡ grammar_of name.entry.now [] }
    ensures bare { IsBare result }
{
    Command::new(alloc, name)
        .no_binary_name(true)
        .disable_help_flag(true)
        .disable_version_flag(true)
}

/// The option `-c FILE`, `--config FILE`.
fn config_option<'a>(alloc: Global) -> Arg<'a>
    ensures rule { rule_of result ≡ config_option }
    ensures named { IsNamed (codes "config") result }
    ensures required { IsRequired result }
{
    required_value(alloc, "config").short('c').long("config")
}

/// A flag, by its long name.
fn flag<'a>(alloc: Global, name: &'a str) -> Arg<'a>
    ensures rule { rule_of result ≡ flag name.entry.now }
    ensures named { IsNamed name.entry.now result }
{
    Arg::new(alloc, name).long(name).action(ArgAction::SetTrue)
}

/// An argument with one value, which has to be given.
fn required_value<'a>(alloc: Global, name: &'a str) -> Arg<'a>
    ensures rule { rule_of result ≡ required_value name.entry.now }
    ensures named { IsNamed name.entry.now result }
    ensures required { IsRequired result }
{
    Arg::new(alloc, name).required(true).action(ArgAction::Set)
}
