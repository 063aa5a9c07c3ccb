// The command line, as it is described to `clap`: one function for each kind of argument, and one for each command.
ghost use Rattle.std.specs.Prelude.{◌≡◌, IfOk, false};
ghost use Rattle.clap.specs.Words.{app_of, rule_of, with_rule, with_subcommand};
ghost use Rattle.clap.specs.declared.Command.TheViews.{out-Command as fields_of};
ghost use Rattle.g4_words.specs.App.{atn_app, base_app, check_app, flag_rule, g4_app, needed_rule, option_rule, parse_app, with_flags, with_library, word_rule, words_rule};

use clap::{Arg, ArgAction, Command};
use std::alloc::{AllocError, Global};

/// An option with one value, as `-g VALUE`.
fn option<'a>(alloc: Global, id: &'a str, short: char) -> Arg<'a>
    ensures rule { rule_of result ≡ option_rule id.entry.now short }
    ensures local { result.global ≡ false }
{
    Arg::new(alloc, id).short(short).action(ArgAction::Set)
}

/// A flag, as `--NAME`.
fn flag<'a>(alloc: Global, name: &'a str) -> Arg<'a>
    ensures rule { rule_of result ≡ flag_rule name.entry.now }
    ensures local { result.global ≡ false }
{
    Arg::new(alloc, name).long(name).action(ArgAction::SetTrue)
}

/// One word in its place.
fn word<'a>(alloc: Global, id: &'a str) -> Arg<'a>
    ensures rule { rule_of result ≡ word_rule id.entry.now }
    ensures local { result.global ≡ false }
{
    Arg::new(alloc, id).action(ArgAction::Set)
}

/// All words that are left.
fn words<'a>(alloc: Global, id: &'a str) -> Arg<'a>
    ensures rule { rule_of result ≡ words_rule id.entry.now }
    ensures local { result.global ≡ false }
{
    Arg::new(alloc, id).action(ArgAction::Append)
}

/// The argument, which is needed.
fn needed<'a>(arg: Arg<'a>) -> Arg<'a>
    requires { arg.global ≡ false }
    ensures rule { rule_of result ≡ needed_rule (rule_of arg.entry) }
    ensures local { result.global ≡ false }
{
    arg.required(true)
}

/// The command with one argument more.
fn with_arg<'a>(command: Command<'a>, arg: Arg<'a>) -> Result<Command<'a>, AllocError>
    requires { arg.global ≡ false }
    ensures app { IfOk result (λ c. app_of c ≡ with_rule (app_of command.entry) (rule_of arg.entry)) }
    ensures local { IfOk result (λ c. (fields_of c).has_globals ≡ (fields_of command.entry).has_globals) }
{
    command.arg(arg)
}

/// The command with an option that gives the library of imported grammars.
fn with_library<'a>(alloc: Global, command: Command<'a>) -> Result<Command<'a>, AllocError>
    ensures app { IfOk result (λ c. app_of c ≡ with_library (app_of command.entry)) }
    ensures local { IfOk result (λ c. (fields_of c).has_globals ≡ (fields_of command.entry).has_globals) }
{
    with_arg(command, option(alloc, "library", 'l'))
}

/// The command with an option that gives flags.
fn with_flags<'a>(alloc: Global, command: Command<'a>) -> Result<Command<'a>, AllocError>
    ensures app { IfOk result (λ c. app_of c ≡ with_flags (app_of command.entry)) }
    ensures local { IfOk result (λ c. (fields_of c).has_globals ≡ (fields_of command.entry).has_globals) }
{
    with_arg(command, option(alloc, "flags", 'f'))
}

/// `parse -g GRAMMAR -s RULE [-j JOBS] [-r ROWS] [-l LIB] [-f FLAGS] [--events] [--tokens] [--learned] FILE..`
fn parse_command<'a>(alloc: Global) -> Result<Command<'a>, AllocError>
    ensures app { IfOk result (λ c. app_of c ≡ parse_app) }
    ensures local { IfOk result (λ c. (fields_of c).has_globals ≡ false) }
{
    let command = Command::new(alloc, "parse");
    let command = with_arg(command, needed(option(alloc, "grammar", 'g')))?;
    let command = with_arg(command, needed(option(alloc, "start", 's')))?;
    let command = with_arg(command, option(alloc, "jobs", 'j'))?;
    let command = with_arg(command, option(alloc, "rows", 'r'))?;
    let command = with_library(alloc, command)?;
    let command = with_flags(alloc, command)?;
    let command = with_arg(command, flag(alloc, "events"))?;
    let command = with_arg(command, flag(alloc, "tokens"))?;
    let command = with_arg(command, flag(alloc, "learned"))?;
    let command = with_arg(command, needed(words(alloc, "files")))?;
    Ok(command)
}

/// `check [-l LIB] GRAMMAR`
fn check_command<'a>(alloc: Global) -> Result<Command<'a>, AllocError>
    ensures app { IfOk result (λ c. app_of c ≡ check_app) }
    ensures local { IfOk result (λ c. (fields_of c).has_globals ≡ false) }
{
    let command = with_library(alloc, Command::new(alloc, "check"))?;
    let command = with_arg(command, needed(word(alloc, "grammar")))?;
    Ok(command)
}

/// `atn [-l LIB] GRAMMAR RULE`
fn atn_command<'a>(alloc: Global) -> Result<Command<'a>, AllocError>
    ensures app { IfOk result (λ c. app_of c ≡ atn_app) }
    ensures local { IfOk result (λ c. (fields_of c).has_globals ≡ false) }
{
    let command = with_library(alloc, Command::new(alloc, "atn"))?;
    let command = with_arg(command, needed(word(alloc, "grammar")))?;
    let command = with_arg(command, needed(word(alloc, "rule")))?;
    Ok(command)
}

/// The command line without its commands, one of which is needed.
fn base_command<'a>(alloc: Global) -> Command<'a>
    ensures { app_of result ≡ base_app }
{
    Command::new(alloc, "g4")
        .no_binary_name(true)
        .subcommand_required(true)
}

/// The command line with one command more.
fn with_command<'a>(line: Command<'a>, command: Command<'a>) -> Result<Command<'a>, AllocError>
    requires { (fields_of command).has_globals ≡ false }
    ensures { IfOk result (λ l. app_of l ≡ with_subcommand (app_of line.entry) (app_of command.entry).top) }
{
    line.subcommand(command)
}

/// The whole command line: one of its commands, and nothing before it.
pub(crate) fn g4_command<'a>(alloc: Global) -> Result<Command<'a>, AllocError>
    ensures { IfOk result (λ l. app_of l ≡ g4_app) }
{
    let line = base_command(alloc);
    let line = with_command(line, parse_command(alloc)?)?;
    let line = with_command(line, check_command(alloc)?)?;
    let line = with_command(line, atn_command(alloc)?)?;
    Ok(line)
}
