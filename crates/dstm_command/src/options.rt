ghost use Rattle.std.specs.Prelude.{◌≡◌, false, map, Some, None, IfOk, IsErrOf, string_bytes, option_and_then};
ghost use Rattle.std.specs.List.{list_any};
ghost use Rattle.clap.specs.Words.{app_of, found_of, with_rule};
ghost use Rattle.dstm_command.specs.CommandLine.{is_two_hyphens, run_of, run_options, suits};
ghost use Rattle.dstm_command.specs.Options.{Given, options_in};
ghost use Rattle.dstm_command.specs.Parsers.{options_app, rule_named, Holds};

use crate::WordsError;
use crate::parser::matches;
use crate::values::{read_engine, read_manager, read_seed};
use clap::{Arg, ArgAction, ArgMatches, Command};
use dstm_core::Manager;
use dstm_options::{Engine, Options};
use std::alloc::{AllocError, Global};

// The options of `run`.
pub(crate) fn read_options(alloc: Global, words: &[String]) -> Result<Options, WordsError>
    requires { list_any is_two_hyphens (map string_bytes words.now) ≡ false }
    ensures ok { IfOk result (λ options.
        option_and_then run_of (options_in run_options (map string_bytes words.now)) ≡ Some options) }
    ensures usage { IsErrOf result WordsError.Usage →
        option_and_then run_of (options_in run_options (map string_bytes words.now)) ≡ None }
{
    let matches = matches(options_command(alloc)?, words)?;
    options_matched(&matches).ok_or(WordsError::Usage)
}

fn options_command<'a>(alloc: Global) -> Result<Command<'a>, AllocError>
    ensures { IfOk result (λ command. app_of command ≡ options_app run_options) }
{
    let command = Command::new(alloc, "run")
        .no_binary_name(true)
        .disable_help_flag(true);
    let command = with_option(alloc, command, "engine", ArgAction::Set)?;
    let command = with_option(alloc, command, "manager", ArgAction::Set)?;
    let command = with_option(alloc, command, "seed", ArgAction::Set)?;
    let command = with_option(alloc, command, "all-write", ArgAction::SetTrue)?;
    with_option(alloc, command, "release", ArgAction::SetTrue)
}

// The command with one more option, which takes a value or is a flag, as its action says.
fn with_option<'a>(
    alloc: Global,
    command: Command<'a>,
    name: &'a str,
    action: ArgAction,
) -> Result<Command<'a>, AllocError>
    ensures { IfOk result (λ more.
        app_of more ≡ with_rule (app_of command.entry) (rule_named name.entry.now action)) }
{
    let option = Arg::new(alloc, name).long(name).action(action);
    command.arg(option)
}

fn options_matched(matches: &ArgMatches) -> Option<Options>
    ensures { (given : Given) → Holds run_options (found_of matches.now) given → result ≡ run_of given }
{
    let engine = match matches.get_str("engine") {
        Some(text) => read_engine(text)?,
        None => Engine::Dstm,
    };
    let named = matches.get_str("manager");
    let manager = match named {
        Some(text) => read_manager(text)?,
        None => Manager::Polka,
    };
    let seed = match matches.get_str("seed") {
        Some(text) => read_seed(text)?,
        None => 0,
    };
    let all_write = matches.get_flag("all-write");
    let release = matches.get_flag("release");
    let for_dstm = named.is_some() || all_write || release;
    takes(engine, for_dstm).then_some(Options {
        manager,
        seed,
        all_write,
        release,
        engine,
    })
}

// Whether an engine takes words that mean something under DSTM alone, if there are any.
fn takes(engine: Engine, for_dstm: bool) -> bool
    ensures { result ≡ suits engine for_dstm }
{
    match engine {
        Engine::Dstm => true,
        Engine::Tl2 => !for_dstm,
    }
}
