ghost use Rattle.std.specs.Prelude.{◌≡◌, false, map, Some, None, IfOk, IsErrOf, string_bytes};
ghost use Rattle.std.specs.List.{list_any};
ghost use Rattle.dstm_command.specs.CommandLine.{command_named, command_of, is_two_hyphens, IsSmallCommand};

use crate::numbers::read_numbers;
use crate::options::read_options;
use crate::{Command, WordsError};
use std::alloc::Global;

/// The command that a line's words ask for. The first word is the program's name.
pub fn read_words(alloc: Global, words: &[String]) -> Result<Command, WordsError>
    ensures ok { IfOk result (λ command. command_of (map string_bytes words.now) ≡ Some command) }
    ensures usage { IsErrOf result WordsError.Usage → command_of (map string_bytes words.now) ≡ None }
    ensures small { IfOk result IsSmallCommand }
{
    let [_, name, rest @ ..] = words else {
        return Err(WordsError::Usage);
    };
    if has_two_hyphens(rest) {
        return Err(WordsError::Usage);
    }
    read_command(alloc, name.as_str(), rest)
}

fn read_command(alloc: Global, name: &str, words: &[String]) -> Result<Command, WordsError>
    requires { list_any is_two_hyphens (map string_bytes words.now) ≡ false }
    ensures ok { IfOk result (λ command.
        command_named name.now (map string_bytes words.now) ≡ Some command) }
    ensures usage { IsErrOf result WordsError.Usage →
        command_named name.now (map string_bytes words.now) ≡ None }
    ensures small { IfOk result IsSmallCommand }
{
    match name {
        "run" => Ok(Command::Run(read_options(alloc, words)?)),
        "check" if words.is_empty() => Ok(Command::Check),
        "gen" => Ok(Command::Gen(read_numbers(words)?)),
        "demo" => Ok(Command::Demo(read_numbers(words)?)),
        _ => Err(WordsError::Usage),
    }
}

// One of the words is exactly `--`, which the parser would take for the end of the options.
fn has_two_hyphens(words: &[String]) -> bool
    ensures { result ≡ list_any (λ word. is_two_hyphens (string_bytes word)) words.now }
{
    words.iter().any(|word| word.as_str() == "--")
}
