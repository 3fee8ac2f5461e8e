ghost use Rattle.std.specs.Prelude.{◌≡◌, ◌≢◌, [], true, map, IfOk, IsErrOf, string_bytes};
ghost use Rattle.clap.specs.Words.{app_of, fault_of, found_of, is_simple_and_free, matches_of, rows_of};

use crate::WordsError;
use clap::error::ErrorKind;
use clap::{ArgMatches, Command};
use std::alloc::AllocError;

// What the words match, where the parser takes them.
pub(crate) fn matches<'a>(
    command: Command<'a>,
    words: &'a [String],
) -> Result<ArgMatches<'a>, WordsError>
    requires { is_simple_and_free (app_of command) ≡ true }
    ensures ok { IfOk result (λ m.
        rows_of (found_of m) ≡ matches_of (app_of command.entry) (map string_bytes words.entry.now)) }
    ensures taken { IfOk result (λ m.
        fault_of (app_of command.entry) (map string_bytes words.entry.now) ≡ []) }
    ensures usage { IsErrOf result WordsError.Usage →
        fault_of (app_of command.entry) (map string_bytes words.entry.now) ≢ [] }
{
    match command.try_get_matches_from(words) {
        Ok(matches) => Ok(matches),
        Err(error) if error.kind() == ErrorKind::OutOfMemory => Err(WordsError::Memory(AllocError)),
        Err(_) => Err(WordsError::Usage),
    }
}
