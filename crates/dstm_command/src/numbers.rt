ghost use Rattle.std.specs.Prelude.{◌≡◌, map, Some, None, IfOk, IfSome, IsErrOf, string_bytes};
ghost use Rattle.dstm_command.specs.CommandLine.{spec_in, spec_of, IsSmall};

use crate::values::{read_number, read_seed};
use crate::{GenSpec, WordsError};

const MAX_COUNT: u32 = 20_000;

const MAX_WORKERS: u32 = 32;

// The numbers of `gen` and `demo`.
pub(crate) fn read_numbers(words: &[String]) -> Result<GenSpec, WordsError>
    ensures ok { IfOk result (λ numbers. spec_in (map string_bytes words.now) ≡ Some numbers) }
    ensures usage { IsErrOf result WordsError.Usage → spec_in (map string_bytes words.now) ≡ None }
    ensures small { IfOk result IsSmall }
{
    let [seed, count, workers] = words else {
        return Err(WordsError::Usage);
    };
    numbers_of(seed.as_str(), count.as_str(), workers.as_str()).ok_or(WordsError::Usage)
}

fn numbers_of(seed: &str, count: &str, workers: &str) -> Option<GenSpec>
    ensures read { result ≡ spec_of seed.now count.now workers.now }
    ensures small { IfSome result IsSmall }
{
    Some(GenSpec {
        seed: read_seed(seed)?,
        count: read_number(count, 0, MAX_COUNT)?,
        workers: read_number(workers, 1, MAX_WORKERS)?,
    })
}
