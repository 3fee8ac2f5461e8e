use dstm_options::Options;
use std::alloc::AllocError;

/// What a command line asks for.
#[derive(Clone, Copy, Debug, PartialEq, Eq)]
pub enum Command {
    /// `run`: runs the workload that comes in.
    Run(Options),
    /// `check`: judges a report on a workload.
    Check,
    /// `gen`: writes a generated workload.
    Gen(GenSpec),
    /// `demo`: generates a workload, runs it and judges the report.
    Demo(GenSpec),
}

/// Which workload is generated.
#[derive(Clone, Copy, Debug, PartialEq, Eq)]
pub struct GenSpec {
    pub seed: u64,
    /// The transactions, 0 to 20,000.
    pub count: u32,
    /// The workers, 1 to 32.
    pub workers: u32,
}

/// Why a command line was not read.
#[derive(Debug, Drop)]
pub enum WordsError {
    /// The words are no command.
    Usage,
    Memory(AllocError),
}

impl From<AllocError> for WordsError {
    ghost use Rattle.std.specs.Prelude.{◌≡◌};
    ghost use Rattle.dstm_command.specs.declared.command.WordsError.TheVariants.{Memory};

    ghost from_gives = { λ error e. e ≡ Memory error };

    fn from(error: AllocError) -> WordsError {
        WordsError::Memory(error)
    }
}
