ghost use Rattle.std.specs.Prelude.{◌≡◌};
ghost use Rattle.dstm_workload.specs.Answers.{text_of, IsMemory};
ghost use Rattle.dstm_workload.specs.declared.refused.WorkloadError.TheVariants as errors;

use std::alloc::{AllocError, AllocFailed};

/// Why a line of a workload's text is refused.
#[derive(Clone, Copy, Debug, PartialEq, Eq)]
pub enum Why {
    /// It has to be the header, and is not.
    Header,
    /// It holds a byte that no line may hold.
    Bytes,
    /// A word stands where it cannot.
    Unknown,
    /// A field is not there.
    Missing,
    /// A field is too many.
    Extra,
    /// A field is not a plain decimal.
    Number,
    /// A number is not in its range.
    OutOfRange,
    /// It declares what is declared already.
    Twice,
    /// It declares something behind a transaction.
    Late,
    /// It works on what is not declared.
    Undeclared,
    /// There are too many operations or transactions.
    TooMany,
}

impl Why {
    /// The reason in words.
    pub fn text(self) -> &'static [u8]
        ensures { result.now ≡ text_of self }
    {
        match self {
            Why::Header => b"header",
            Why::Bytes => b"bytes",
            Why::Unknown => b"unknown",
            Why::Missing => b"missing",
            Why::Extra => b"extra",
            Why::Number => b"number",
            Why::OutOfRange => b"out of range",
            Why::Twice => b"twice",
            Why::Late => b"late",
            Why::Undeclared => b"undeclared",
            Why::TooMany => b"too many",
        }
    }
}

/// The first line that is refused, from 1, and why.
#[derive(Clone, Copy, Debug, PartialEq, Eq)]
pub struct Refused {
    pub line: u64,
    pub why: Why,
}

/// Why a workload was not read.
#[derive(Debug, Drop)]
pub enum WorkloadError {
    Refused(Refused),
    Memory(AllocError),
}

impl From<Refused> for WorkloadError {
    ghost from_gives = { λ refused e. e ≡ errors.Refused refused };

    fn from(refused: Refused) -> WorkloadError {
        WorkloadError::Refused(refused)
    }
}

impl From<AllocError> for WorkloadError {
    ghost from_gives = { λ _ e. IsMemory e };

    fn from(error: AllocError) -> WorkloadError {
        WorkloadError::Memory(error)
    }
}

impl<T: Drop> From<AllocFailed<T>> for WorkloadError {
    ghost from_gives = { λ _ e. IsMemory e };

    fn from(error: AllocFailed<T>) -> WorkloadError {
        WorkloadError::Memory(AllocError::from(error))
    }
}
